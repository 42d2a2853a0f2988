//! Imports of signature lists.
ghost use Rattle.std.specs.Prelude.{◌++◌, List, IfErr, IfOk, OnOk};
ghost use Rattle.siglist.specs.SignatureLists.{IsList};
ghost use Rattle.desk_inputs.specs.imports.FromLists.{IsDbxImport, RefusesDbx, list_items};
ghost use Rattle.desk_inputs.specs.imports.Gathering.{Gathers};
ghost use Rattle.desk_inputs.specs.declared.imports.item.Item.{Item};

use crate::imports::entries::item_of;
use crate::imports::fault::ImportFault;
use crate::imports::gathering::Gathered;
use desk_types::Command;
use siglist::{SignatureList, lists};
use std::alloc::{AllocError, Global};

/// Gathers the entries of one list.
fn keep_list(gathered: &mut Gathered, list: &SignatureList<'_>) -> Result<(), AllocError>
    requires { IsList list.now.list }
    ensures ok { OnOk result ((items : List Item)
        → Gathers items gathered.old → Gathers (items ++ list_items list.now.list) gathered.new) }
{
    let kind = list.kind();
    for entry in list.entries() {
        gathered.keep(item_of(&kind, &entry))?;
    }
    Ok(())
}

/// The import of the signature lists that the bytes spell (UEFI 2.10, section 32.4.1), as one
/// command without a stamp. An entry of an EFI_CERT_SHA256_GUID list revokes a digest of an image;
/// of an EFI_CERT_X509_SHA256_GUID list, the certificate whose TBSCertificate has that SHA-256,
/// whatever the time; of an EFI_CERT_X509_GUID list, the certificate in its body. All other
/// entries, and bodies that aren't a certificate, are skipped and counted. Takes memory for at most
/// 10,001 entries.
///
/// Bytes that aren't a row of lists are refused as Lists, with the offset of the first wrong list.
/// TooLong, for more than 10,000 entries, comes only if all lists are right. NoMemory: memory was
/// refused.
pub fn import_dbx(alloc: Global, bytes: &[u8]) -> Result<Command, ImportFault>
    ensures exact { IfOk result (IsDbxImport bytes.now) }

    ensures first { IfErr result (RefusesDbx bytes.now) }
{
    let mut gathered = Gathered::new(alloc);
    let row = match lists(bytes) {
        Ok(row) => row,
        Err(fault) => return Err(ImportFault::Lists(fault)),
    };
    for list in row {
        if keep_list(&mut gathered, &list).is_err() {
            return Err(ImportFault::NoMemory);
        }
    }
    match gathered.into_command(None) {
        Some(command) => Ok(command),
        None => Err(ImportFault::TooLong),
    }
}
