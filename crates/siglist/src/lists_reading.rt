//! The reading of a row of lists.
ghost use Rattle.std.specs.Prelude.{IfOk, IfErr};
ghost use Rattle.siglist.specs.SignatureLists.{SpellsPlaced};
ghost use Rattle.siglist.specs.ListsFaults.{IsRefused};

use crate::fault::ListsFault;
use crate::head::read_size;
use crate::row::Lists;

/// The signature lists that the bytes spell, one after another (UEFI 2.10, section 32.4.1). All are
/// checked before the first is returned. Offsets count bytes from the input's start. Takes no
/// memory; bodies and headers are slices of the input.
///
/// The fault is at the first place without a list: List if fewer than 28 bytes are left, if
/// SignatureListSize is below 28 plus SignatureHeaderSize or passes the input's end, or if a list
/// of one of the three known kinds has a header; otherwise EntrySize. A list may have no entries.
pub fn lists(bytes: &[u8]) -> Result<Lists<'_>, ListsFault>
    ensures found { IfOk result (λ row. SpellsPlaced row bytes.now) }

    ensures first { IfErr result (λ fault. IsRefused bytes.now fault) }
{
    let mut offset = 0;
    while offset < bytes.len() {
        let (_, rest) = bytes.split_at(offset);
        match read_size(rest) {
            Ok(size) => offset += size,
            Err(lack) => return Err(lack.at(offset as u64)),
        }
    }
    Ok(Lists::of(bytes))
}
