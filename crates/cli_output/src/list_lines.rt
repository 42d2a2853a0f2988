//! The lines of signature lists.
ghost use Rattle.std.specs.Prelude.{◌⊎◌, ◌≤◌, List, IfErr, OnErr, OnOk, flat_map, length};
ghost use Rattle.std.specs.Io.KnownBytes.{Appends, Keeps};
ghost use Rattle.base.specs.Output.{AppendsBeginning};
ghost use Rattle.siglist.specs.SignatureLists.{Placed, SpellsPlaced};
ghost use Rattle.cli_output.specs.Faults.{IsRow};
ghost use Rattle.cli_output.specs.Listings.{IsLineRefusal, IsUnlisted, list_line, list_words};

use crate::fault::Fault;
use base::{LONGEST_IMAGE, Refusal, WriteFailed, put_each};
use itoa::Buffer;
use siglist::{Kind, Lists, SignatureList, lists};
use std::alloc::Global;
use std::io::Write;

/// The most bytes of an image's file, and of a file of signature lists.
pub const MOST_BYTES: usize = LONGEST_IMAGE as usize;

/// Writes the line of a list.
#[tactic(auto, unfolding(crate::specs::Listings::list_words))]
fn put_words<W: Write>(
    offset: u64,
    kind: &[u8],
    count: usize,
    writer: &mut W,
) -> Result<(), WriteFailed>
    ensures ok { OnOk result (Appends (W.contents writer.old) (W.contents writer.new)
        (list_words offset kind.now count)) }
    ensures err { OnErr result (AppendsBeginning (W.contents writer.old) (W.contents writer.new)
        (list_words offset kind.now count)) }
{
    let mut digits = Buffer::new();
    let offset = digits.format(offset).as_bytes();
    let mut digits = Buffer::new();
    let count = digits.format(count).as_bytes();
    put_each(&[offset, b" ", kind, b" ", count, b"\n"], writer)
}

/// Writes the line of a list. Takes memory for the text of a GUID.
fn put_list<W: Write>(alloc: Global, list: &SignatureList<'_>, writer: &mut W) -> Result<(), Fault>
    ensures ok { OnOk result (Appends (W.contents writer.old) (W.contents writer.new)
        (list_line list.now)) }
    ensures err { OnErr result (AppendsBeginning (W.contents writer.old) (W.contents writer.new)
        (list_line list.now)) }
    ensures named { IfErr result (IsRow IsLineRefusal) }
{
    let offset = list.offset();
    let count = list.count();
    match list.kind() {
        Kind::Sha256 => put_words(offset, b"sha256", count, writer)?,
        Kind::X509 => put_words(offset, b"x509", count, writer)?,
        Kind::X509Sha256 => put_words(offset, b"x509_sha256", count, writer)?,
        Kind::Other(guid) => {
            let Ok(text) = guid.text(alloc) else {
                return Err(Fault::from(Refusal::NoMemory));
            };
            put_words(offset, text.as_bytes(), count, writer)?;
        }
    }
    Ok(())
}

/// Writes a line for each list.
fn put_lists<W: Write>(alloc: Global, row: Lists<'_>, writer: &mut W) -> Result<(), Fault>
    ensures ok { OnOk result (Appends (W.contents writer.old) (W.contents writer.new)
        (flat_map list_line row.entry)) }
    ensures err { OnErr result (AppendsBeginning (W.contents writer.old) (W.contents writer.new)
        (flat_map list_line row.entry)) }
    ensures named { IfErr result (IsRow IsLineRefusal) }
{
    for list in row {
        put_list(alloc, &list, writer)?;
    }
    Ok(())
}

/// Writes a line `OFFSET KIND COUNT` for each signature list, in order: where it begins in the
/// bytes, its kind and how many entries it has. Nothing is written for bytes that aren't lists.
/// Takes memory for the text of a GUID.
pub fn print_list<W: Write>(alloc: Global, bytes: &[u8], writer: &mut W) -> Result<(), Fault>
    ensures ok { OnOk result ((row : List Placed) × SpellsPlaced row bytes.now
        × Appends (W.contents writer.old) (W.contents writer.new) (flat_map list_line row)) }
    ensures bound { OnOk result (length bytes.now ≤ MOST_BYTES) }

    ensures err { OnErr result (Keeps (W.contents writer.old) (W.contents writer.new)
        ⊎ ((row : List Placed) × SpellsPlaced row bytes.now × AppendsBeginning
        (W.contents writer.old) (W.contents writer.new) (flat_map list_line row))) }
    ensures first { IfErr result (λ fault. IsRow IsLineRefusal fault
        ⊎ IsUnlisted bytes.now fault) }
    ensures refused { IfErr result (λ fault. (IsRow IsLineRefusal fault → ⊥)
        → Keeps (W.contents writer.old) (W.contents writer.new)) }
{
    if bytes.len() > MOST_BYTES {
        return Err(Fault::from(Refusal::TooLong));
    }
    let row = lists(bytes)?;
    put_lists(alloc, row, writer)
}
