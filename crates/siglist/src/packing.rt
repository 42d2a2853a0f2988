//! Lines of digests packed into one list.
ghost use Rattle.std.specs.Prelude.{◌≡◌, ◌≤◌, ℕ, length, Ok, Err, IfErr, IfOk, IfSome, IsErrOf};
ghost use Rattle.std.specs.Io.KnownBytes.{Keeps};
ghost use Rattle.base.specs.Lines.{parted};
ghost use Rattle.siglist.specs.Packing.{HasWrongLine, IsPacked, IsPartlyPacked, IsTooLong, digests_in, longest_text};

use crate::fault::PackFault;
use crate::writing::write_sha256;
use base::{Digest, Guid, arrange, parted, read_all};
use std::alloc::Global;
use std::io::{Read, Write};

/// The most bytes of a text.
pub const MOST_BYTES: usize = 8_388_608;

/// Reads the text to its end, or refuses it as too long.
fn read_text<R: Read>(alloc: Global, reader: &mut R) -> Result<Vec<u8>, PackFault>
    ensures whole { IfOk result (λ text.
        IfSome (R.remaining reader.old) (λ given. text.items ≡ given)) }
    ensures bound { IfOk result (λ text. length text.items ≤ longest_text) }
    ensures too_long { IsErrOf result PackFault.TooLong
        → IfSome (R.remaining reader.old) IsTooLong }
    ensures no_line { (line : ℕ) → IsErrOf result (PackFault.Line line) → ⊥ }
    ensures no_write { IsErrOf result PackFault.Write → ⊥ }
{
    Ok(read_all(alloc, reader, MOST_BYTES)?)
}

/// The digests of a text's lines, in their order.
fn read_digests(alloc: Global, text: &[u8]) -> Result<Vec<Digest>, PackFault>
    ensures ok { IfOk result (λ digests. digests_in (parted text.now) ≡ Ok digests.items) }
    ensures line { (line : ℕ) → IsErrOf result (PackFault.Line line)
        → digests_in (parted text.now) ≡ Err line }
    ensures short { IsErrOf result PackFault.TooLong → ⊥ }
    ensures no_read { IsErrOf result PackFault.Read → ⊥ }
    ensures no_write { IsErrOf result PackFault.Write → ⊥ }
{
    let mut digests = Vec::new(alloc);
    for line in parted(text) {
        match Digest::parse(line.text) {
            Err(_) => return Err(PackFault::Line { line: line.number }),
            Ok(digest) => {
                if digests.push(digest).is_err() {
                    return Err(PackFault::NoMemory);
                }
            }
        }
    }
    Ok(digests)
}

/// Reads lines of 64 hexadecimal digits to the end, writes the digests as one SHA256 list,
/// ascending, each once, and returns their count. Empty lines are counted and left out. Nothing is
/// written if there is no digest, nor before all lines are read. Takes memory for the text and its
/// digests; the time is that of sorting them.
///
/// TooLong: the text has more than 8,388,608 bytes, which is checked before its lines. Line: the
/// first line that isn't 64 hexadecimal digits. Read: a read failed. NoMemory: memory was refused.
/// Write: a prefix of the list was written. An interrupted read or write is a fault. The clauses
/// say nothing of a reader or writer whose bytes aren't known.
pub fn pack<R: Read, W: Write>(
    alloc: Global,
    owner: &Guid,
    reader: &mut R,
    writer: &mut W,
) -> Result<u64, PackFault>
    ensures ok { IfOk result (λ count. IfSome (R.remaining reader.old) (λ text.
        IsPacked owner.now text count (W.contents writer.old) (W.contents writer.new))) }

    ensures too_long { IsErrOf result PackFault.TooLong
        → IfSome (R.remaining reader.old) IsTooLong }
    ensures line { (line : ℕ) → IsErrOf result (PackFault.Line line)
        → IfSome (R.remaining reader.old) (λ text. HasWrongLine text line) }
    ensures write { IsErrOf result PackFault.Write → IfSome (R.remaining reader.old) (λ text.
        IsPartlyPacked owner.now text (W.contents writer.old) (W.contents writer.new)) }

    // After any fault but Write nothing was written.
    ensures kept { IfErr result (λ fault. (fault ≡ PackFault.Write → ⊥)
        → Keeps (W.contents writer.old) (W.contents writer.new)) }
{
    let text = read_text(alloc, reader)?;
    let mut digests = read_digests(alloc, &text)?;
    arrange(&mut digests);
    write_sha256(owner, &digests, writer)?;
    Ok(digests.len() as u64)
}
