//! The SHA-256 of a token, given in place of the token.
ghost use Rattle.std.specs.Prelude.{◌≡◌, IfOk, IfSome, IsErrOf};
ghost use Rattle.desk_inputs.specs.Tokens as spec;

use crate::token::{next_byte, without_cr};
use base::{Digest, InputFault};
use std::alloc::Global;
use std::io::Read;

/// The most bytes that are read before a space or an LF: the digits of a digest, a CR, and one
/// more.
const MOST_READ: usize = 66;

/// Reads the first line of an input up to its first space, one byte at a time, and no byte after
/// that. The line ends at an LF, which drops one CR before it, or at the end of the input, which
/// drops none. TooLong if 66 bytes come before any of these.
fn read_first_word<R: Read>(alloc: Global, reader: &mut R) -> Result<Vec<u8>, InputFault>
    ensures word { IfOk result (λ word. IfSome (R.remaining reader.old)
        (λ given. word.items ≡ spec.first_word given)) }

    ensures long { IsErrOf result InputFault.TooLong
        → IfSome (R.remaining reader.old) spec.PassesDigits }
{
    let mut word = Vec::new(alloc);
    while word.len() < MOST_READ {
        match next_byte(reader)? {
            None => return Ok(word),
            Some(b'\n') => return Ok(without_cr(word)),
            Some(b' ') => return Ok(word),
            Some(byte) => {
                if word.push(byte).is_err() {
                    return Err(InputFault::NoMemory);
                }
            }
        }
    }
    Err(InputFault::TooLong)
}

/// Reads the SHA-256 of a token, 64 hexadecimal digits of either case at the beginning of an
/// input's first line, alone or followed by a space and anything; `None` if that line begins
/// otherwise. No byte after the digits and the space or the line's end is read. Takes memory for
/// the digits.
///
/// TooLong if 66 bytes come before a space, an LF or the end: more than the 64 digits and a CR.
/// Read if the reader failed or was interrupted; no read is retried. NoMemory if memory was
/// refused.
pub fn read_token_digest<R: Read>(
    alloc: Global,
    reader: &mut R,
) -> Result<Option<Digest>, InputFault>
    ensures exact { IfOk result (λ kept. IfSome (R.remaining reader.old)
        (λ given. kept ≡ spec.given_digest given)) }

    ensures long { IsErrOf result InputFault.TooLong
        → IfSome (R.remaining reader.old) spec.PassesDigits }
{
    let word = read_first_word(alloc, reader)?;
    Ok(Digest::parse(&word).ok())
}
