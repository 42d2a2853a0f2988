//! Tokens of people.
ghost use Rattle.std.specs.Prelude.{◌≡◌, ◌<◌, ◌-◌, [], ◌∷◌, IfNone, IfOk, IfSome, IsErrOf, IsTrue, false};
ghost use Rattle.std.specs.Prelude.{length, slice_index};
ghost use Rattle.std.specs.Io.KnownBytes.{Consumes, IsAtEnd};
ghost use Rattle.std.specs.List.{list_all};
ghost use Rattle.sha2.specs.Sha256.{sha256};
ghost use Rattle.desk_types.specs.Forms.{is_between};
ghost use Rattle.desk_inputs.specs.Tokens as spec;

use crate::hashing::hash_of;
use base::{Digest, InputFault};
use std::alloc::Global;
use std::io::Read;

/// The fewest bytes of a token.
const SHORTEST_TOKEN: usize = 16;

/// The most bytes of a token.
const LONGEST_TOKEN: usize = 128;

/// The most bytes that are read of a line: the longest token, a CR, and one more.
const MOST_READ: usize = LONGEST_TOKEN + 2;

/// True if each byte is a visible character of ASCII.
fn are_visible(text: &[u8]) -> bool
    ensures { result ≡ list_all (is_between 33 126) text.now }
{
    text.iter().all(|byte| 33 <= *byte && *byte <= 126)
}

/// True if the bytes are a token: 16 to 128 of 0x21 to 0x7E.
pub fn is_token(text: &[u8]) -> bool
    ensures { result ≡ spec.is_token text.now }
{
    if text.len() < SHORTEST_TOKEN || LONGEST_TOKEN < text.len() {
        return false;
    }
    are_visible(text)
}

/// The SHA-256 of a token's bytes, the only form in which a desk keeps it.
pub fn token_digest(token: &[u8]) -> Digest
    ensures { result ≡ sha256 token.now }
{
    hash_of(token)
}

/// True if a line's last byte is a CR.
fn ends_in_cr(line: &[u8]) -> bool
    ensures found { IsTrue result → (0 < length line.now)
        × (slice_index line.now (length line.now - 1) ≡ 13) }
    ensures only { result ≡ false → spec.HasNoCrAtEnd line.now }
{
    !line.is_empty() && line[line.len() - 1] == b'\r'
}

/// The text of a line without its LF: one CR at its end isn't part of the text.
pub(crate) fn without_cr(line: Vec<u8>) -> Vec<u8>
    ensures { spec.IsTextOf line.items result.items }
{
    let mut text = line;
    if ends_in_cr(&text) {
        text.pop();
    }
    text
}

/// The next byte of an input, `None` at its end. An interrupted read is a fault and isn't retried.
pub(crate) fn next_byte<R: Read>(reader: &mut R) -> Result<Option<u8>, InputFault>
    ensures byte { IfOk result (λ found. IfSome found
        (λ b. Consumes (R.remaining reader.old) (R.remaining reader.new) (b ∷ []))) }
    ensures end { IfOk result (λ found. IfNone found
        (Consumes (R.remaining reader.old) (R.remaining reader.new) []
        × IsAtEnd (R.remaining reader.new))) }

    ensures short { IsErrOf result InputFault.TooLong → ⊥ }
{
    let mut byte = [0; 1];
    match reader.read(&mut byte) {
        Err(_) => Err(InputFault::Read),
        Ok(0) => Ok(None),
        Ok(_) => Ok(Some(byte[0])),
    }
}

/// Reads the first line of an input, one byte at a time, and no byte after it. It ends at an LF,
/// which drops one CR before it, or at the end of the input, which drops none. TooLong if the line
/// is too long for a token.
fn read_first_line<R: Read>(alloc: Global, reader: &mut R) -> Result<Vec<u8>, InputFault>
    ensures line { IfOk result (λ line. IfSome (R.remaining reader.old)
        (λ given. line.items ≡ spec.first_line given)) }

    ensures long { IsErrOf result InputFault.TooLong
        → IfSome (R.remaining reader.old) spec.PassesTokens }
{
    let mut line = Vec::new(alloc);
    while line.len() < MOST_READ {
        match next_byte(reader)? {
            None => return Ok(line),
            Some(b'\n') => return Ok(without_cr(line)),
            Some(byte) => {
                if line.push(byte).is_err() {
                    return Err(InputFault::NoMemory);
                }
            }
        }
    }
    Err(InputFault::TooLong)
}

/// Reads a token, the first line of an input, and returns the SHA-256 that a desk keeps of it;
/// `None` if that line isn't a token. No byte after the line is read. Takes memory for the line.
///
/// TooLong if the line has more bytes than a token with its CR, 129. Read if the reader failed or
/// was interrupted; no read is retried. NoMemory if memory was refused.
pub fn read_token<R: Read>(alloc: Global, reader: &mut R) -> Result<Option<Digest>, InputFault>
    ensures exact { IfOk result (λ kept. IfSome (R.remaining reader.old)
        (λ given. kept ≡ spec.token_in given)) }

    ensures long { IsErrOf result InputFault.TooLong
        → IfSome (R.remaining reader.old) spec.PassesTokens }
{
    let line = read_first_line(alloc, reader)?;
    if is_token(&line) {
        Ok(Some(token_digest(&line)))
    } else {
        Ok(None)
    }
}
