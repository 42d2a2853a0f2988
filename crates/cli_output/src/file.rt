//! Files read to their end.
ghost use Rattle.std.specs.Prelude.{◌≡◌, ◌⊎◌, ◌+◌, ◌≤◌, length, IfErr, IfOk, IsErrOf};
ghost use Rattle.cli_output.specs.Faults.{IsFileRefusal, IsRow, IsUnreadRefusal, row_of};
ghost use Rattle.cli_output.specs.Files.{IsLonger, IsStartOf, IsWhole};

use crate::fault::Fault;
use crate::list_lines::MOST_BYTES;
use base::{LONGEST_IMAGE, Refusal, Watch, read_all};
use pe_image::Pieces;
use std::rt::Files;
use std::{fs, io};

/// Opens a file.
///
/// File: it can't be opened, which includes that it doesn't exist. NoMemory: memory was refused.
pub fn open_file<R: Files + AllocGlobal>(rt: &R, path: &str) -> Result<R::File, Fault>
    ensures { IfErr result (IsRow IsFileRefusal) }
{
    match fs::open(rt, path) {
        Ok(file) => Ok(file),
        Err(error) if error.kind() == io::ErrorKind::OutOfMemory => {
            Err(Fault::from(Refusal::NoMemory))
        }
        Err(_) => Err(Fault::from(Refusal::File)),
    }
}

/// All bytes of a file.
///
/// File: it can't be opened, which includes that it doesn't exist. Read: a read failed or was
/// interrupted. NoMemory: memory was refused. TooLong: it has more than `MOST_BYTES`.
pub fn read_file<R: Files + AllocGlobal>(rt: &R, path: &str) -> Result<Vec<u8>, Fault>
    ensures whole { IfOk result (λ bytes. IsWhole R.File.remaining bytes.items) }
    ensures long { IsErrOf result (row_of Refusal.TooLong)
        → IsLonger R.File.remaining MOST_BYTES }
    ensures bound { IfOk result (λ bytes. length bytes.items ≤ MOST_BYTES) }
    ensures named { IfErr result (IsRow (λ refusal.
        IsUnreadRefusal refusal ⊎ (refusal ≡ Refusal.TooLong))) }
{
    let mut file = open_file(rt, path)?;
    Ok(read_all(rt.alloc(), &mut file, MOST_BYTES)?)
}

/// An image's file, in pieces. Of a file that is too long for an image, `LONGEST_IMAGE` bytes and
/// one more are read; its layout is then refused for its length.
///
/// File, Read, NoMemory: as for `read_file`.
pub fn read_image<R: Files + AllocGlobal>(rt: &R, path: &str) -> Result<Pieces, Fault>
    ensures start { IfOk result (IsStartOf R.File.remaining (LONGEST_IMAGE + 1)) }
    ensures bound { IfOk result (λ bytes. length bytes ≤ LONGEST_IMAGE + 1) }
    ensures named { IfErr result (IsRow IsUnreadRefusal) }
{
    let mut file = open_file(rt, path)?;
    Ok(Pieces::take(rt.alloc(), &mut file, &mut Watch::new(), LONGEST_IMAGE + 1)?)
}
