//! Input read to its end, up to a limit.
ghost use Rattle.std.specs.Prelude.{◌≡◌, ◌≢◌, ◌<◌, ◌≤◌, ◌^◌, ◌-◌, Err, IfErr, IfOk, IfSome, IsErrOf, length};
ghost use Rattle.std.specs.Io.KnownBytes.{Consumes, IsAtEnd};
ghost use Rattle.base.specs.Inputs.{refusal_of};
ghost use Rattle.base.specs.Watches.{HasCause};

use crate::{ReadFailed, Refusal, Watch};
use std::alloc::Global;
use std::io::Read;
use thiserror::Error;

/// Why an input was not read.
#[derive(Clone, Copy, Debug, PartialEq, Eq, Error)]
pub enum InputFault {
    /// The input is longer than the limit.
    #[error("the input is longer than its limit")]
    TooLong,
    /// The reader failed or was interrupted.
    #[error("a read failed")]
    Read,
    /// Memory was refused.
    #[error("memory was refused")]
    NoMemory,
}

impl InputFault {
    /// Its row in the table of refusals.
    pub fn refusal(self) -> Refusal
        ensures { result ≡ refusal_of self }
    {
        match self {
            InputFault::TooLong => Refusal::TooLong,
            InputFault::Read => Refusal::Read,
            InputFault::NoMemory => Refusal::NoMemory,
        }
    }
}

/// The most bytes of one read.
const PIECE: usize = 65_536;

/// Reads until there are `most` bytes or the input ends, and no byte after them. An interrupted
/// read is a fault and isn't retried; no read follows a failed one. Takes memory for what it reads:
/// 65,536 bytes, or `most` if that is fewer, at once, and more as it comes.
///
/// `Read`: the reader failed, or a read of this watch had failed before. `NoMemory`: memory was
/// refused; no read failed.
pub fn read_up_to<R: Read>(
    alloc: Global,
    reader: &mut R,
    watch: &mut Watch,
    most: usize,
) -> Result<Vec<u8>, InputFault>
    ensures ok { IfOk result (λ bytes.
        Consumes (R.remaining reader.old) (R.remaining reader.new) bytes.items) }
    ensures bound { IfOk result (λ bytes. length bytes.items ≤ most) }
    ensures end { IfOk result (λ bytes. length bytes.items < most
        → IsAtEnd (R.remaining reader.new)) }

    ensures device { IfErr result (HasCause watch.new) }
    ensures steady { result ≢ Err InputFault.Read → watch.new ≡ watch.old }
{
    let Ok(mut bytes) = Vec::with_capacity(alloc, most.min(PIECE)) else {
        return Err(InputFault::NoMemory);
    };
    let mut piece = [0; PIECE];
    while bytes.len() < most {
        let room = (most - bytes.len()).min(PIECE);
        match watch.read(reader, &mut piece[..room]) {
            Err(ReadFailed) => return Err(InputFault::Read),
            Ok(0) => return Ok(bytes),
            Ok(count) => {
                if bytes.extend_from_slice(&piece[..count]).is_err() {
                    return Err(InputFault::NoMemory);
                }
            }
        }
    }
    Ok(bytes)
}

/// Reads an input to its end. An interrupted read is a fault and isn't retried. Takes memory for
/// what it reads.
///
/// `TooLong`: the input has more than `most` bytes; at most one byte past the limit is read.
/// `Read`: the reader failed. `NoMemory`: memory was refused.
pub fn read_all<R: Read>(alloc: Global, reader: &mut R, most: usize) -> Result<Vec<u8>, InputFault>
    requires { most < 2 ^ 64 - 1 }
    ensures whole { IfOk result (λ bytes.
        IfSome (R.remaining reader.old) (λ given. bytes.items ≡ given)) }
    ensures bound { IfOk result (λ bytes. length bytes.items ≤ most) }

    ensures long { IsErrOf result InputFault.TooLong
        → IfSome (R.remaining reader.old) (λ given. most < length given) }
{
    let bytes = read_up_to(alloc, reader, &mut Watch::new(), most + 1)?;
    if bytes.len() > most {
        return Err(InputFault::TooLong);
    }
    Ok(bytes)
}
