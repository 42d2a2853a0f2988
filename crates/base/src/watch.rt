//! A watch over reads.
ghost use Rattle.std.specs.Prelude.{◌≡◌, IsErr, OnErr, OnOk, false};
ghost use Rattle.std.specs.Io.{ReadsAtMost};
ghost use Rattle.std.specs.Io.KnownBytes.{ReadConsumes};
ghost use Rattle.base.specs.Watches.{HasFailed};

use std::io::Read;
use thiserror::Error;

/// A read failed, or was interrupted.
#[derive(Clone, Copy, Debug, PartialEq, Eq, Error)]
#[error("a read failed")]
pub struct ReadFailed;

/// Reads from a reader until a read fails. It remembers the failure and reads no more.
#[derive(Debug, Drop)]
pub struct Watch {
    failed: bool,
}

impl Watch {
    /// A watch that has made no read.
    pub fn new() -> Watch
        ensures { result.failed ≡ false }
    {
        Watch { failed: false }
    }

    /// Whether one of its reads failed. No read follows a failed one.
    pub fn has_failed(&self) -> bool
        ensures { result ≡ self.now.failed }
    {
        self.failed
    }

    /// Reads some bytes, as the reader's own `read` does: none only at the end of the input or into
    /// an empty slice. Fails if the reader does, or if an earlier read of this watch did.
    pub fn read<R: Read>(&mut self, reader: &mut R, buf: &mut [u8]) -> Result<usize, ReadFailed>
        ensures bound { ReadsAtMost result buf.new }
        ensures bytes { ReadConsumes (R.remaining reader.old) (R.remaining reader.new)
            result buf.new }

        ensures device { OnErr result (HasFailed self.new) }
        ensures steady { OnOk result (self.new ≡ self.old) }
        ensures closed { HasFailed self.old → IsErr result × (reader.new ≡ reader.old) }
    {
        if self.failed {
            return Err(ReadFailed);
        }
        match reader.read(buf) {
            Ok(count) => Ok(count),
            Err(_) => {
                self.failed = true;
                Err(ReadFailed)
            }
        }
    }
}
