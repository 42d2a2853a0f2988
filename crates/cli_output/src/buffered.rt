//! Writers that hold bytes back.
ghost use Rattle.std.specs.Prelude.{◌≡◌, [], OnOk};
ghost use Rattle.std.specs.Io.Buffered.{writer_buffer};
ghost use Rattle.std.specs.Io.KnownBytes.{Keeps};

use base::WriteFailed;
use std::io::{BufWriter, Write};

/// A writer that may hold bytes back until it is flushed.
pub trait Buffered: Write {
    /// It holds no byte back.
    ghost flushed: { Self → Type 0 };

    /// Writes on what it holds back. Fails if that can't be written.
    fn flush_all(&mut self) -> Result<(), WriteFailed>
        ensures flushed { OnOk result (flushed self.new) }
        ensures kept { Keeps (Self.contents self.old) (Self.contents self.new) };
}

impl<W: Write + Drop> Buffered for BufWriter<W> {
    ghost flushed = { λ w. writer_buffer w ≡ [] };

    fn flush_all(&mut self) -> Result<(), WriteFailed> {
        match self.flush() {
            Ok(()) => Ok(()),
            Err(_) => Err(WriteFailed),
        }
    }
}
