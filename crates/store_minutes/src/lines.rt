//! Lines read one after another, until a read fails.
ghost use Rattle.std.specs.Prelude.{◌≡◌, ◌≢◌, ◌≤◌, ◌<◌, ◌-◌, All, Err, IfErr, IfOk, length, take, false, true};
ghost use Rattle.std.specs.Io.KnownBytes.{IsAtEnd};
ghost use Rattle.store_minutes.specs.Lines.{TakesLine, TakesPiece};
ghost use Rattle.store_minutes.specs.Watches.{IsReadFault};

use base::Refusal;
use std::io::BufRead;

/// Reads lines from a reader, and remembers whether a read failed.
#[derive(Debug, Drop)]
pub struct LineWatch {
    failed: bool,
}

/// How many of these bytes a line takes: those up to the first line break, with it, or all.
fn size_of_line(bytes: &[u8]) -> usize
    ensures bound { result ≤ length bytes.now }
    ensures some { 0 < length bytes.now → 0 < result }
    ensures before { All (λ byte. byte ≢ 10) (take (result - 1) bytes.now) }
{
    match bytes.iter().position(|byte| *byte == b'\n') {
        Some(place) => place + 1,
        None => bytes.len(),
    }
}

impl LineWatch {
    /// A watch that has read nothing.
    pub fn new() -> LineWatch
        ensures { result.failed ≡ false }
    {
        LineWatch { failed: false }
    }

    /// Whether one of its reads failed.
    pub fn has_failed(&self) -> bool
        ensures { result ≡ self.now.failed }
    {
        self.failed
    }

    /// Appends what the reader has at hand to the line, up to the next line break, with it. True
    /// after a line break, and at the end. Takes memory for the bytes.
    ///
    /// `NoMemory`: memory was refused. `Read`: the read failed, or was interrupted.
    fn append<R: BufRead>(&mut self, reader: &mut R, line: &mut Vec<u8>) -> Result<bool, Refusal>
        ensures taken { IfOk result (TakesPiece (R.remaining reader.old) (R.remaining reader.new)
            line.old.items line.new.items) }
        ensures named { IfErr result (IsReadFault self.new) }
        ensures steady { result ≢ Err Refusal.Read → self.new ≡ self.old }
    {
        let Ok(held) = reader.fill_buf() else {
            self.failed = true;
            return Err(Refusal::Read);
        };
        let size = size_of_line(held);
        let Ok(()) = line.extend_from_slice(&held[..size]) else {
            return Err(Refusal::NoMemory);
        };
        let is_done = size == 0 || held[size - 1] == b'\n';
        reader.consume(size);
        Ok(is_done)
    }

    /// Reads the next line into the buffer, in place of what it held: the bytes up to the next line
    /// break, with it, or those that are left. False at the end. An interrupted read is a fault and
    /// isn't retried. Takes memory for the line.
    ///
    /// `NoMemory`: memory was refused. `Read`: a read failed.
    pub fn next_line<R: BufRead>(
        &mut self,
        reader: &mut R,
        line: &mut Vec<u8>,
    ) -> Result<bool, Refusal>
        ensures some { IfOk result (λ more. more ≡ true
            → TakesLine (R.remaining reader.old) (R.remaining reader.new) line.new.items) }
        ensures end { IfOk result (λ more. more ≡ false → IsAtEnd (R.remaining reader.old)) }
        ensures named { IfErr result (IsReadFault self.new) }
        ensures steady { result ≢ Err Refusal.Read → self.new ≡ self.old }
    {
        line.clear();
        while line.len() < usize::MAX {
            match self.append(reader, line) {
                Ok(true) => return Ok(!line.is_empty()),
                Ok(false) => {}
                Err(refusal) => return Err(refusal),
            }
        }
        Err(Refusal::NoMemory)
    }
}
