//! A writer.
use std::io;
use std::io::{ErrorKind, Write};

/// Takes this many bytes in each call, and fails once, with an error of this kind, at the given
/// call, counted from 1.
#[derive(Drop)]
pub struct Narrow {
    pub taken: Vec<u8>,
    pub most: usize,
    pub calls: u64,
    pub fails_at: u64,
    pub kind: ErrorKind,
}

impl Write for Narrow {
    fn write(&mut self, buf: &[u8]) -> io::Result<usize> {
        self.calls = self.calls.saturating_add(1);
        if self.calls == self.fails_at {
            return Err(io::Error::from(self.kind));
        }
        let count = buf.len().min(self.most);
        self.taken.extend_from_slice(&buf[..count])?;
        Ok(count)
    }

    fn flush(&mut self) -> io::Result<()> {
        Ok(())
    }
}
