//! A reader.
use std::io;
use std::io::Read;

/// Gives this many of its bytes in each call, and fails once, at the given call, counted from 1.
#[derive(Drop)]
pub struct Slow<'a> {
    pub rest: &'a [u8],
    pub most: usize,
    pub calls: u64,
    pub fails_at: u64,
}

impl Read for Slow<'_> {
    fn read(&mut self, buf: &mut [u8]) -> io::Result<usize> {
        self.calls = self.calls.saturating_add(1);
        if self.calls == self.fails_at {
            return Err(io::Error::from(io::ErrorKind::Interrupted));
        }
        let count = buf.len().min(self.most).min(self.rest.len());
        let (given, rest) = self.rest.split_at(count);
        buf[..count].copy_from_slice(given);
        self.rest = rest;
        Ok(count)
    }
}
