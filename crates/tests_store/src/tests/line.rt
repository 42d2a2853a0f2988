//! Answers as lines of words.
use super::*;

/// Words, separated by one space each.
#[derive(Drop)]
pub(super) struct Line {
    pub(super) text: String,
}

impl Line {
    pub(super) fn new(alloc: Global) -> Line {
        Line {
            text: String::new(alloc),
        }
    }

    /// A word, after a space unless it is the first.
    pub(super) fn put(&mut self, word: &str) -> Result<(), AllocError> {
        if !self.text.is_empty() {
            self.text.push_str(" ")?;
        }
        self.text.push_str(word)
    }

    /// A number, as a word.
    pub(super) fn number(&mut self, number: u64) -> Result<(), AllocError> {
        let mut buffer = Buffer::new();
        self.put(buffer.format(number))
    }

    /// A digest, by its first byte.
    pub(super) fn digest(&mut self, digest: &Digest) -> Result<(), AllocError> {
        let byte = digest.as_bytes().first().copied().unwrap_or(0);
        self.number(u64::from(byte))
    }
}
