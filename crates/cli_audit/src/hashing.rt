//! A writer that hashes what it is given, and keeps none of it.
ghost use Rattle.std.specs.Prelude.{◌≡◌, [], Ok, Some, length};
ghost use Rattle.std.specs.Io.{WritesAtMost};
ghost use Rattle.std.specs.Io.KnownBytes.{WriteAppends};
ghost use Rattle.sha2.specs.Hashers.{Holds256};
ghost use Rattle.sha2.specs.Sha256.{sha256};

use crate::fed::Fed;
use base::Digest;
use sha2::{Digest as _, Sha256};
use std::io;
use std::io::Write;

/// A writer whose contents are the bytes that its hasher was fed. It takes no memory for them.
#[derive(Drop)]
pub(crate) struct Hashing {
    hasher: Sha256,
    pub fed: Fed,
    ghost holds: { ∥ Holds256 hasher fed.bytes ∥₁ },
}

impl Hashing {
    /// A writer of no bytes.
    pub(crate) fn new() -> Hashing
        ensures { result.fed.bytes ≡ [] }
    {
        Hashing {
            hasher: Sha256::new(),
            fed: Fed::nothing(),
        }
    }

    /// The SHA-256 of all that was written.
    pub(crate) fn digest(self) -> Digest
        ensures { result ≡ sha256 self.fed.bytes }
    {
        let Hashing { hasher, fed: _ } = self;
        Digest::from(hasher.finalize())
    }
}

impl Write for Hashing {
    ghost contents = { λ hashing. Some hashing.fed.bytes };

    /// Takes all of the bytes.
    fn write(&mut self, bytes: &[u8]) -> io::Result<usize>
        ensures bound { WritesAtMost result bytes.now }
        ensures bytes { WriteAppends (Some self.old.fed.bytes) (Some self.new.fed.bytes) result
            bytes.now }
        ensures all { result ≡ Ok (length bytes.now) }
    {
        self.hasher.update(bytes);
        self.fed = Fed::and(&self.fed, bytes);
        Ok(bytes.len())
    }

    /// Does nothing: no byte is held back.
    fn flush(&mut self) -> io::Result<()> {
        Ok(())
    }
}
