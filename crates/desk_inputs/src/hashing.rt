//! SHA-256 (FIPS 180-4) of bytes in memory.
ghost use Rattle.std.specs.Prelude.{◌≡◌};
ghost use Rattle.sha2.specs.Sha256.{sha256};

use base::Digest;
use sha2::{Digest as _, Sha256};

/// The SHA-256 of some bytes.
pub(crate) fn hash_of(bytes: &[u8]) -> Digest
    ensures { result ≡ sha256 bytes.now }
{
    Digest::from(Sha256::digest(bytes))
}
