//! The hashes of an image's file.
use base::Digest;

/// The hashes of an image: the SHA-256 of its file, its Authenticode digest, and the digest that a
/// signature of it holds.
#[derive(Clone, Copy, Debug, PartialEq, Eq)]
pub struct Sums {
    pub file: Digest,
    pub digest: Digest,
    pub signing: Digest,
}
