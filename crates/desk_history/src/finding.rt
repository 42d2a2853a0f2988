//! The desk's verdict on an image.
use sbat::Generation;

/// A component of an image whose generation is below the level's.
#[derive(Clone, Copy, Debug, PartialEq, Eq)]
pub struct Below {
    /// Its place among the image's components, from 0.
    pub place: usize,
    /// The generation that the level requires of it.
    pub needs: Generation,
}

/// The desk's verdict on an image: the first of these that holds.
#[derive(Clone, Copy, Debug, PartialEq, Eq)]
pub enum Verdict {
    /// Its digest, or the digest that a signature of it would hold, is revoked.
    DbxDigest,
    /// A certificate that it carries is revoked.
    DbxCertificate,
    /// Neither its digest nor a certificate that it carries is listed.
    NotListed,
    /// A component is below the SBAT level: the first such.
    Sbat(Below),
    /// None of these.
    Allowed,
}
