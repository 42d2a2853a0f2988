//! Kinds of listed things.

/// A kind of entry of the list of allowed images.
#[derive(Clone, Copy, Debug, PartialEq, Eq)]
pub enum ListedKind {
    /// An image's digest.
    Digest,
    /// A certificate, by the digest of its TBSCertificate.
    Certificate,
}
