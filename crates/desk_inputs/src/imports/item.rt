//! Entries of an import.
use base::Digest;
use sbat::Component;

/// One entry of an import.
#[derive(Debug, Drop)]
pub(crate) enum Item {
    /// The digest of an image.
    Digest(Digest),
    /// The SHA-256 of a certificate's TBSCertificate.
    Certificate(Digest),
    /// A component whose generation is raised.
    Component(Component),
    /// An entry that the desk skips and only counts.
    Passed,
}
