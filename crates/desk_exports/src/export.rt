//! The exports of a desk.

/// An export of a desk. The bytes of each are `exported` (specs/Exports.antt).
#[derive(Clone, Copy, Debug, PartialEq, Eq)]
pub enum Export {
    /// The listed entries, as signature lists (UEFI 2.10, section 32.4.1): one SHA256 list of the
    /// listed digests of images, or none if there is no digest, and then an X509 list for each
    /// listed certificate, ascending by their digests.
    Db,
    /// The revoked entries, as signature lists (UEFI 2.10, section 32.4.1): one SHA256 list of the
    /// revoked digests of images, and one X509_SHA256 list of the revoked certificates, each
    /// ascending; a kind without entries has no list.
    Dbx,
    /// The revoked entries, as shim reads them: it passes over X509_SHA256 lists. One SHA256 list of
    /// the revoked digests of images; for each revoked certificate, ascending by their digests, an
    /// X509 list of each body that some ListCertificate gave, unlisted since or not, once, in the
    /// order of the calls; one X509_SHA256 list of the revoked certificates of which no call gave a
    /// body. A kind without entries has no list.
    Shim,
    /// The SBAT level, as text (shim's SBAT.md): `sbat,1,` and its stamp, then a line for each
    /// component, ascending by name.
    Level,
    /// The minutes, as text: a line for each accepted call, the first call first, with its number,
    /// caller, key, text and reply, separated by tabs and ended by LF.
    Minutes,
}
