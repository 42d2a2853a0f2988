//! Kinds of signature lists.
ghost use Rattle.std.specs.Prelude.{◌≡◌};
ghost use Rattle.siglist.specs.Kinds as spec;

use base::Guid;

/// EFI_CERT_SHA256_GUID, c1c41626-504c-4092-aca9-41f936934328, as it is stored.
pub(crate) const SHA256: [u8; 16] = [
    0x26, 0x16, 0xc4, 0xc1, 0x4c, 0x50, 0x92, 0x40, 0xac, 0xa9, 0x41, 0xf9, 0x36, 0x93, 0x43, 0x28,
];

/// EFI_CERT_X509_GUID, a5c059a1-94e4-4aa7-87b5-ab155c2bf072, as it is stored.
pub(crate) const X509: [u8; 16] = [
    0xa1, 0x59, 0xc0, 0xa5, 0xe4, 0x94, 0xa7, 0x4a, 0x87, 0xb5, 0xab, 0x15, 0x5c, 0x2b, 0xf0, 0x72,
];

/// EFI_CERT_X509_SHA256_GUID, 3bd2a492-96c0-4079-b420-fcf98ef103ed, as it is stored.
pub(crate) const X509_SHA256: [u8; 16] = [
    0x92, 0xa4, 0xd2, 0x3b, 0xc0, 0x96, 0x79, 0x40, 0xb4, 0x20, 0xfc, 0xf9, 0x8e, 0xf1, 0x03, 0xed,
];

/// SignatureSize of a SHA256 list: the owner and a SHA-256 value.
pub(crate) const SHA256_SIZE: u32 = 48;

/// SignatureSize of an X509_SHA256 list: the owner, a SHA-256 value and an EFI_TIME.
pub(crate) const X509_SHA256_SIZE: u32 = 64;

/// The kind of a list's entries (UEFI 2.10, section 32.4.1).
#[derive(Clone, Copy, Debug, PartialEq, Eq)]
pub enum Kind {
    /// EFI_CERT_SHA256_GUID: a body is a SHA-256 value.
    Sha256,
    /// EFI_CERT_X509_GUID: a body is a certificate in DER.
    X509,
    /// EFI_CERT_X509_SHA256_GUID: a body is the SHA-256 of a TBSCertificate and a time of 16 bytes.
    X509Sha256,
    /// Any other type.
    Other(Guid),
}

/// The kind that a list's type names.
#[tactic(auto, unfolding(crate::specs::Kinds::kind_of))]
pub(crate) fn kind_of(guid: Guid) -> Kind
    ensures { result ≡ spec.kind_of guid }
{
    let stored = guid.as_bytes();
    if stored == SHA256.as_slice() {
        Kind::Sha256
    } else if stored == X509.as_slice() {
        Kind::X509
    } else if stored == X509_SHA256.as_slice() {
        Kind::X509Sha256
    } else {
        Kind::Other(guid)
    }
}

impl Kind {
    /// Whether lists of this kind have no header.
    pub(crate) fn is_bare(&self) -> bool
        ensures { result ≡ spec.is_bare self.now }
    {
        match self {
            Kind::Sha256 | Kind::X509 | Kind::X509Sha256 => true,
            Kind::Other(_) => false,
        }
    }

    /// Whether an entry of this kind may have this size.
    pub(crate) fn suits(&self, size: usize) -> bool
        ensures { result ≡ spec.suits self.now size }
    {
        match self {
            Kind::Sha256 => size == SHA256_SIZE as usize,
            Kind::X509 => 17 <= size,
            Kind::X509Sha256 => size == X509_SHA256_SIZE as usize,
            Kind::Other(_) => true,
        }
    }
}
