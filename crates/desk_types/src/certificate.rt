//! Certificates that are listed whole.
ghost use Rattle.std.specs.Prelude.{◌≡◌, MatchOption, false, length, true};
ghost use Rattle.desk_types.specs.Certificates.{WholeCertificate, is_certificate_size};

use base::Digest;
use std::alloc::AllocError;
use std::marker::Model;

/// The most bytes of a listed certificate.
pub const LONGEST_CERTIFICATE: usize = 65_536;

/// A certificate of 1 to `LONGEST_CERTIFICATE` bytes with the SHA-256 of its TBSCertificate, both
/// as given.
#[derive(Debug, Drop)]
pub struct Certificate {
    body: Vec<u8>,
    tbs: Digest,
}

impl Model for Certificate {
    ghost use Rattle.std.specs.Prelude.{◌≡◌, length, true};
    ghost use Rattle.desk_types.specs.Certificates.{WholeCertificate, is_certificate_size};

    ghost Value = { WholeCertificate };

    ghost view = { λ c. record { body = c.body.items; tbs = c.tbs } };

    ghost invariant = { λ c. is_certificate_size (length c.body.items) ≡ true };
}

impl Certificate {
    /// The two, or `None` if the certificate is empty or has more than `LONGEST_CERTIFICATE` bytes.
    pub fn new(body: Vec<u8>, tbs: Digest) -> Option<Certificate>
        ensures { MatchOption result (is_certificate_size (length body.items) ≡ false)
            (λ certificate. certificate ≡ record { body = body.items; tbs = tbs }) }
    {
        if body.is_empty() || LONGEST_CERTIFICATE < body.len() {
            return None;
        }
        Some(Certificate { body, tbs })
    }

    /// The bytes of the certificate.
    pub fn body(&self) -> &[u8]
        ensures value { result.now ≡ self.now.body }
        ensures form { is_certificate_size (length self.now.body) ≡ true }
    {
        &self.body
    }

    /// The SHA-256 of its TBSCertificate.
    pub fn tbs(&self) -> Digest
        ensures { result ≡ self.now.tbs }
    {
        self.tbs
    }
}

impl Clone for Certificate {
    ghost is_clone = { λ certificate copy. copy ≡ certificate };

    /// A copy. Takes memory for its bytes.
    fn clone(&self) -> Result<Certificate, AllocError> {
        let body = self.body.clone()?;
        Ok(Certificate {
            body,
            tbs: self.tbs,
        })
    }
}
