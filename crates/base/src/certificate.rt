//! Certificates, as far as their TBSCertificate (RFC 5280, section 4.1).
ghost use Rattle.std.specs.Prelude.{ℕ, List, IfOk, OnErr};
ghost use Rattle.base.specs.Elements.{IsCertificate};

use crate::der::NotDer;
use crate::elements::element;

/// The tag of a SEQUENCE.
const SEQUENCE: u8 = 0x30;

/// The TBSCertificate of a certificate, tag and length included. The bytes have to be one
/// certificate and nothing more; all that follows its TBSCertificate is opaque.
pub fn tbs(bytes: &[u8]) -> Result<&[u8], NotDer>
    ensures found { IfOk result (λ tbs. IsCertificate bytes.now tbs.now) }

    ensures only { OnErr result ((tbs : List ℕ) → IsCertificate bytes.now tbs → ⊥) }
{
    let Ok((outer, rest)) = element(bytes) else {
        return Err(NotDer);
    };
    if outer.tag != SEQUENCE {
        return Err(NotDer);
    }
    if !rest.is_empty() {
        return Err(NotDer);
    }
    let Ok((first, _)) = element(outer.content) else {
        return Err(NotDer);
    };
    if first.tag != SEQUENCE {
        return Err(NotDer);
    }
    Ok(first.whole)
}
