//! The certificates of one body.
ghost use Rattle.std.specs.Prelude.{◌≡◌, ◌<◌, ℕ, List, length, IfErr, IfOk, OnOk};
ghost use Rattle.sha2.specs.Sha256.{sha256};
ghost use Rattle.authenticode.specs.Steps.Adding.{IsDerOnlyWhere, AddsStep, AddsAll};
ghost use Rattle.authenticode.specs.Certificates.{GivesCertificate, IsBodyOf, IsRowOf};

use crate::fault::CarriedFault;
use crate::signed_data::{SEQUENCE, certificates};
use base::{Digest, element, tbs};
use sha2::{Digest as _, Sha256};

/// The SHA-256 of some bytes.
fn hash_of(bytes: &[u8]) -> Digest
    ensures { result ≡ sha256 bytes.now }
{
    Digest::from(Sha256::digest(bytes))
}

/// Adds the SHA-256 of the TBSCertificate of the element at the front, if it has the tag of a
/// certificate. Returns the bytes after it.
fn push_first<'a>(digests: &mut Vec<Digest>, row: &'a [u8]) -> Result<&'a [u8], CarriedFault>
    ensures ok { IfOk result (λ rest.
        AddsStep GivesCertificate row.now rest.now digests.old.items digests.new.items) }
    ensures shorter { IfOk result (λ rest. length rest.now < length row.now) }

    ensures err { IfErr result (IsDerOnlyWhere ((own : List (List ℕ)) (rest : List ℕ)
        → GivesCertificate row.now own rest → ⊥)) }
{
    let (found, rest) = element(row)?;
    if found.tag == SEQUENCE {
        let tbs = tbs(found.whole)?;
        if digests.push(hash_of(tbs)).is_err() {
            return Err(CarriedFault::NoMemory);
        }
    }
    Ok(rest)
}

/// Adds the SHA-256 of each TBSCertificate in a row of elements.
fn push_row(digests: &mut Vec<Digest>, row: &[u8]) -> Result<(), CarriedFault>
    ensures ok { OnOk result (AddsAll (IsRowOf row.now) digests.old.items digests.new.items) }

    ensures err { IfErr result (IsDerOnlyWhere ((tbs : List (List ℕ)) → IsRowOf row.now tbs → ⊥)) }
{
    let mut left = row;
    while !left.is_empty() {
        left = push_first(digests, left)?;
    }
    Ok(())
}

/// Adds the SHA-256 of each TBSCertificate in the body of an entry.
pub(crate) fn push_body(digests: &mut Vec<Digest>, body: &[u8]) -> Result<(), CarriedFault>
    ensures ok { OnOk result (AddsAll (IsBodyOf body.now) digests.old.items digests.new.items) }

    ensures err { IfErr result
        (IsDerOnlyWhere ((tbs : List (List ℕ)) → IsBodyOf body.now tbs → ⊥)) }
{
    match certificates(body) {
        None => Err(CarriedFault::Der),
        Some(row) => push_row(digests, row),
    }
}
