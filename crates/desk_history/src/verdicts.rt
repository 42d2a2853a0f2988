//! Verdicts on images.
ghost use Rattle.std.specs.Prelude.{◌≡◌};
ghost use Rattle.std.specs.List.{list_any};
ghost use Rattle.desk_history.specs.Verdicts as spec;

use crate::finding::{Below, Verdict};
use crate::standing::Standing;
use base::Digest;
use desk_types::{Facts, ListedKind};
use sbat::{Component, Generation};

/// True if the image's digest, or the one that a signature of it would hold, is revoked.
pub(crate) fn has_revoked_digest<S: Standing>(lists: &S, facts: &Facts) -> bool
    ensures { result ≡ spec.has_revoked_digest (S.standing lists.now) facts.now }
{
    lists.is_revoked(ListedKind::Digest, facts.digest)
        || lists.is_revoked(ListedKind::Digest, facts.signing)
}

/// True if one of the certificates is revoked.
pub(crate) fn has_revoked<S: Standing>(lists: &S, certificates: &[Digest]) -> bool
    ensures { result
        ≡ list_any ((S.standing lists.now).revoked ListedKind.Certificate) certificates.now }
{
    for certificate in certificates {
        if lists.is_revoked(ListedKind::Certificate, *certificate) {
            return true;
        }
    }
    false
}

/// True if one of the certificates is listed.
fn has_listed<S: Standing>(lists: &S, certificates: &[Digest]) -> bool
    ensures { result
        ≡ list_any ((S.standing lists.now).listed ListedKind.Certificate) certificates.now }
{
    for certificate in certificates {
        if lists.is_listed(ListedKind::Certificate, *certificate) {
            return true;
        }
    }
    false
}

/// True if the image's digest or a certificate that it carries is listed.
pub fn lists_image<S: Standing>(lists: &S, facts: &Facts) -> bool
    ensures { result ≡ spec.lists_image (S.standing lists.now) facts.now }
{
    lists.is_listed(ListedKind::Digest, facts.digest) || has_listed(lists, facts.carried.as_slice())
}

/// The component at this place, if its generation is below the one that is required.
fn lack_at(place: usize, generation: Generation, asked: Option<Generation>) -> Option<Below>
    ensures { result ≡ spec.lack_at place generation asked }
{
    match asked {
        None => None,
        Some(needs) => {
            if generation.value() < needs.value() {
                Some(Below { place, needs })
            } else {
                None
            }
        }
    }
}

/// The first component below the level.
fn first_below<S: Standing>(lists: &S, components: &[Component]) -> Option<Below>
    ensures { result ≡ spec.first_below (S.standing lists.now) 0 components.now }
{
    for place in 0..components.len() {
        let component = &components[place];
        if let Some(below) = lack_at(
            place,
            component.generation,
            lists.required_generation(&component.name),
        ) {
            return Some(below);
        }
    }
    None
}

/// True if the image is barred.
pub fn bars<S: Standing>(lists: &S, facts: &Facts) -> bool
    ensures { result ≡ spec.bars (S.standing lists.now) facts.now }
{
    has_revoked_digest(lists, facts)
        || has_revoked(lists, facts.carried.as_slice())
        || has_below(lists, facts.components.as_slice())
}

/// True if the generation is below the required one, if there is one.
fn is_less(generation: Generation, asked: Option<Generation>) -> bool
    ensures { result ≡ spec.is_less generation asked }
{
    match asked {
        None => false,
        Some(needs) => generation.value() < needs.value(),
    }
}

/// True if a component is below the level.
fn has_below<S: Standing>(lists: &S, components: &[Component]) -> bool
    ensures { result ≡ list_any (spec.is_below (S.standing lists.now)) components.now }
{
    for component in components {
        if is_less(
            component.generation,
            lists.required_generation(&component.name),
        ) {
            return true;
        }
    }
    false
}

/// The verdict on the image.
pub fn verdict_of<S: Standing>(lists: &S, facts: &Facts) -> Verdict
    ensures { result ≡ spec.verdict_on (S.standing lists.now) facts.now }
{
    if has_revoked_digest(lists, facts) {
        return Verdict::DbxDigest;
    }
    if has_revoked(lists, facts.carried.as_slice()) {
        return Verdict::DbxCertificate;
    }
    if !lists_image(lists, facts) {
        return Verdict::NotListed;
    }
    match first_below(lists, facts.components.as_slice()) {
        Some(below) => Verdict::Sbat(below),
        None => Verdict::Allowed,
    }
}
