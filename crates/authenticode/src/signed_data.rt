//! SignedData, up to its certificates (RFC 5652).
ghost use Rattle.std.specs.Prelude.{◌≡◌, None, Some, MatchOption};
ghost use Rattle.base.specs.Parts.{part_of};
ghost use Rattle.authenticode.specs.SignedData as spec;

use base::{Element, element};

/// Tags of elements (X.690, section 8).
const INTEGER: u8 = 0x02;

const OBJECT_IDENTIFIER: u8 = 0x06;

pub(crate) const SEQUENCE: u8 = 0x30;

const SET: u8 = 0x31;

const FIRST_OWN: u8 = 0xa0;

/// The element at the front, which must have this tag, and the bytes after it.
#[tactic(auto, unfolding(crate::specs::SignedData::tagged))]
fn element_with_tag(tag: u8, bytes: &[u8]) -> Option<(Element<'_>, &[u8])>
    ensures { MatchOption result (spec.tagged tag bytes.now ≡ None)
        (λ p. spec.tagged tag bytes.now ≡ Some (part_of p.0 p.1.now)) }
{
    let Ok((found, rest)) = element(bytes) else {
        return None;
    };
    if found.tag == tag {
        Some((found, rest))
    } else {
        None
    }
}

/// The certificates in the bytes after encapContentInfo: none unless [0] follows.
#[tactic(auto, unfolding(crate::specs::SignedData::certificate_set))]
fn certificate_set(bytes: &[u8]) -> Option<&[u8]>
    ensures { MatchOption result (spec.certificate_set bytes.now ≡ None)
        (λ b. spec.certificate_set bytes.now ≡ Some b.now) }
{
    match bytes {
        [FIRST_OWN, ..] => {
            let (found, _) = element_with_tag(FIRST_OWN, bytes)?;
            Some(found.content)
        }
        _ => Some(&[]),
    }
}

/// The certificates of a body, as a row of elements.
#[tactic(auto, unfolding(crate::specs::SignedData::certificates_of))]
pub(crate) fn certificates(body: &[u8]) -> Option<&[u8]>
    ensures { MatchOption result (spec.certificates_of body.now ≡ None)
        (λ b. spec.certificates_of body.now ≡ Some b.now) }
{
    let (info, _) = element_with_tag(SEQUENCE, body)?;
    let (_, after_type) = element_with_tag(OBJECT_IDENTIFIER, info.content)?;
    let (content, _) = element_with_tag(FIRST_OWN, after_type)?;
    let (signed, _) = element_with_tag(SEQUENCE, content.content)?;
    let (_, after_version) = element_with_tag(INTEGER, signed.content)?;
    let (_, after_digests) = element_with_tag(SET, after_version)?;
    let (_, after_info) = element_with_tag(SEQUENCE, after_digests)?;
    certificate_set(after_info)
}
