//! Preconditions of commands: the entity tag that If-Match gives.
ghost use Rattle.std.specs.Prelude.{◌≡◌};
ghost use Rattle.http_requests.specs.Asked.{Gives};
ghost use Rattle.http_requests.specs.Tags as spec;
ghost use Rattle.http_requests.specs.CheckedHead as want;
ghost use Rattle.http_requests.specs.heads.Fields.{occurrence};

use crate::{AskedFault, CheckedHead, CommandRoute, Given, ImageRoute, PostRoute};
use base::Digest;

/// Whether If-Match counts at the route.
fn is_conditional(route: PostRoute) -> bool
    ensures { result ≡ spec.is_conditional route }
{
    match route {
        PostRoute::Image(ImageRoute::Return)
        | PostRoute::Command(
            CommandRoute::Review
            | CommandRoute::Withdraw
            | CommandRoute::Confirm
            | CommandRoute::Drop
            | CommandRoute::Explain,
        ) => true,
        PostRoute::Image(ImageRoute::Submit | ImageRoute::Verdict | ImageRoute::Facts)
        | PostRoute::Command(
            CommandRoute::ListCertificate
            | CommandRoute::ListDigest
            | CommandRoute::Unlist
            | CommandRoute::RevokeDigest
            | CommandRoute::RevokeCertificate
            | CommandRoute::RaiseLevel
            | CommandRoute::ImportDbx
            | CommandRoute::ImportCsv
            | CommandRoute::ImportLevel,
        ) => false,
    }
}

/// The entity tag of a digest.
#[tactic(auto, unfolding(crate::specs::Tags::entity_tag))]
fn entity_tag(digest: &Digest) -> [u8; 66]
    ensures { result ≡ spec.entity_tag digest.now }
{
    let mut tag = [b'"'; 66];
    tag[1..65].copy_from_slice(&digest.text());
    tag
}

/// The digest whose entity tag the text is.
#[tactic(auto, unfolding(crate::specs::Tags::digest_in_tag))]
fn digest_in_tag(text: &[u8]) -> Option<Digest>
    ensures { result ≡ spec.digest_in_tag text.now }
{
    if text.len() < 65 {
        return None;
    }
    match Digest::parse(&text[1..65]) {
        Ok(digest) if text == entity_tag(&digest).as_slice() => Some(digest),
        Ok(_) | Err(_) => None,
    }
}

/// The digest that the field gives, which may be missing.
fn tag_given(given: Given<'_>) -> Result<Option<Digest>, AskedFault>
    ensures { Gives (spec.tag_given (occurrence given.entry)) result }
{
    match given {
        Given::Missing => Ok(None),
        Given::Once(text) => match digest_in_tag(text) {
            Some(digest) => Ok(Some(digest)),
            None => Err(AskedFault::BadField),
        },
        Given::Repeated => Err(AskedFault::BadField),
    }
}

/// The digest of If-Match at a route that takes this field, if the request has it, or BadField if
/// the field isn't exactly one entity tag: 64 hexadecimal digits in lower case between double
/// quotes. At other routes the field has no effect. Takes no memory.
pub fn tag_asked(route: PostRoute, wanted: &CheckedHead<'_>) -> Result<Option<Digest>, AskedFault>
    ensures { Gives (spec.tag_at route (want.shown wanted.now)) result }
{
    if is_conditional(route) {
        tag_given(wanted.if_match)
    } else {
        Ok(None)
    }
}
