//! The list of allowed images.
ghost use Rattle.std.specs.Prelude.{[], ◌∷◌, not};
ghost use Rattle.desk_history.specs.Refusals.{refuse_if};
ghost use Rattle.desk_history.specs.declared.write.Write.TheVariants as puts;
ghost use Rattle.desk_rules.specs.DecisionSteps.{Decided};
ghost use Rattle.desk_rules.specs.Views.{seen_standing};

use super::one_write;
use crate::rows::{certificate_entry, digest_entry};
use crate::view::{Changes, View};
use base::{Digest, Refusal};
use desk_history::{Standing, Write};
use desk_types::{Certificate, ListedKind, Listing, Reply};
use std::alloc::Global;

/// Lists the image of this digest.
pub(crate) fn list_digest(alloc: Global, view: &View, digest: Digest) -> Result<Changes, Refusal>
    ensures { Decided result
        (refuse_if ((seen_standing view.now.lists).listed ListedKind.Digest digest)
        Refusal.AlreadyListed)
        Reply.Listed
        (puts.List (record { kind = ListedKind.Digest; digest = digest; body = [] }) ∷ []) }
{
    if view.lists.is_listed(ListedKind::Digest, digest) {
        return Err(Refusal::AlreadyListed);
    }
    let entry = digest_entry(alloc, digest);
    one_write(alloc, Reply::Listed, Write::List(entry))
}

/// Lists the certificate.
pub(crate) fn list_certificate(
    alloc: Global,
    view: &View,
    certificate: &Certificate,
) -> Result<Changes, Refusal>
    ensures { Decided result
        (refuse_if
        ((seen_standing view.now.lists).listed ListedKind.Certificate certificate.now.tbs)
        Refusal.AlreadyListed)
        Reply.Listed
        (puts.List (record {
          kind = ListedKind.Certificate;
          digest = certificate.now.tbs;
          body = certificate.now.body;
        }) ∷ []) }
{
    if view
        .lists
        .is_listed(ListedKind::Certificate, certificate.tbs())
    {
        return Err(Refusal::AlreadyListed);
    }
    let entry = certificate_entry(alloc, certificate)?;
    one_write(alloc, Reply::Listed, Write::List(entry))
}

/// Takes the entry off the list.
pub(crate) fn unlist(alloc: Global, view: &View, listing: Listing) -> Result<Changes, Refusal>
    ensures { Decided result
        (refuse_if (not ((seen_standing view.now.lists).listed listing.kind listing.digest))
        Refusal.NotThere)
        Reply.Unlisted (puts.Unlist listing ∷ []) }
{
    if !view.lists.is_listed(listing.kind, listing.digest) {
        return Err(Refusal::NotThere);
    }
    one_write(alloc, Reply::Unlisted, Write::Unlist(listing))
}
