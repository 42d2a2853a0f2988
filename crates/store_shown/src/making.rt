//! A request as it is shown, made from its row and its other rows.
ghost use Rattle.std.specs.Prelude.{◌≡◌, ◌++◌, ◌∷◌, [], IfOk, OnOk, map, option_map};
ghost use Rattle.std.specs.List.Sorted.{IsPermutation};
ghost use Rattle.base.specs.Digests.{IsArranged};
ghost use Rattle.desk_types.specs.Shown.{AreByReviewer};
ghost use Rattle.desk_history.specs.Shown.{shown_vote};
ghost use Rattle.desk_history.specs.Tables.{placed_from};
ghost use Rattle.store_shown.specs.Steps.{IsMadeOf, digests_of, shown_row};

use crate::parts::Parts;
use base::Digest;
use desk_history::{RequestCertificateRow, RequestComponentRow, RequestRow, ReturnRow, VoteRow};
use desk_types::{Carried, Facts, RequestNumber, ShownRequest, ShownReturn, ShownVote, ShownVotes};
use pe_image::Extent;
use sbat::{Component, Components};
use std::alloc::Global;
use store_reads::ReadFault;

/// Appends an item.
pub(crate) fn push<T: Drop>(items: &mut Vec<T>, item: T) -> Result<(), ReadFault>
    ensures { OnOk result (items.new.items ≡ items.old.items ++ item ∷ []) }
{
    if items.push(item).is_err() {
        return Err(ReadFault::NoMemory);
    }
    Ok(())
}

/// The digests of the rows.
fn digests_in(alloc: Global, rows: &[RequestCertificateRow]) -> Result<Vec<Digest>, ReadFault>
    ensures { IfOk result (λ digests. digests.items ≡ digests_of rows.now) }
{
    let mut digests = Vec::new(alloc);
    for row in rows {
        push(&mut digests, row.digest)?;
    }
    Ok(digests)
}

/// The certificates of the rows. `Row`: they are more than an image may carry.
fn carried_in(alloc: Global, rows: &[RequestCertificateRow]) -> Result<Carried, ReadFault>
    ensures { IfOk result (λ carried. IsArranged (digests_of rows.now) carried) }
{
    let digests = digests_in(alloc, rows)?;
    match Carried::new(digests) {
        Some(carried) => Ok(carried),
        None => Err(ReadFault::Row),
    }
}

/// The component of the row. `Row`: the row is another request's, or of another place.
fn component_in(
    row: RequestComponentRow,
    request: RequestNumber,
    place: u64,
) -> Result<Component, ReadFault>
    ensures { IfOk result (λ x. row
        ≡ record { request = request; place = place; name = x.name; generation = x.generation }) }
{
    if row.request != request || row.place != place {
        return Err(ReadFault::Row);
    }
    Ok(Component {
        name: row.name,
        generation: row.generation,
    })
}

/// The components of the rows. `Row`: a row is another request's, or their places aren't those from
/// 0 on.
fn placed_in(
    alloc: Global,
    rows: Vec<RequestComponentRow>,
    request: RequestNumber,
) -> Result<Vec<Component>, ReadFault>
    ensures { IfOk result (λ components. rows.items ≡ placed_from request 0 components.items) }
{
    let mut components: Vec<Component> = Vec::new(alloc);
    for row in rows {
        let place = components.len() as u64;
        let component = component_in(row, request, place)?;
        push(&mut components, component)?;
    }
    Ok(components)
}

/// The components of a request's image. `Row`: the rows aren't the request's, in their places from
/// 0 on, or there are more than an image may name.
fn components_in(
    alloc: Global,
    rows: Vec<RequestComponentRow>,
    request: RequestNumber,
) -> Result<Components, ReadFault>
    ensures { IfOk result (λ components. rows.items ≡ placed_from request 0 components) }
{
    let components = placed_in(alloc, rows, request)?;
    match Components::new(components) {
        Some(components) => Ok(components),
        None => Err(ReadFault::Row),
    }
}

/// The vote of the row.
fn vote_in(row: VoteRow) -> ShownVote
    ensures { result ≡ shown_vote row }
{
    ShownVote {
        reviewer: row.reviewer,
        vote: row.vote,
        note: row.note,
    }
}

/// The votes of the rows, in the order of their reviewers.
fn votes_in(alloc: Global, rows: Vec<VoteRow>) -> Result<ShownVotes, ReadFault>
    ensures all { IfOk result (λ votes. IsPermutation (map shown_vote rows.items) votes) }
    ensures order { IfOk result (λ votes. AreByReviewer votes) }
{
    let mut votes = Vec::new(alloc);
    for row in rows {
        push(&mut votes, vote_in(row))?;
    }
    Ok(ShownVotes::new(votes))
}

/// The returned file of the row, if there is one.
fn returned_in(row: Option<ReturnRow>) -> Option<ShownReturn>
    ensures { result ≡ option_map shown_row row }
{
    match row {
        Some(row) => Some(ShownReturn {
            length: row.length,
            file: row.file,
            digest: row.digest,
        }),
        None => None,
    }
}

/// The facts of a request's image. `Row`: they aren't those of an image that a desk accepts.
fn facts_in(
    alloc: Global,
    row: &RequestRow,
    certificates: &[RequestCertificateRow],
    components: Vec<RequestComponentRow>,
) -> Result<Facts, ReadFault>
    ensures extent { IfOk result (λ facts. facts.extent
        ≡ record { length = row.now.length; gap = row.now.gap }) }
    ensures file { IfOk result (λ facts. facts.file ≡ row.now.file) }
    ensures digest { IfOk result (λ facts. facts.digest ≡ row.now.digest) }
    ensures signing { IfOk result (λ facts. facts.signing ≡ row.now.signing) }
    ensures carried { IfOk result (λ facts.
        IsArranged (digests_of certificates.now) facts.carried) }
    ensures components { IfOk result (λ facts.
        components.items ≡ placed_from row.now.number 0 facts.components) }
{
    let Some(extent) = Extent::new(row.length, row.gap) else {
        return Err(ReadFault::Row);
    };
    let carried = carried_in(alloc, certificates)?;
    let components = components_in(alloc, components, row.number)?;
    Ok(Facts {
        extent,
        file: row.file,
        digest: row.digest,
        signing: row.signing,
        carried,
        components,
    })
}

/// The request as it is shown. `Row`: its rows aren't those that a desk writes.
pub(crate) fn made_of(
    alloc: Global,
    row: RequestRow,
    parts: Parts,
) -> Result<ShownRequest, ReadFault>
    ensures { IfOk result (λ s. IsMadeOf row parts s) }
{
    let Parts {
        certificates,
        components,
        votes,
        returned,
    } = parts;
    let facts = facts_in(alloc, &row, &certificates, components)?;
    let votes = votes_in(alloc, votes)?;
    Ok(ShownRequest {
        number: row.number,
        submitter: row.submitter,
        title: row.title,
        facts,
        state: row.state,
        votes,
        returned: returned_in(returned),
    })
}
