//! Rows of items, compared with those of a proposal's items.
ghost use Rattle.std.specs.Prelude.{◌≡◌, Some, length, slice_get, true};
ghost use Rattle.desk_history.specs.Items.{items_from, items_of};

use desk_history::{ProposalItem, ProposalItemRow};
use desk_types::{Import, ProposalNumber};

/// Whether the item is the one at this place; places count digests, then certificates, then
/// components.
fn is_item(named: &Import, place: usize, item: &ProposalItem) -> bool
    ensures { result ≡ true → slice_get (items_of named.now) place ≡ Some item.now }
{
    let digests = named.digests().as_slice();
    let certificates = named.certificates().as_slice();
    let components = named.components().as_slice();
    if place < digests.len() {
        return match item {
            ProposalItem::Digest(digest) => digests[place] == *digest,
            ProposalItem::Certificate(_) => false,
            ProposalItem::Component(_) => false,
        };
    }
    let later = place - digests.len();
    if later < certificates.len() {
        return match item {
            ProposalItem::Certificate(digest) => certificates[later] == *digest,
            ProposalItem::Digest(_) => false,
            ProposalItem::Component(_) => false,
        };
    }
    let last = later - certificates.len();
    if last < components.len() {
        return match item {
            ProposalItem::Component(component) => components[last] == *component,
            ProposalItem::Digest(_) => false,
            ProposalItem::Certificate(_) => false,
        };
    }
    false
}

/// Whether the row is the one at this place of the proposal's items.
fn is_row(proposal: ProposalNumber, named: &Import, place: usize, row: &ProposalItemRow) -> bool
    ensures proposal { result ≡ true → row.now.proposal ≡ proposal }
    ensures place { result ≡ true → row.now.place ≡ place }
    ensures item { result ≡ true → slice_get (items_of named.now) place ≡ Some row.now.item }
{
    if row.proposal != proposal {
        return false;
    }
    if row.place != place as u64 {
        return false;
    }
    is_item(named, place, &row.item)
}

/// The number of items of the import.
fn count_of(named: &Import) -> usize
    ensures { result ≡ length (items_of named.now) }
{
    named.digests().as_slice().len()
        + named.certificates().as_slice().len()
        + named.components().as_slice().len()
}

/// Whether the rows are those of the proposal's items.
pub(crate) fn are_items(proposal: ProposalNumber, named: &Import, rows: &[ProposalItemRow]) -> bool
    ensures { result ≡ true → rows.now ≡ items_from proposal 0 (items_of named.now) }
{
    if rows.len() != count_of(named) {
        return false;
    }
    let mut place = 0;
    while place < rows.len() {
        if !is_row(proposal, named, place, &rows[place]) {
            return false;
        }
        place += 1;
    }
    true
}
