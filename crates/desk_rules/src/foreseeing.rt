//! What a Confirm of a proposal would add.
ghost use Rattle.std.specs.Prelude.{◌≡◌, ◌+◌, ◌≤◌, IfErr, IsTrue, None, Some, if◌then◌else◌, nat_le};
ghost use Rattle.desk_history.specs.Impact.{list_length as length_of_list};
ghost use Rattle.desk_rules.specs.Foreseen as spec;

use crate::decisions::confirm_another;
use crate::room::has_room;
use crate::view::{Sizes, View};
use base::Refusal;
use desk_history::{MOST_REVOKED_CERTIFICATES, MOST_REVOKED_DIGESTS};
use desk_types::{Counts, ProposalNumber};
use std::alloc::Global;

/// What a Confirm of a proposal by another officer than its proposer would add.
#[derive(Clone, Copy, Debug, PartialEq, Eq)]
pub struct Foreseen {
    /// The counts of its reply.
    pub adds: Counts,
    /// The length of dbx in bytes afterwards.
    pub dbx: u64,
}

/// The size of a table with this many more rows, if that is within its limit.
fn size_with(size: u64, more: u64, most: usize) -> Option<u64>
    ensures { result ≡ (if nat_le (size + more) most then Some (size + more) else None) }
{
    let most = most as u64;
    if most < size {
        return None;
    }
    if most - size < more {
        return None;
    }
    Some(size + more)
}

/// The length in bytes of a signature list with this many entries of this SignatureSize.
fn list_length(size: u64, entries: u64) -> u64
    requires small { size ≤ 64 }
    requires few { entries ≤ 100000 }
    ensures exact { result ≡ length_of_list size entries }
    ensures limit { result ≤ 6400028 }
{
    if entries == 0 { 0 } else { 28 + size * entries }
}

/// The length of dbx in bytes where tables of these sizes get so many more rows, if they stay
/// within their limits.
fn dbx_with(sizes: &Sizes, more: &Counts) -> Option<u64>
    ensures { result ≡ spec.dbx_with sizes.now more.now }
{
    let digests = size_with(sizes.revoked_digests, more.digests, MOST_REVOKED_DIGESTS)?;
    let certificates = size_with(
        sizes.revoked_certificates,
        more.certificates,
        MOST_REVOKED_CERTIFICATES,
    )?;
    Some(list_length(48, digests) + list_length(64, certificates))
}

/// What a Confirm of the proposal by another officer than its proposer would add now, from the rows
/// of a view for a Confirm of it. `NoSuchProposal` comes first, then `ProposalClosed`, then
/// `AlreadyRevoked`, `NotHigher` or `StampNotLater`, then `Full`. `NoMemory` may come at any time.
/// Takes memory for the rows that the Confirm would write.
pub fn foresee(alloc: Global, view: &View, number: ProposalNumber) -> Result<Foreseen, Refusal>
    ensures exact { spec.Foresees view.now number result }
    ensures only { IfErr result (λ refusal. IsTrue (spec.may_foresee refusal)) }
{
    let enforced = confirm_another(alloc, view, number)?;
    if !has_room(&view.sizes, &enforced.writes) {
        return Err(Refusal::Full);
    }
    match dbx_with(&view.sizes, &enforced.counts) {
        None => Err(Refusal::Full),
        Some(dbx) => Ok(Foreseen {
            adds: enforced.counts,
            dbx,
        }),
    }
}
