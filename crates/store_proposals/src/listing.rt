//! All proposals, each with the counts of its items.
ghost use Rattle.std.specs.Prelude.{◌≡◌};
ghost use Rattle.store_reads.specs.Reads.{ReadsTables};
ghost use Rattle.store_sql.specs.States.{DoesInside, CommitsNothing, Spares, StaysInside};
ghost use Rattle.store_proposals.specs.Listing as spec;

use crate::reading::proposal_of;
use desk_history::ProposalRow;
use desk_types::{Proposal, ProposalKind, ProposalNumber};
use sqlite::{Alter, Transaction};
use std::alloc::Global;
use store_reads::{ProposalHead, ReadFault, heads_all};

/// How many entries of each kind a proposal names.
#[derive(Clone, Copy, Debug, PartialEq, Eq)]
struct EntryCounts {
    digests: u64,
    certificates: u64,
    components: u64,
}

/// The entries that a proposal of this kind names, where the kind tells: one, unless it is an
/// import.
fn counts_by(kind: ProposalKind) -> Option<EntryCounts>
    ensures { result ≡ spec.counts_by kind }
{
    let (digests, certificates, components) = match kind {
        ProposalKind::Digest => (1, 0, 0),
        ProposalKind::Certificate => (0, 1, 0),
        ProposalKind::Level => (0, 0, 1),
        ProposalKind::Import => return None,
    };
    Some(EntryCounts {
        digests,
        certificates,
        components,
    })
}

/// The proposal, as it is shown.
fn shown_row(row: ProposalRow) -> Proposal
    ensures { result ≡ spec.shown_row row }
{
    let digests = row.named.digests().as_slice().len() as u64;
    let certificates = row.named.certificates().as_slice().len() as u64;
    let components = row.named.components().as_slice().len() as u64;
    Proposal {
        number: row.number,
        officer: row.officer,
        state: row.state,
        digests,
        certificates,
        components,
    }
}

/// The proposal of the number, as it is shown, with its items counted.
fn shown_with_counts<S: Alter>(
    alloc: Global,
    tx: &mut Transaction<'_, S>,
    number: ProposalNumber,
) -> Result<Proposal, ReadFault>
    ensures same_reference { tx.new.conn.ghost_name ≡ tx.old.conn.ghost_name }
    ensures value { DoesInside S.Store tx.old.conn.now tx.new.conn.now result
        (λ shown. ReadsTables (spec.IsCounted number shown)) }
    ensures kept { CommitsNothing S.Store tx.old.conn.now tx.new.conn.now }
    ensures survives { Spares S.Store tx.old.conn.now tx.new.conn.now }
{
    let Some(row) = proposal_of(alloc, tx, number)? else {
        return Err(ReadFault::Row);
    };
    Ok(shown_row(row))
}

/// The proposal of the head, as it is shown. Its items are read only where its kind doesn't tell
/// how many it names.
pub(crate) fn shown_of<S: Alter>(
    alloc: Global,
    tx: &mut Transaction<'_, S>,
    head: ProposalHead,
) -> Result<Proposal, ReadFault>
    ensures same_reference { tx.new.conn.ghost_name ≡ tx.old.conn.ghost_name }
    ensures value { DoesInside S.Store tx.old.conn.now tx.new.conn.now result
        (λ shown. ReadsTables (spec.IsTold head shown)) }
    ensures kept { CommitsNothing S.Store tx.old.conn.now tx.new.conn.now }
    ensures survives { Spares S.Store tx.old.conn.now tx.new.conn.now }
{
    let Some(counts) = counts_by(head.kind) else {
        let shown = shown_with_counts(alloc, tx, head.number)?;
        return Ok(shown);
    };
    Ok(Proposal {
        number: head.number,
        officer: head.officer,
        state: head.state,
        digests: counts.digests,
        certificates: counts.certificates,
        components: counts.components,
    })
}

/// The proposals of the heads, as they are shown, in order.
fn all_of<S: Alter>(
    alloc: Global,
    tx: &mut Transaction<'_, S>,
    heads: Vec<ProposalHead>,
) -> Result<Vec<Proposal>, ReadFault>
    ensures same_reference { tx.new.conn.ghost_name ≡ tx.old.conn.ghost_name }
    ensures value { DoesInside S.Store tx.old.conn.now tx.new.conn.now result
        (λ shown. ReadsTables (spec.AreTold heads.items shown.items)) }
    ensures kept { CommitsNothing S.Store tx.old.conn.now tx.new.conn.now }
    ensures survives { Spares S.Store tx.old.conn.now tx.new.conn.now }
{
    let mut all = Vec::new(alloc);
    for head in heads {
        let shown = shown_of(alloc, tx, head)?;
        if all.push(shown).is_err() {
            return Err(ReadFault::NoMemory);
        }
    }
    Ok(all)
}

/// All proposals, by number, each with the counts of its items. Items are read of imports alone:
/// any other proposal names one entry, of its kind. Takes memory for the heads, and for all items
/// of one import at a time.
///
/// `Row`: their rows aren't those that the desk writes.
pub fn proposals<S: Alter>(
    alloc: Global,
    tx: &mut Transaction<'_, S>,
) -> Result<Vec<Proposal>, ReadFault>
    ensures same_reference { tx.new.conn.ghost_name ≡ tx.old.conn.ghost_name }
    ensures value { DoesInside S.Store tx.old.conn.now tx.new.conn.now result
        (λ shown. ReadsTables (spec.AreListed shown.items)) }
    ensures inside { StaysInside S.Store tx.old.conn.now tx.new.conn.now result }
    ensures kept { CommitsNothing S.Store tx.old.conn.now tx.new.conn.now }
    ensures survives { Spares S.Store tx.old.conn.now tx.new.conn.now }
{
    let heads = heads_all(alloc, tx)?;
    let shown = all_of(alloc, tx, heads)?;
    Ok(shown)
}
