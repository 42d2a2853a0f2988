//! The digests, certificates and components in rows of items.
ghost use Rattle.std.specs.Prelude.{◌≡◌, IfOk};
ghost use Rattle.store_proposals.specs.Reading.{IsStampOf};

use base::Digest;
use desk_history::{ProposalItem, ProposalItemRow};
use desk_types::{Digests, Import, ImportedComponents};
use sbat::{Component, Stamp};
use std::alloc::Global;
use store_reads::{ProposalHead, ReadFault};

/// Items by kind.
#[derive(Drop)]
struct Parts {
    digests: Vec<Digest>,
    certificates: Vec<Digest>,
    components: Vec<Component>,
}

/// The items of the rows by kind, each in the order of the rows. Takes memory for them.
fn parts_of(alloc: Global, rows: &[ProposalItemRow]) -> Result<Parts, ReadFault> {
    let mut digests = Vec::new(alloc);
    let mut certificates = Vec::new(alloc);
    let mut components = Vec::new(alloc);
    for row in rows {
        let pushed = match &row.item {
            ProposalItem::Digest(digest) => digests.push(*digest).is_ok(),
            ProposalItem::Certificate(digest) => certificates.push(*digest).is_ok(),
            ProposalItem::Component(component) => match component.clone() {
                Ok(copy) => components.push(copy).is_ok(),
                Err(_) => false,
            },
        };
        if !pushed {
            return Err(ReadFault::NoMemory);
        }
    }
    Ok(Parts {
        digests,
        certificates,
        components,
    })
}

/// The stamp of that number, or none for 0. `Row`: the number isn't a stamp's.
fn stamp_of(number: u64) -> Result<Option<Stamp>, ReadFault>
    ensures { IfOk result (λ stamp. IsStampOf number stamp) }
{
    if number == 0 {
        return Ok(None);
    }
    match Stamp::new(number) {
        Some(stamp) => Ok(Some(stamp)),
        None => Err(ReadFault::Row),
    }
}

/// The import of the rows' items, with the stamp and the count of the proposal's own row. Takes
/// memory for it.
///
/// `Row`: there are more items than an import may have, a component is named `sbat`, or the stamp
/// isn't in its form.
pub(crate) fn named_of(
    alloc: Global,
    head: &ProposalHead,
    rows: &[ProposalItemRow],
) -> Result<Import, ReadFault>
    ensures stamp { IfOk result (λ named. IsStampOf head.now.stamp named.stamp) }
    ensures passed { IfOk result (λ named. named.passed ≡ head.now.passed) }
{
    let Parts {
        digests,
        certificates,
        components,
    } = parts_of(alloc, rows)?;
    let stamp = stamp_of(head.stamp)?;
    let Some(digests) = Digests::new(digests) else {
        return Err(ReadFault::Row);
    };
    let Some(certificates) = Digests::new(certificates) else {
        return Err(ReadFault::Row);
    };
    let Some(components) = ImportedComponents::new(components) else {
        return Err(ReadFault::Row);
    };
    match Import::new(stamp, head.passed, digests, certificates, components) {
        Some(named) => Ok(named),
        None => Err(ReadFault::Row),
    }
}
