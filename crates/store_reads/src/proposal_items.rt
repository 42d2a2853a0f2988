//! Items of proposals. Columns that an item's kind doesn't have must be empty.
ghost use Rattle.std.specs.Prelude.{◌≡◌, [], IfOk, OnOk, pos};
ghost use Rattle.sqlite.specs.declared.types.Value.TheVariants.{Blob, Int, Text};
ghost use Rattle.sqlite_value.specs.Order.{column};
ghost use Rattle.store_schema.specs.rows.Values.{item_digest, item_generation, item_kind, item_name, item_values};
ghost use Rattle.desk_types.specs.Words.{item_kind_text};

use crate::ReadFault;
use crate::columns::{column_of, component_name_at, digest_at, generation_at};
use crate::from_row::FromRow;
use crate::proposal_columns::{item_kind_at, proposal_at};
use base::Digest;
use desk_history::{ProposalItem, ProposalItemRow};
use desk_types::ItemKind;
use sbat::Component;
use sqlite::Row;
use std::alloc::Global;

/// The digest of an item that has no component.
fn digest_alone(row: &Row) -> Result<Digest, ReadFault>
    ensures { IfOk result (λ digest. (column row.now 3 ≡ Blob digest) × (column row.now 4 ≡ Text [])
        × (column row.now 5 ≡ Int (pos 0))) }
{
    let digest = digest_at(row, 3)?;
    let name: String = column_of(row, 4)?;
    let generation: u64 = column_of(row, 5)?;
    if !name.is_empty() || generation != 0 {
        return Err(ReadFault::Row);
    }
    Ok(digest)
}

/// The component of an item that has no digest.
fn component_alone(alloc: Global, row: &Row) -> Result<Component, ReadFault>
    ensures { IfOk result (λ component. (column row.now 3 ≡ Blob [])
        × (column row.now 4 ≡ Text component.name)
        × (column row.now 5 ≡ Int (pos component.generation))) }
{
    let digest: Vec<u8> = column_of(row, 3)?;
    if !digest.is_empty() {
        return Err(ReadFault::Row);
    }
    let name = component_name_at(alloc, row, 4)?;
    let generation = generation_at(row, 5)?;
    Ok(Component { name, generation })
}

/// The item of a row.
fn item_at(alloc: Global, row: &Row) -> Result<ProposalItem, ReadFault>
    ensures kind { IfOk result (λ item. column row.now 2 ≡ Text (item_kind_text
        (item_kind item))) }
    ensures digest { IfOk result (λ item. column row.now 3 ≡ Blob (item_digest item)) }
    ensures name { IfOk result (λ item. column row.now 4 ≡ Text (item_name item)) }
    ensures generation { IfOk result (λ item. column row.now 5 ≡ Int (pos (item_generation item))) }
{
    let kind = item_kind_at(row, 2)?;
    match kind {
        ItemKind::Digest => {
            let digest = digest_alone(row)?;
            Ok(ProposalItem::Digest(digest))
        }
        ItemKind::Certificate => {
            let digest = digest_alone(row)?;
            Ok(ProposalItem::Certificate(digest))
        }
        ItemKind::Component => {
            let component = component_alone(alloc, row)?;
            Ok(ProposalItem::Component(component))
        }
    }
}

impl FromRow for ProposalItemRow {
    ghost shown = { item_values };

    fn from_row(alloc: Global, row: &Row) -> Result<ProposalItemRow, ReadFault> {
        if row.column_count() != 6 {
            return Err(ReadFault::Row);
        }
        let proposal = proposal_at(row, 0)?;
        let place = column_of(row, 1)?;
        let item = item_at(alloc, row)?;
        Ok(ProposalItemRow {
            proposal,
            place,
            item,
        })
    }
}
