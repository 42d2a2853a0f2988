//! Proposals with their items: rows that are inserted.
ghost use Rattle.std.specs.Prelude.{◌≡◌, ◌<◌, Some, length, slice_get, unwrap_or};
ghost use Rattle.store_schema.specs.rows.Contents.{contents};
ghost use Rattle.store_schema.specs.rows.Values.{item_values};
ghost use Rattle.desk_history.specs.Items.{items_from, items_of};
ghost use Rattle.desk_history.specs.Writes.{written};
ghost use Rattle.desk_history.specs.declared.write.Write.TheVariants as writes;
ghost use Rattle.store_sql.specs.States.{DoesInside, CommitsNothing, Spares, StaysInside, Turns};
ghost use Rattle.store_schema.specs.Tables.{desk_layout};
ghost use Rattle.store_writes.specs.Steps.{AddsItem, Steps, contents_with, item_columns};

use crate::stored::integer_value;
use desk_history::ProposalRow;
use desk_types::{Import, ItemKind, ProposalNumber};
use sbat::Stamp;
use sqlite::{Alter, Transaction, params};
use store_schema::{INSERT_PROPOSAL, INSERT_PROPOSAL_ITEM};
use store_sql::{StoreFault, insert};

/// Inserts an item by its columns.
fn insert_item<S: Alter>(
    tx: &mut Transaction<'_, S>,
    proposal: ProposalNumber,
    place: u64,
    kind: ItemKind,
    digest: &[u8],
    name: &str,
    generation: u32,
) -> Result<(), StoreFault>
    ensures same_reference { tx.new.conn.ghost_name ≡ tx.old.conn.ghost_name }
    ensures value { DoesInside S.Store tx.old.conn.now tx.new.conn.now result
        (λ _. AddsItem (item_columns proposal place kind digest.now name.now
        generation)) }
    ensures inside { StaysInside S.Store tx.old.conn.now tx.new.conn.now result }
    ensures kept { CommitsNothing S.Store tx.old.conn.now tx.new.conn.now }
    ensures survives { Spares S.Store tx.old.conn.now tx.new.conn.now }
{
    let proposal = integer_value(proposal.value())?;
    let place = integer_value(place)?;
    insert(
        tx,
        INSERT_PROPOSAL_ITEM,
        params![&proposal, &place, kind.text(), digest, name, generation],
    )?;
    Ok(())
}

/// Inserts the item at a place; places count digests, then certificates, then components.
fn put_item<S: Alter>(
    tx: &mut Transaction<'_, S>,
    proposal: ProposalNumber,
    named: &Import,
    place: usize,
) -> Result<(), StoreFault>
    requires { place < length (items_of named.now) }
    ensures same_reference { tx.new.conn.ghost_name ≡ tx.old.conn.ghost_name }
    ensures value { DoesInside S.Store tx.old.conn.now tx.new.conn.now result
        (λ _ before after. (x : _) → slice_get (items_of named.now) place ≡ Some x
        → AddsItem (item_values (record {
          proposal = proposal;
          place = place;
          item = x;
        })) before after) }
    ensures inside { StaysInside S.Store tx.old.conn.now tx.new.conn.now result }
    ensures kept { CommitsNothing S.Store tx.old.conn.now tx.new.conn.now }
    ensures survives { Spares S.Store tx.old.conn.now tx.new.conn.now }
{
    let digests = named.digests().as_slice();
    let certificates = named.certificates().as_slice();
    let components = named.components().as_slice();
    let stands = place as u64;
    if place < digests.len() {
        let digest = digests[place].as_bytes();
        return insert_item(tx, proposal, stands, ItemKind::Digest, digest, "", 0);
    }
    let later = place - digests.len();
    if later < certificates.len() {
        let digest = certificates[later].as_bytes();
        return insert_item(tx, proposal, stands, ItemKind::Certificate, digest, "", 0);
    }
    let component = &components[later - certificates.len()];
    let name = component.name.as_str();
    let generation = component.generation.value();
    insert_item(
        tx,
        proposal,
        stands,
        ItemKind::Component,
        &[],
        name,
        generation,
    )
}

/// The number of its items.
fn count_of(named: &Import) -> usize
    ensures { result ≡ length (items_of named.now) }
{
    named.digests().as_slice().len()
        + named.certificates().as_slice().len()
        + named.components().as_slice().len()
}

/// Inserts all items of a proposal, the last first.
fn put_items<S: Alter>(
    tx: &mut Transaction<'_, S>,
    proposal: ProposalNumber,
    named: &Import,
) -> Result<(), StoreFault>
    ensures same_reference { tx.new.conn.ghost_name ≡ tx.old.conn.ghost_name }
    ensures value { DoesInside S.Store tx.old.conn.now tx.new.conn.now result
        (λ _. Turns desk_layout contents (contents_with (items_from proposal 0
        (items_of named.now)))) }
    ensures kept { CommitsNothing S.Store tx.old.conn.now tx.new.conn.now }
    ensures survives { Spares S.Store tx.old.conn.now tx.new.conn.now }
{
    let mut place = count_of(named);
    while 0 < place {
        place -= 1;
        put_item(tx, proposal, named, place)?;
    }
    Ok(())
}

/// The number of the stamp, or 0 if there is none.
fn stamp_number(stamp: Option<Stamp>) -> u64
    ensures { result ≡ unwrap_or stamp 0 }
{
    match stamp {
        Some(stamp) => stamp.value(),
        None => 0,
    }
}

/// Inserts a proposal, after all of its items.
pub(crate) fn put_proposal<S: Alter>(
    tx: &mut Transaction<'_, S>,
    proposal: &ProposalRow,
) -> Result<(), StoreFault>
    ensures same_reference { tx.new.conn.ghost_name ≡ tx.old.conn.ghost_name }
    ensures value { Steps S.Store tx.old.conn.now tx.new.conn.now result
        (written (writes.Propose proposal.now)) }
    ensures inside { StaysInside S.Store tx.old.conn.now tx.new.conn.now result }
    ensures kept { CommitsNothing S.Store tx.old.conn.now tx.new.conn.now }
    ensures survives { Spares S.Store tx.old.conn.now tx.new.conn.now }
{
    let number = integer_value(proposal.number.value())?;
    let stamp = integer_value(stamp_number(proposal.named.stamp()))?;
    let passed = integer_value(proposal.named.passed())?;
    put_items(tx, proposal.number, &proposal.named)?;
    insert(
        tx,
        INSERT_PROPOSAL,
        params![
            &number,
            proposal.officer.as_str(),
            proposal.kind.text(),
            &stamp,
            &passed,
            proposal.state.text()
        ],
    )?;
    Ok(())
}
