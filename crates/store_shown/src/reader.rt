//! The person to whom requests are shown.
ghost use Rattle.std.specs.Prelude.{◌≡◌, None, Ok, filter, option_copied};
ghost use Rattle.desk_history.specs.People.{has_name};
ghost use Rattle.store_reads.specs.People.{IsOneOf};
ghost use Rattle.store_reads.specs.Reads.{ReadsTables, listed};
ghost use Rattle.store_sql.specs.States.{DoesInside, CommitsNothing, Spares, StaysInside};

use desk_types::{Person, PersonName};
use sqlite::{Alter, Transaction};
use std::alloc::Global;
use store_reads::{ReadFault, kept_named, person_named};

/// The person of this name: the one who is kept, or else the row. Only an open store gives nobody.
/// Takes memory for the person.
pub(crate) fn reader_of<S: Alter>(
    alloc: Global,
    tx: &mut Transaction<'_, S>,
    kept_person: Option<&Person>,
    name: &PersonName,
) -> Result<Option<Person>, ReadFault>
    ensures same_reference { tx.new.conn.ghost_name ≡ tx.old.conn.ghost_name }
    ensures value { DoesInside S.Store tx.old.conn.now tx.new.conn.now result
        (λ person. ReadsTables (λ t. IsOneOf (option_copied kept_person.entry) t.people
        → filter (has_name name.now) t.people ≡ listed person)) }
    ensures inside { result ≡ Ok None → StaysInside S.Store tx.old.conn.now tx.new.conn.now result }
    ensures kept { CommitsNothing S.Store tx.old.conn.now tx.new.conn.now }
    ensures survives { Spares S.Store tx.old.conn.now tx.new.conn.now }
{
    let Some(person) = kept_named(kept_person, name.as_str())? else {
        return person_named(alloc, tx, name.as_str());
    };
    Ok(Some(person))
}
