//! People, by their keys, and all of them.
ghost use Rattle.std.specs.Prelude.{◌≡◌, IfOk, filter, option_copied, true};
ghost use Rattle.desk_history.specs.People.{has_name, has_token};
ghost use Rattle.store_schema.specs.rows.Values.{person_values};
ghost use Rattle.store_reads.specs.Reads.{AreFound, ReadsTables, listed};
ghost use Rattle.store_sql.specs.States.{DoesInside, CommitsNothing, Spares, StaysInside};
ghost use Rattle.store_schema.specs.Tables as tables;

use crate::ReadFault;
use crate::reading::{row_of, rows_of};
use base::Digest;
use desk_types::Person;
use sqlite::{Alter, Transaction, params};
use std::alloc::Global;
use store_schema::{SELECT_PEOPLE, SELECT_PERSON, SELECT_PERSON_OF_TOKEN};

/// The person of a name, if there is one. Takes memory for the row.
pub fn person_named<S: Alter>(
    alloc: Global,
    tx: &mut Transaction<'_, S>,
    name: &str,
) -> Result<Option<Person>, ReadFault>
    ensures same_reference { tx.new.conn.ghost_name ≡ tx.old.conn.ghost_name }
    ensures value { DoesInside S.Store tx.old.conn.now tx.new.conn.now result
        (λ person. ReadsTables (λ t. filter (has_name name.now) t.people ≡ listed person)) }
    ensures inside { StaysInside S.Store tx.old.conn.now tx.new.conn.now result }
    ensures kept { CommitsNothing S.Store tx.old.conn.now tx.new.conn.now }
    ensures survives { Spares S.Store tx.old.conn.now tx.new.conn.now }
{
    let person = row_of(alloc, tx, SELECT_PERSON, params![name])?;
    Ok(person)
}

/// A copy of the kept person, if the name is theirs. If that person is one of the desk's people
/// (`IsOneOf`), the row of the name needn't be read. Takes memory for the copy.
pub fn kept_named(kept: Option<&Person>, name: &str) -> Result<Option<Person>, ReadFault>
    ensures exact { IfOk result (λ person.
        listed person ≡ filter (has_name name.now) (listed (option_copied kept.entry))) }
{
    let Some(person) = kept else {
        return Ok(None);
    };
    if name != person.name.as_str() {
        return Ok(None);
    }
    match person.clone() {
        Ok(person) => Ok(Some(person)),
        Err(_) => Err(ReadFault::NoMemory),
    }
}

/// The person with the token of a digest, if there is one. Takes memory for the row.
pub fn person_of_token<S: Alter>(
    alloc: Global,
    tx: &mut Transaction<'_, S>,
    token: &Digest,
) -> Result<Option<Person>, ReadFault>
    ensures same_reference { tx.new.conn.ghost_name ≡ tx.old.conn.ghost_name }
    ensures value { DoesInside S.Store tx.old.conn.now tx.new.conn.now result
        (λ person. ReadsTables (λ t. filter (has_token token.now) t.people ≡ listed person)) }
    ensures inside { StaysInside S.Store tx.old.conn.now tx.new.conn.now result }
    ensures kept { CommitsNothing S.Store tx.old.conn.now tx.new.conn.now }
    ensures survives { Spares S.Store tx.old.conn.now tx.new.conn.now }
{
    let person = row_of(alloc, tx, SELECT_PERSON_OF_TOKEN, params![token.as_bytes()])?;
    Ok(person)
}

/// All people, ascending by the bytes of their names. Takes memory for the rows.
pub fn people_all<S: Alter>(
    alloc: Global,
    tx: &mut Transaction<'_, S>,
) -> Result<Vec<Person>, ReadFault>
    ensures same_reference { tx.new.conn.ghost_name ≡ tx.old.conn.ghost_name }
    ensures value { DoesInside S.Store tx.old.conn.now tx.new.conn.now result
        (λ people. ReadsTables (λ t. AreFound person_values tables.people 1 (λ p. true)
        t.people people.items)) }
    ensures inside { StaysInside S.Store tx.old.conn.now tx.new.conn.now result }
    ensures kept { CommitsNothing S.Store tx.old.conn.now tx.new.conn.now }
    ensures survives { Spares S.Store tx.old.conn.now tx.new.conn.now }
{
    let people = rows_of(alloc, tx, SELECT_PEOPLE, &[])?;
    Ok(people)
}
