//! The desk itself, people, calls and the level's components: rows that are inserted.
ghost use Rattle.std.specs.Prelude.{◌≡◌};
ghost use Rattle.desk_history.specs.Writes.{written};
ghost use Rattle.desk_history.specs.declared.write.Write.TheVariants as writes;
ghost use Rattle.store_sql.specs.Effects.{Inserts};
ghost use Rattle.store_sql.specs.States.{CommitsNothing, DoesInside, Spares, StaysInside};
ghost use Rattle.store_writes.specs.Founding.{PutsDesk, migrated_params, own_params};
ghost use Rattle.store_writes.specs.Steps.{Begins, MakesDesk, Steps, unmigrated, with_migrated};

use crate::stored::integer_value;
use base::Guid;
use desk_history::Minute;
use desk_types::{Person, reply_text};
use sbat::{Component, Stamp};
use sqlite::{Alter, Transaction, params};
use std::alloc::Global;
use store_schema::{
    INSERT_CALL, INSERT_COMPONENT, INSERT_DESK, INSERT_MIGRATED, INSERT_PERSON, MARK, VERSION,
};
use store_sql::{StoreFault, insert};

/// Inserts the desk's own row into tables without rows: its stamp is that of shim's first level.
fn put_own<S: Alter>(tx: &mut Transaction<'_, S>, owner: &Guid) -> Result<(), StoreFault>
    ensures same_reference { tx.new.conn.ghost_name ≡ tx.old.conn.ghost_name }
    ensures value { MakesDesk S.Store tx.old.conn.now tx.new.conn.now result
        (unmigrated owner.now) }
    ensures puts { DoesInside S.Store tx.old.conn.now tx.new.conn.now result
        (λ _. Inserts INSERT_DESK.now (own_params owner.now)) }
    ensures inside { StaysInside S.Store tx.old.conn.now tx.new.conn.now result }
    ensures kept { CommitsNothing S.Store tx.old.conn.now tx.new.conn.now }
    ensures survives { Spares S.Store tx.old.conn.now tx.new.conn.now }
{
    let stamp = integer_value(Stamp::original().value())?;
    insert(
        tx,
        INSERT_DESK,
        params![1u32, MARK, VERSION, owner.as_bytes(), &stamp],
    )?;
    Ok(())
}

/// Inserts how many calls were accepted by the first rules. `Store` also for more than 2^63 - 1.
pub fn put_migrated<S: Alter>(tx: &mut Transaction<'_, S>, calls: u64) -> Result<(), StoreFault>
    ensures same_reference { tx.new.conn.ghost_name ≡ tx.old.conn.ghost_name }
    ensures value { Steps S.Store tx.old.conn.now tx.new.conn.now result (with_migrated calls) }
    ensures puts { DoesInside S.Store tx.old.conn.now tx.new.conn.now result
        (λ _. Inserts INSERT_MIGRATED.now (migrated_params calls)) }
    ensures inside { StaysInside S.Store tx.old.conn.now tx.new.conn.now result }
    ensures kept { CommitsNothing S.Store tx.old.conn.now tx.new.conn.now }
    ensures survives { Spares S.Store tx.old.conn.now tx.new.conn.now }
{
    let calls = integer_value(calls)?;
    insert(tx, INSERT_MIGRATED, params![1u32, &calls])?;
    Ok(())
}

/// Inserts the rows of a desk without calls into tables without rows, whatever other tables there
/// are (`puts`). The owner is that of each entry that the desk exports.
pub fn put_desk<S: Alter>(tx: &mut Transaction<'_, S>, owner: &Guid) -> Result<(), StoreFault>
    ensures same_reference { tx.new.conn.ghost_name ≡ tx.old.conn.ghost_name }
    ensures value { Begins S.Store tx.old.conn.now tx.new.conn.now result owner.now }
    ensures puts { DoesInside S.Store tx.old.conn.now tx.new.conn.now result
        (λ _. PutsDesk owner.now) }
    ensures inside { StaysInside S.Store tx.old.conn.now tx.new.conn.now result }
    ensures kept { CommitsNothing S.Store tx.old.conn.now tx.new.conn.now }
    ensures survives { Spares S.Store tx.old.conn.now tx.new.conn.now }
{
    put_own(tx, owner)?;
    put_migrated(tx, 0)?;
    Ok(())
}

/// Inserts a person.
pub(crate) fn put_person<S: Alter>(
    tx: &mut Transaction<'_, S>,
    person: &Person,
) -> Result<(), StoreFault>
    ensures same_reference { tx.new.conn.ghost_name ≡ tx.old.conn.ghost_name }
    ensures value { Steps S.Store tx.old.conn.now tx.new.conn.now result
        (written (writes.Person person.now)) }
    ensures inside { StaysInside S.Store tx.old.conn.now tx.new.conn.now result }
    ensures kept { CommitsNothing S.Store tx.old.conn.now tx.new.conn.now }
    ensures survives { Spares S.Store tx.old.conn.now tx.new.conn.now }
{
    insert(
        tx,
        INSERT_PERSON,
        params![
            person.name.as_str(),
            person.role.text(),
            person.token.as_bytes()
        ],
    )?;
    Ok(())
}

/// Inserts an accepted call, with the caller's name and the reply's text. Takes memory for that
/// text.
pub(crate) fn put_call<S: Alter>(
    alloc: Global,
    tx: &mut Transaction<'_, S>,
    minute: &Minute,
) -> Result<(), StoreFault>
    ensures same_reference { tx.new.conn.ghost_name ≡ tx.old.conn.ghost_name }
    ensures value { Steps S.Store tx.old.conn.now tx.new.conn.now result
        (written (writes.Call minute.now)) }
    ensures inside { StaysInside S.Store tx.old.conn.now tx.new.conn.now result }
    ensures kept { CommitsNothing S.Store tx.old.conn.now tx.new.conn.now }
    ensures survives { Spares S.Store tx.old.conn.now tx.new.conn.now }
{
    let number = integer_value(minute.number)?;
    let Ok(reply) = reply_text(alloc, &minute.reply) else {
        return Err(StoreFault::NoMemory);
    };
    insert(
        tx,
        INSERT_CALL,
        params![
            &number,
            minute.caller.name(),
            minute.key.as_str(),
            minute.text.as_str(),
            reply.as_str()
        ],
    )?;
    Ok(())
}

/// Inserts a component of the level.
pub(crate) fn put_component<S: Alter>(
    tx: &mut Transaction<'_, S>,
    component: &Component,
) -> Result<(), StoreFault>
    ensures same_reference { tx.new.conn.ghost_name ≡ tx.old.conn.ghost_name }
    ensures value { Steps S.Store tx.old.conn.now tx.new.conn.now result
        (written (writes.Component component.now)) }
    ensures inside { StaysInside S.Store tx.old.conn.now tx.new.conn.now result }
    ensures kept { CommitsNothing S.Store tx.old.conn.now tx.new.conn.now }
    ensures survives { Spares S.Store tx.old.conn.now tx.new.conn.now }
{
    insert(
        tx,
        INSERT_COMPONENT,
        params![component.name.as_str(), component.generation.value()],
    )?;
    Ok(())
}
