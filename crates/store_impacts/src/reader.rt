//! Callers who are shown impacts.
ghost use Rattle.std.specs.Prelude.{◌≡◌, ◌≢◌, None, Ok, IfOk, IfSome, option_copied};
ghost use Rattle.desk_history.specs.People.{people};
ghost use Rattle.store_reads.specs.People.{IsOneOf};
ghost use Rattle.store_shown.specs.Telling.{IsOfficerRefusal, TellsOf};
ghost use Rattle.store_sql.specs.States.{CommitsNothing, DoesInside, Spares, StaysInside};
ghost use Rattle.store_impacts.specs.Reading as spec;

use base::Refusal;
use desk_types::{Caller, Person};
use sqlite::{Alter, Transaction};
use std::alloc::Global;
use store_reads::ReadFault;
use store_shown::officer_of;

/// Why the caller isn't shown impacts, or nothing if they are: officers are, and the console. An
/// officer isn't looked up if that is `kept_person`, who must be one of the desk's people
/// (`value`). Takes memory for the person.
pub fn refusal_to<S: Alter>(
    alloc: Global,
    tx: &mut Transaction<'_, S>,
    kept_person: Option<&Person>,
    caller: &Caller,
) -> Result<Option<Refusal>, ReadFault>
    ensures same_reference { tx.new.conn.ghost_name ≡ tx.old.conn.ghost_name }
    ensures value { DoesInside S.Store tx.old.conn.now tx.new.conn.now result
        (λ refusal. TellsOf (λ cs. IsOneOf (option_copied kept_person.entry) (people cs)
        → refusal ≡ spec.refusal_to cs caller.now)) }
    ensures named { IfOk result (λ refusal. IfSome refusal IsOfficerRefusal) }
    ensures inside { result ≢ Ok None → StaysInside S.Store tx.old.conn.now tx.new.conn.now result }
    ensures kept { CommitsNothing S.Store tx.old.conn.now tx.new.conn.now }
    ensures survives { Spares S.Store tx.old.conn.now tx.new.conn.now }
{
    let Caller::Person(name) = caller else {
        return Ok(None);
    };
    match officer_of(alloc, tx, kept_person, name)? {
        Ok(()) => Ok(None),
        Err(refusal) => Ok(Some(refusal)),
    }
}
