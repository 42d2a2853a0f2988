//! The officers, to whom alone people, proposals and minutes are shown.
ghost use Rattle.std.specs.Prelude.{◌≡◌, ◌≢◌, Ok, IfErr, IfOk, IsTrue, option_copied};
ghost use Rattle.desk_history.specs.People.{people};
ghost use Rattle.desk_history.specs.Roles.{is_officer};
ghost use Rattle.store_reads.specs.People.{IsOneOf};
ghost use Rattle.store_shown.specs.Steps.{KeepsOfficer};
ghost use Rattle.store_shown.specs.Telling.{IsOfficer, IsOfficerRefusal, TellsOf};
ghost use Rattle.store_sql.specs.States.{DoesInside, CommitsNothing, Spares, StaysInside};

use base::Refusal;
use desk_types::{Person, PersonName, Role};
use sqlite::{Alter, Transaction};
use std::alloc::Global;
use store_reads::{ReadFault, person_named};

/// Whether the role is an officer's.
pub fn is_officer(role: Role) -> bool
    ensures { result ≡ is_officer role }
{
    match role {
        Role::Officer => true,
        Role::Submitter | Role::Reviewer | Role::Signer => false,
    }
}

/// Whether the person who is kept has this name and is an officer.
fn is_kept_officer(kept_person: Option<&Person>, name: &PersonName) -> bool
    ensures { IsTrue result → KeepsOfficer (option_copied kept_person.entry) name.now }
{
    let Some(person) = kept_person else {
        return false;
    };
    if name.as_str() != person.name.as_str() {
        return false;
    }
    is_officer(person.role)
}

/// Whether the person of this name is an officer, or the refusal. The person is looked up, unless
/// that is `kept_person`, who must be one of the desk's people (`value`), and an officer: nobody is
/// refused by what is kept, so only an open store refuses. Takes memory for the person.
///
/// `UnknownCaller`: nobody has the name. `NotYourRole`: the person isn't an officer.
pub fn officer_of<S: Alter>(
    alloc: Global,
    tx: &mut Transaction<'_, S>,
    kept_person: Option<&Person>,
    name: &PersonName,
) -> Result<Result<(), Refusal>, ReadFault>
    ensures same_reference { tx.new.conn.ghost_name ≡ tx.old.conn.ghost_name }
    ensures value { DoesInside S.Store tx.old.conn.now tx.new.conn.now result
        (λ given. TellsOf (λ cs. IsOneOf (option_copied kept_person.entry) (people cs)
        → IsOfficer cs name.now given)) }
    ensures named { IfOk result (λ given. IfErr given IsOfficerRefusal) }
    ensures inside { result ≢ Ok (Ok tt)
        → StaysInside S.Store tx.old.conn.now tx.new.conn.now result }
    ensures kept { CommitsNothing S.Store tx.old.conn.now tx.new.conn.now }
    ensures survives { Spares S.Store tx.old.conn.now tx.new.conn.now }
{
    if is_kept_officer(kept_person, name) {
        return Ok(Ok(()));
    }
    let found = person_named(alloc, tx, name.as_str())?;
    let Some(reader) = found else {
        return Ok(Err(Refusal::UnknownCaller));
    };
    if !is_officer(reader.role) {
        return Ok(Err(Refusal::NotYourRole));
    }
    Ok(Ok(()))
}
