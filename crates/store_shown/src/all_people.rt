//! All people, as an officer is shown them.
ghost use Rattle.std.specs.Prelude.{◌≡◌, IfOk, map, option_copied};
ghost use Rattle.desk_history.specs.PeopleShown.{shown_person as as_shown};
ghost use Rattle.store_shown.specs.Telling.{RefusesAs, ShowsTo};
ghost use Rattle.store_sql.specs.States.{DoesInside, CommitsNothing, Spares, StaysInside};
ghost use Rattle.desk_exports.specs.declared.reading.Reading.TheVariants as read;

use crate::making::push;
use crate::officer::officer_of;
use base::Refusal;
use desk_exports::{RequestList, Shown, ShownPeople};
use desk_history::ShownPerson;
use desk_types::Person;
use sqlite::{Alter, Transaction};
use std::alloc::Global;
use store_reads::{ReadFault, people_all};

/// The person, as shown.
fn shown_person(person: Person) -> ShownPerson
    ensures { result ≡ as_shown person }
{
    ShownPerson {
        name: person.name,
        role: person.role,
    }
}

/// The people, as shown, in order.
fn shown_people(alloc: Global, people: Vec<Person>) -> Result<Vec<ShownPerson>, ReadFault>
    ensures { IfOk result (λ shown. shown.items ≡ map as_shown people.items) }
{
    let mut shown = Vec::new(alloc);
    for person in people {
        push(&mut shown, shown_person(person))?;
    }
    Ok(shown)
}

/// All people, ascending by the bytes of their names, for the person of this name, who must be an
/// officer. The person isn't looked up if that is `kept_person`, who must be one of the desk's
/// people (`value`). Takes memory for the rows.
///
/// `UnknownCaller`: nobody has the name. `NotYourRole`: the person isn't an officer, and no other
/// is read.
pub(crate) fn people_for_officer<S: Alter, L: RequestList + Drop>(
    alloc: Global,
    tx: &mut Transaction<'_, S>,
    kept_person: Option<&Person>,
    person: &Person,
) -> Result<Result<Shown<L>, Refusal>, ReadFault>
    ensures same_reference { tx.new.conn.ghost_name ≡ tx.old.conn.ghost_name }
    ensures value { DoesInside S.Store tx.old.conn.now tx.new.conn.now result
        (λ given. ShowsTo L.RequestList.holds (option_copied kept_person.entry) person.now
        read.People given) }
    ensures named { RefusesAs read.People result }
    ensures inside { StaysInside S.Store tx.old.conn.now tx.new.conn.now result }
    ensures kept { CommitsNothing S.Store tx.old.conn.now tx.new.conn.now }
    ensures survives { Spares S.Store tx.old.conn.now tx.new.conn.now }
{
    let officer = officer_of(alloc, tx, kept_person, &person.name)?;
    if let Err(refusal) = officer {
        return Ok(Err(refusal));
    }
    let people = people_all(alloc, tx)?;
    let found = shown_people(alloc, people)?;
    let shown = ShownPeople::new(found);
    Ok(Ok(Shown::People(shown)))
}
