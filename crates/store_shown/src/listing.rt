//! The requests that a person is shown: all, those from a number on, and those that wait.
ghost use Rattle.std.specs.Prelude.{◌≡◌, ◌≤◌, ◌-◌, min, option_copied};
ghost use Rattle.store_reads.specs.Reads.{ReadsTables};
ghost use Rattle.store_shown.specs.Choosing.{ListsUpTo, TakesNumbered};
ghost use Rattle.store_shown.specs.Telling.{RefusesAs, ShowsTo};
ghost use Rattle.store_sql.specs.States.{DoesInside, CommitsNothing, Spares, StaysInside};
ghost use Rattle.desk_exports.specs.declared.reading.Reading.TheVariants as read;

use crate::choice::{Choice, keeps_shown, picks_row};
use crate::reader::reader_of;
use crate::showing::shown_of;
use base::Refusal;
use desk_exports::{RequestList, Shown};
use desk_types::{Person, RequestNumber};
use sqlite::{Alter, Transaction};
use std::alloc::Global;
use store_reads::{Counted, ReadFault, count, request_numbered};

/// The most requests, proposals or lines of a part.
pub(crate) const MOST_OF_PART: u64 = 1_000;

/// Adds the request of this number to the list, if it is chosen, and says whether it was. Its
/// votes, and what else it has, are read only where its row may be.
///
/// `Row`: no request has the number.
pub(crate) fn take_numbered<S: Alter, L: RequestList>(
    alloc: Global,
    tx: &mut Transaction<'_, S>,
    reader: &Person,
    choice: &Choice,
    number: u64,
    list: &mut L,
) -> Result<bool, ReadFault>
    ensures same_reference { tx.new.conn.ghost_name ≡ tx.old.conn.ghost_name }
    ensures value { DoesInside S.Store tx.old.conn.now tx.new.conn.now result
        (λ is_taken. ReadsTables (λ t. TakesNumbered choice.now reader.now t number
        (L.RequestList.holds list.old) (L.RequestList.holds list.new) is_taken)) }
    ensures kept { CommitsNothing S.Store tx.old.conn.now tx.new.conn.now }
    ensures survives { Spares S.Store tx.old.conn.now tx.new.conn.now }
{
    let Some(number) = RequestNumber::new(number) else {
        return Err(ReadFault::Row);
    };
    let Some(row) = request_numbered(alloc, tx, number)? else {
        return Err(ReadFault::Row);
    };
    if !picks_row(choice, reader, &row) {
        return Ok(false);
    }
    let shown = shown_of(alloc, tx, row)?;
    if !keeps_shown(choice, reader, &shown) {
        return Ok(false);
    }
    match list.push(shown) {
        Ok(()) => Ok(true),
        Err(_) => Err(ReadFault::NoMemory),
    }
}

/// The chosen requests with a number above `passed` and up to `last`, the first so many of them.
pub(crate) fn list_after<S: Alter, L: RequestList + Drop>(
    alloc: Global,
    tx: &mut Transaction<'_, S>,
    reader: &Person,
    choice: &Choice,
    passed: u64,
    last: u64,
    most: u64,
) -> Result<L, ReadFault>
    requires { passed ≤ last }
    ensures same_reference { tx.new.conn.ghost_name ≡ tx.old.conn.ghost_name }
    ensures value { DoesInside S.Store tx.old.conn.now tx.new.conn.now result
        (λ list. ReadsTables (λ t. ListsUpTo choice.now reader.now t passed last most
        (L.RequestList.holds list))) }
    ensures kept { CommitsNothing S.Store tx.old.conn.now tx.new.conn.now }
    ensures survives { Spares S.Store tx.old.conn.now tx.new.conn.now }
{
    let mut list = L::new(alloc);
    let mut number = passed;
    let mut many = 0;
    while number < last {
        if many == most {
            return Ok(list);
        }
        number += 1;
        let is_taken = take_numbered(alloc, tx, reader, choice, number, &mut list)?;
        many += u64::from(is_taken);
    }
    Ok(list)
}

/// How many numbers come before this one, at most so many.
pub(crate) fn passed_before(number: u64, last: u64) -> u64
    ensures { result ≡ min (number - 1) last }
{
    let passed = number.saturating_sub(1);
    if passed <= last { passed } else { last }
}

/// The requests that the person of this name is shown, ascending by number: a submitter's own, and
/// all for everybody else. They are read one at a time, by the numbers that requests are given: 1
/// and up, with no gap. The person isn't looked up if that is `kept_person`, who must be one of the
/// desk's people (`value`). Takes memory for one request, and for the list.
///
/// `UnknownCaller`: nobody has the name.
pub(crate) fn requests_of<S: Alter, L: RequestList + Drop>(
    alloc: Global,
    tx: &mut Transaction<'_, S>,
    kept_person: Option<&Person>,
    person: &Person,
) -> Result<Result<Shown<L>, Refusal>, ReadFault>
    ensures same_reference { tx.new.conn.ghost_name ≡ tx.old.conn.ghost_name }
    ensures value { DoesInside S.Store tx.old.conn.now tx.new.conn.now result
        (λ given. ShowsTo L.RequestList.holds (option_copied kept_person.entry) person.now
        read.Requests given) }
    ensures named { RefusesAs read.Requests result }
    ensures inside { StaysInside S.Store tx.old.conn.now tx.new.conn.now result }
    ensures kept { CommitsNothing S.Store tx.old.conn.now tx.new.conn.now }
    ensures survives { Spares S.Store tx.old.conn.now tx.new.conn.now }
{
    let found = reader_of(alloc, tx, kept_person, &person.name)?;
    let Some(reader) = found else {
        return Ok(Err(Refusal::UnknownCaller));
    };
    let count = count(tx, Counted::Requests)?;
    let list = list_after(alloc, tx, &reader, &Choice::Shown, 0, count, count)?;
    Ok(Ok(Shown::Requests(list)))
}

/// Those of them with this number or a later one, at most 1,000. The rows before that number aren't
/// read, and none after the last that is given.
///
/// `UnknownCaller`: nobody has the name.
pub(crate) fn requests_from<S: Alter, L: RequestList + Drop>(
    alloc: Global,
    tx: &mut Transaction<'_, S>,
    kept_person: Option<&Person>,
    person: &Person,
    number: u64,
) -> Result<Result<Shown<L>, Refusal>, ReadFault>
    ensures same_reference { tx.new.conn.ghost_name ≡ tx.old.conn.ghost_name }
    ensures value { DoesInside S.Store tx.old.conn.now tx.new.conn.now result
        (λ given. ShowsTo L.RequestList.holds (option_copied kept_person.entry) person.now
        (read.RequestsFrom number) given) }
    ensures named { RefusesAs (read.RequestsFrom number) result }
    ensures inside { StaysInside S.Store tx.old.conn.now tx.new.conn.now result }
    ensures kept { CommitsNothing S.Store tx.old.conn.now tx.new.conn.now }
    ensures survives { Spares S.Store tx.old.conn.now tx.new.conn.now }
{
    let found = reader_of(alloc, tx, kept_person, &person.name)?;
    let Some(reader) = found else {
        return Ok(Err(Refusal::UnknownCaller));
    };
    let count = count(tx, Counted::Requests)?;
    let passed = passed_before(number, count);
    let list = list_after(
        alloc,
        tx,
        &reader,
        &Choice::Shown,
        passed,
        count,
        MOST_OF_PART,
    )?;
    Ok(Ok(Shown::Requests(list)))
}
