//! The requests that have a digest.
ghost use Rattle.std.specs.Prelude.{◌≡◌, All, OnOk, option_copied};
ghost use Rattle.store_reads.specs.Reads.{ReadsTables};
ghost use Rattle.store_shown.specs.Searching.{AreMarked, FindsUpTo, KeepsMarks, MarksAll, MarksColumn};
ghost use Rattle.store_shown.specs.Searching.{TakesMarked, is_marked};
ghost use Rattle.store_shown.specs.Telling.{RefusesAs, ShowsTo};
ghost use Rattle.store_sql.specs.States.{DoesInside, CommitsNothing, Spares, StaysInside};
ghost use Rattle.desk_exports.specs.declared.reading.Reading.TheVariants as read;

use crate::choice::Choice;
use crate::listing::{MOST_OF_PART, take_numbered};
use crate::reader::reader_of;
use base::{Digest, Refusal};
use desk_exports::{RequestList, Shown};
use desk_types::{Person, RequestNumber};
use sqlite::{Alter, Transaction};
use std::alloc::Global;
use store_reads::{Counted, DigestColumn, ReadFault, count, numbers_with};

/// Every column that has digests of requests.
const COLUMNS: [DigestColumn; 6] = [
    DigestColumn::File,
    DigestColumn::Digest,
    DigestColumn::Signing,
    DigestColumn::ReturnedFile,
    DigestColumn::ReturnedDigest,
    DigestColumn::Certificate,
];

/// Whether the number is marked.
fn is_marked(marks: &[bool], number: u64) -> bool
    ensures { result ≡ is_marked marks.now number }
{
    marks.get(number as usize).copied().unwrap_or(false)
}

/// Marks these numbers.
///
/// `Row`: no request has one of them.
fn mark(marks: &mut Vec<bool>, numbers: &[RequestNumber]) -> Result<(), ReadFault>
    ensures marked { OnOk result (AreMarked marks.new.items numbers.now) }
    ensures keeps { OnOk result (KeepsMarks marks.old.items marks.new.items) }
{
    for number in numbers {
        let place = number.value() as usize;
        if marks.len() <= place {
            return Err(ReadFault::Row);
        }
        marks[place] = true;
    }
    Ok(())
}

/// Marks the numbers of the requests that have the digest in this column.
///
/// `Row`: a row has the number of no request.
fn mark_column<S: Alter>(
    alloc: Global,
    tx: &mut Transaction<'_, S>,
    column: &DigestColumn,
    digest: &Digest,
    marks: &mut Vec<bool>,
) -> Result<(), ReadFault>
    ensures same_reference { tx.new.conn.ghost_name ≡ tx.old.conn.ghost_name }
    ensures value { DoesInside S.Store tx.old.conn.now tx.new.conn.now result
        (λ _. ReadsTables (λ t. MarksColumn digest.now marks.new.items t column.now)) }
    ensures keeps { OnOk result (KeepsMarks marks.old.items marks.new.items) }
    ensures kept { CommitsNothing S.Store tx.old.conn.now tx.new.conn.now }
    ensures survives { Spares S.Store tx.old.conn.now tx.new.conn.now }
{
    let numbers = numbers_with(alloc, tx, *column, digest)?;
    mark(marks, numbers.as_slice())?;
    Ok(())
}

/// The same for each of these columns.
fn mark_each<S: Alter>(
    alloc: Global,
    tx: &mut Transaction<'_, S>,
    columns: &[DigestColumn],
    digest: &Digest,
    marks: &mut Vec<bool>,
) -> Result<(), ReadFault>
    ensures same_reference { tx.new.conn.ghost_name ≡ tx.old.conn.ghost_name }
    ensures value { DoesInside S.Store tx.old.conn.now tx.new.conn.now result
        (λ _. ReadsTables (λ t. All (MarksColumn digest.now marks.new.items t) columns.now)) }
    ensures kept { CommitsNothing S.Store tx.old.conn.now tx.new.conn.now }
    ensures survives { Spares S.Store tx.old.conn.now tx.new.conn.now }
{
    for column in columns {
        mark_column(alloc, tx, column, digest, marks)?;
    }
    Ok(())
}

/// Marks for so many requests, by their numbers: those of all that have the digest in some column.
/// Takes memory for them, and for the numbers that one column gives.
///
/// `Row`: a row has the number of no request.
fn marks_for<S: Alter>(
    alloc: Global,
    tx: &mut Transaction<'_, S>,
    digest: &Digest,
    count: u64,
) -> Result<Vec<bool>, ReadFault>
    ensures same_reference { tx.new.conn.ghost_name ≡ tx.old.conn.ghost_name }
    ensures value { DoesInside S.Store tx.old.conn.now tx.new.conn.now result
        (λ marks. ReadsTables (λ t. MarksAll digest.now marks.items t)) }
    ensures kept { CommitsNothing S.Store tx.old.conn.now tx.new.conn.now }
    ensures survives { Spares S.Store tx.old.conn.now tx.new.conn.now }
{
    let Ok(mut marks) = Vec::from_elem(alloc, false, count.saturating_add(1) as usize) else {
        return Err(ReadFault::NoMemory);
    };
    mark_each(alloc, tx, &COLUMNS, digest, &mut marks)?;
    Ok(marks)
}

/// Adds the request of this number to the list, if it is marked and chosen, and says whether it
/// was. Of one that isn't marked nothing is read.
///
/// `Row`: no request has the number.
fn take_marked<S: Alter, L: RequestList>(
    alloc: Global,
    tx: &mut Transaction<'_, S>,
    reader: &Person,
    choice: &Choice,
    marks: &[bool],
    number: u64,
    list: &mut L,
) -> Result<bool, ReadFault>
    ensures same_reference { tx.new.conn.ghost_name ≡ tx.old.conn.ghost_name }
    ensures value { DoesInside S.Store tx.old.conn.now tx.new.conn.now result
        (λ is_taken. ReadsTables (λ t. TakesMarked choice.now reader.now t
        (is_marked marks.now number) number
        (L.RequestList.holds list.old) (L.RequestList.holds list.new) is_taken)) }
    ensures kept { CommitsNothing S.Store tx.old.conn.now tx.new.conn.now }
    ensures survives { Spares S.Store tx.old.conn.now tx.new.conn.now }
{
    if !is_marked(marks, number) {
        return Ok(false);
    }
    let is_taken = take_numbered(alloc, tx, reader, choice, number, list)?;
    Ok(is_taken)
}

/// Of the marked requests up to `last` the chosen ones, the first so many of them.
fn list_marked<S: Alter, L: RequestList + Drop>(
    alloc: Global,
    tx: &mut Transaction<'_, S>,
    reader: &Person,
    choice: &Choice,
    marks: &[bool],
    last: u64,
    most: u64,
) -> Result<L, ReadFault>
    ensures same_reference { tx.new.conn.ghost_name ≡ tx.old.conn.ghost_name }
    ensures value { DoesInside S.Store tx.old.conn.now tx.new.conn.now result
        (λ list. ReadsTables (λ t. FindsUpTo choice.now reader.now t marks.now last most
        (L.RequestList.holds list))) }
    ensures kept { CommitsNothing S.Store tx.old.conn.now tx.new.conn.now }
    ensures survives { Spares S.Store tx.old.conn.now tx.new.conn.now }
{
    let mut list = L::new(alloc);
    let mut number = 0;
    let mut many = 0;
    while number < last {
        if many == most {
            return Ok(list);
        }
        number += 1;
        let is_taken = take_marked(alloc, tx, reader, choice, marks, number, &mut list)?;
        many += u64::from(is_taken);
    }
    Ok(list)
}

/// The requests that the person of this name is shown and that have this digest, ascending by
/// number, at most 1,000: as the SHA-256 of the submitted or of the returned file, as an
/// Authenticode digest of their images, or as that of a certificate that the submitted one carries.
/// Each column that has such digests is looked through once, by the store; only the requests that
/// it names are then read, one at a time. The person isn't looked up if that is `kept_person`, who
/// must be one of the desk's people (`value`). Takes memory for a flag for each request of the
/// desk, for the numbers that one column gives, for one request, and for the list.
///
/// `UnknownCaller`: nobody has the name.
pub(crate) fn requests_with<S: Alter, L: RequestList + Drop>(
    alloc: Global,
    tx: &mut Transaction<'_, S>,
    kept_person: Option<&Person>,
    person: &Person,
    digest: &Digest,
) -> Result<Result<Shown<L>, Refusal>, ReadFault>
    ensures same_reference { tx.new.conn.ghost_name ≡ tx.old.conn.ghost_name }
    ensures value { DoesInside S.Store tx.old.conn.now tx.new.conn.now result
        (λ given. ShowsTo L.RequestList.holds (option_copied kept_person.entry) person.now
        (read.RequestsWith digest.now) given) }
    ensures named { RefusesAs (read.RequestsWith digest.now) result }
    ensures inside { StaysInside S.Store tx.old.conn.now tx.new.conn.now result }
    ensures kept { CommitsNothing S.Store tx.old.conn.now tx.new.conn.now }
    ensures survives { Spares S.Store tx.old.conn.now tx.new.conn.now }
{
    let found = reader_of(alloc, tx, kept_person, &person.name)?;
    let Some(reader) = found else {
        return Ok(Err(Refusal::UnknownCaller));
    };
    let count = count(tx, Counted::Requests)?;
    let marks = marks_for(alloc, tx, digest, count)?;
    let choice = Choice::With(*digest);
    let flags = marks.as_slice();
    let list = list_marked(alloc, tx, &reader, &choice, flags, count, MOST_OF_PART)?;
    Ok(Ok(Shown::Requests(list)))
}
