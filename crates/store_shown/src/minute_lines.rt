//! The minutes from a number on, as an officer is shown them.
ghost use Rattle.std.specs.Prelude.{◌≡◌, ◌≤◌, ◌-◌, ◌++◌, OnOk, min, option_copied};
ghost use Rattle.desk_history.specs.Limits.{most_calls};
ghost use Rattle.store_reads.specs.Reads.{ReadsTables};
ghost use Rattle.store_shown.specs.Lines.{HasLines, IsLineOf, line_of};
ghost use Rattle.store_shown.specs.Telling.{RefusesAs, ShowsTo, TellsOf};
ghost use Rattle.store_sql.specs.States.{DoesInside, CommitsNothing, Spares, StaysInside};
ghost use Rattle.desk_exports.specs.declared.reading.Reading.TheVariants as read;

use crate::listing::MOST_OF_PART;
use crate::officer::officer_of;
use base::{Refusal, put_each};
use desk_exports::{Octets, RequestList, Shown};
use desk_history::MOST_CALLS;
use desk_types::Person;
use itoa::Buffer;
use sqlite::{Alter, Transaction};
use std::alloc::Global;
use store_reads::{CallTexts, ReadFault, call_numbered};

/// Appends the line of a call.
fn push_line(text: &mut Vec<u8>, call: &CallTexts) -> Result<(), ReadFault>
    ensures { OnOk result (text.new.items ≡ text.old.items ++ line_of call.now) }
{
    let mut digits = Buffer::new();
    let slices: [&[u8]; 10] = [
        digits.format(call.number).as_bytes(),
        b"\t",
        call.caller.as_bytes(),
        b"\t",
        call.key.as_str().as_bytes(),
        b"\t",
        call.text.as_str().as_bytes(),
        b"\t",
        call.reply.as_bytes(),
        b"\n",
    ];
    match put_each(&slices, text) {
        Ok(()) => Ok(()),
        Err(_) => Err(ReadFault::NoMemory),
    }
}

/// How many calls come before that of this number, at most as many as a desk can have.
fn calls_before(number: u64) -> u64
    ensures { result ≡ min (number - 1) most_calls }
{
    let calls = number.saturating_sub(1);
    if calls <= MOST_CALLS as u64 {
        calls
    } else {
        MOST_CALLS as u64
    }
}

/// The lines of the calls after so many, at most 1,000. Each is read by its number.
fn lines_after<S: Alter>(
    alloc: Global,
    tx: &mut Transaction<'_, S>,
    calls: u64,
) -> Result<Vec<u8>, ReadFault>
    requires { calls ≤ most_calls }
    ensures same_reference { tx.new.conn.ghost_name ≡ tx.old.conn.ghost_name }
    ensures value { DoesInside S.Store tx.old.conn.now tx.new.conn.now result
        (λ text. ReadsTables (λ t. HasLines t calls text.items)) }
    ensures inside { StaysInside S.Store tx.old.conn.now tx.new.conn.now result }
    ensures kept { CommitsNothing S.Store tx.old.conn.now tx.new.conn.now }
    ensures survives { Spares S.Store tx.old.conn.now tx.new.conn.now }
{
    let mut text = Vec::new(alloc);
    let mut lines = 0;
    while lines < MOST_OF_PART {
        let Some(call) = call_numbered(alloc, tx, calls + lines + 1)? else {
            return Ok(text);
        };
        push_line(&mut text, &call)?;
        lines += 1;
    }
    Ok(text)
}

/// The line of the call of this number, counted from 1; nothing, if there is no such call. Takes
/// memory for the line, and for the call.
///
/// `Store`: the number is above 2^63 - 1, or the store failed.
pub fn line_numbered<S: Alter>(
    alloc: Global,
    tx: &mut Transaction<'_, S>,
    number: u64,
) -> Result<Vec<u8>, ReadFault>
    ensures same_reference { tx.new.conn.ghost_name ≡ tx.old.conn.ghost_name }
    ensures value { DoesInside S.Store tx.old.conn.now tx.new.conn.now result
        (λ text. TellsOf (λ cs. IsLineOf cs number text.items)) }
    ensures inside { StaysInside S.Store tx.old.conn.now tx.new.conn.now result }
    ensures kept { CommitsNothing S.Store tx.old.conn.now tx.new.conn.now }
    ensures survives { Spares S.Store tx.old.conn.now tx.new.conn.now }
{
    let mut text = Vec::new(alloc);
    let Some(call) = call_numbered(alloc, tx, number)? else {
        return Ok(text);
    };
    push_line(&mut text, &call)?;
    Ok(text)
}

/// The lines of the minutes from this number on, counted from 1, at most 1,000, for the person of
/// this name, who must be an officer. Each call is read by its number, so that the cost is that of
/// the lines that are given. The person isn't looked up if that is `kept_person`, who must be one
/// of the desk's people (`value`). Takes memory for the lines, and for one call at a time.
///
/// `UnknownCaller`: nobody has the name. `NotYourRole`: the person isn't an officer, and no call is
/// read.
pub(crate) fn minutes_from<S: Alter, L: RequestList + Drop>(
    alloc: Global,
    tx: &mut Transaction<'_, S>,
    kept_person: Option<&Person>,
    person: &Person,
    number: u64,
) -> Result<Result<Shown<L>, Refusal>, ReadFault>
    ensures same_reference { tx.new.conn.ghost_name ≡ tx.old.conn.ghost_name }
    ensures value { DoesInside S.Store tx.old.conn.now tx.new.conn.now result
        (λ given. ShowsTo L.RequestList.holds (option_copied kept_person.entry) person.now
        (read.Minutes number) given) }
    ensures named { RefusesAs (read.Minutes number) result }
    ensures inside { StaysInside S.Store tx.old.conn.now tx.new.conn.now result }
    ensures kept { CommitsNothing S.Store tx.old.conn.now tx.new.conn.now }
    ensures survives { Spares S.Store tx.old.conn.now tx.new.conn.now }
{
    let officer = officer_of(alloc, tx, kept_person, &person.name)?;
    if let Err(refusal) = officer {
        return Ok(Err(refusal));
    }
    let text = lines_after(alloc, tx, calls_before(number))?;
    let lines = Octets::new(text);
    Ok(Ok(Shown::Minutes(lines)))
}
