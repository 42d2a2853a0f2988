//! A pass over the calls, one at a time.
ghost use Rattle.std.specs.Prelude.{◌≡◌, ⊤, IfErr, IfOk, OnOk, Some};
ghost use Rattle.sqlite.specs.Held.{state};
ghost use Rattle.sqlite.specs.State.{HasCleanDisk};
ghost use Rattle.store_reads.specs.Failures.{IsFailure};
ghost use Rattle.store_exports.specs.Exporting.{StaysOf};
ghost use Rattle.store_sql.specs.States.{Spares};
ghost use Rattle.store_impacts.specs.Passing.{request_after};
ghost use Rattle.store_impacts.specs.Steps.{SeesCall, with_image};
ghost use Rattle.store_impacts.specs.Touching.{TouchesOf};

use crate::TouchedImage;
use crate::passed::{BroughtImage, passed_in};
use base::Refusal;
use desk_history::{Standing, WhichFile, bars};
use desk_types::RequestNumber;
use sqlite::{Alter, Connection, Row};
use std::alloc::Global;
use store_exports::{number_at, text_at};
use store_reads::ReadFault;
use store_schema::SELECT_CALLS;
use store_sql::{Halt, TakesRow, stream};

/// A pass over the calls: the entries, how many requests came by, and the images that the entries
/// alone bar.
#[derive(Drop)]
pub(crate) struct Pass<'a, E> {
    alloc: Global,
    entries: &'a E,
    requests: u64,
    kept: Vec<TouchedImage>,
}

/// The request of the image after so many requests: the one that its command names, or the next.
/// `Row`: no request can have that number.
fn request_of(requests: u64, passed: &BroughtImage) -> Result<RequestNumber, ReadFault>
    ensures { IfOk result (λ number. number ≡ request_after requests passed.now) }
{
    if let Some(number) = passed.named {
        return Ok(number);
    }
    let Some(next) = requests.checked_add(1) else {
        return Err(ReadFault::Row);
    };
    match RequestNumber::new(next) {
        Some(number) => Ok(number),
        None => Err(ReadFault::Row),
    }
}

impl<E: Standing> Pass<'_, E> {
    /// Sees the image of the call of this number, and keeps it if the entries bar it.
    fn see(&mut self, call: u64, passed: &BroughtImage) -> Result<(), ReadFault>
        ensures entries { self.new.entries.now ≡ self.old.entries.now }
        ensures value { OnOk result (
            record { requests = self.new.requests; kept = self.new.kept.items }
            ≡ with_image (E.Standing.standing self.old.entries.now) call
            (record { requests = self.old.requests; kept = self.old.kept.items })
            (Some passed.now)) }
    {
        let request = request_of(self.requests, passed)?;
        let file = passed.file();
        match file {
            WhichFile::Submitted => self.requests = request.value(),
            WhichFile::Returned => {}
        }
        if !bars(self.entries, &passed.facts) {
            return Ok(());
        }
        let image = TouchedImage {
            call,
            request,
            file,
        };
        match self.kept.push(image) {
            Ok(()) => Ok(()),
            Err(_) => Err(ReadFault::NoMemory),
        }
    }
}

impl<E: Standing> TakesRow for Pass<'_, E> {
    type Fault = ReadFault;

    ghost takes = { λ old row new. (new.entries.now ≡ old.entries.now)
        × SeesCall (E.Standing.standing old.entries.now) row
        (record { requests = old.requests; kept = old.kept.items })
        (record { requests = new.requests; kept = new.kept.items }) };

    ghost gives_up = { λ _ _ _. ⊤ };

    fn take(&mut self, row: &Row) -> Result<(), ReadFault> {
        let number = number_at(row, 0)?;
        let text = text_at(row, 3)?;
        let Some(passed) = passed_in(self.alloc, text)? else {
            return Ok(());
        };
        self.see(number, &passed)
    }
}

/// The images that the entries bar by themselves, in the order of the calls that brought them, in
/// one pass over the calls. Each call is read as the store gives it, and none is kept. Only texts
/// of Submit and Return are parsed. Takes memory for the facts of one image, and for what is
/// returned.
///
/// `NoMemory`: memory was refused, to the desk or to the store. `Store`: the store failed, or isn't
/// as a desk left it.
pub fn touched_images<S: Alter, E: Standing>(
    alloc: Global,
    conn: &mut Connection<S>,
    entries: &E,
) -> Result<Vec<TouchedImage>, Refusal>
    ensures ok { HasCleanDisk (state S.Store conn.new)
        → IfOk result (λ found. TouchesOf (state S.Store conn.old)
        (E.Standing.standing entries.now) found.items) }
    ensures named { IfErr result IsFailure }

    ensures same { StaysOf (state S.Store conn.old) (state S.Store conn.new) }
    ensures spares { Spares S.Store conn.old conn.new }
    ensures clean { HasCleanDisk (state S.Store conn.new) → HasCleanDisk (state S.Store conn.old) }
{
    let mut pass = Pass {
        alloc,
        entries,
        requests: 0,
        kept: Vec::new(alloc),
    };
    match stream(conn, SELECT_CALLS, &[], &mut pass) {
        Ok(()) => Ok(pass.kept),
        Err(Halt::Store(error)) => Err(ReadFault::from(error).refusal()),
        Err(Halt::Taker(fault)) => Err(fault.refusal()),
    }
}
