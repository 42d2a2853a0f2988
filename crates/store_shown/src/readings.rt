//! What a person is shown, by what the person asks to read.
ghost use Rattle.std.specs.Prelude.{◌≡◌, option_copied};
ghost use Rattle.store_shown.specs.Telling.{RefusesAs, ShowsTo};
ghost use Rattle.store_sql.specs.States.{DoesInside, CommitsNothing, Spares, StaysInside};

use crate::all_people::people_for_officer;
use crate::changes::changes_of;
use crate::listing::{requests_from, requests_of};
use crate::minute_lines::minutes_from;
use crate::proposed::{proposals_from, proposals_of};
use crate::searching::requests_with;
use crate::showing::request;
use crate::waiting::waiting_of;
use crate::whole_proposal::proposal_for_officer;
use base::Refusal;
use desk_exports::{Reading, RequestList, Shown};
use desk_types::Person;
use sqlite::{Alter, Transaction};
use std::alloc::Global;
use store_reads::ReadFault;

/// What the person is shown, if one transaction can read it; requests are collected into an `L`.
/// The person, of whom only the name counts, isn't looked up if that is `kept_person`, who must be
/// one of the desk's people (`value`). Takes memory for what is shown, and for a search of requests
/// by a digest.
///
/// `Row`: the reading is an impact, an export, the report or the person's own, which need more or
/// less than one transaction; or the rows aren't those that the desk writes.
pub fn shown_to<S: Alter, L: RequestList + Drop>(
    alloc: Global,
    tx: &mut Transaction<'_, S>,
    kept_person: Option<&Person>,
    person: &Person,
    reading: Reading,
) -> Result<Result<Shown<L>, Refusal>, ReadFault>
    ensures same_reference { tx.new.conn.ghost_name ≡ tx.old.conn.ghost_name }
    ensures value { DoesInside S.Store tx.old.conn.now tx.new.conn.now result
        (λ given. ShowsTo L.RequestList.holds (option_copied kept_person.entry) person.now
        reading given) }
    ensures named { RefusesAs reading result }
    ensures inside { StaysInside S.Store tx.old.conn.now tx.new.conn.now result }
    ensures kept { CommitsNothing S.Store tx.old.conn.now tx.new.conn.now }
    ensures survives { Spares S.Store tx.old.conn.now tx.new.conn.now }
{
    match reading {
        Reading::Requests => requests_of(alloc, tx, kept_person, person),
        Reading::RequestsFrom(number) => requests_from(alloc, tx, kept_person, person, number),
        Reading::RequestsWith(digest) => requests_with(alloc, tx, kept_person, person, &digest),
        Reading::Request(number) => request(alloc, tx, kept_person, person, number),
        Reading::Proposals => proposals_of(alloc, tx, kept_person, person),
        Reading::ProposalsFrom(number) => proposals_from(alloc, tx, kept_person, person, number),
        Reading::Proposal(number) => proposal_for_officer(alloc, tx, kept_person, person, number),
        Reading::Waiting => waiting_of(alloc, tx, kept_person, person),
        Reading::Changes => changes_of(alloc, tx, kept_person, person),
        Reading::Minutes(number) => minutes_from(alloc, tx, kept_person, person, number),
        Reading::People => people_for_officer(alloc, tx, kept_person, person),
        Reading::Impact(_) | Reading::Export(_) | Reading::Report | Reading::Me => {
            Err(ReadFault::Row)
        }
    }
}
