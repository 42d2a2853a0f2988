//! What a person is shown of a desk, by what the person asks to read.
ghost use Rattle.std.specs.Prelude.{◌≡◌, ◌⊎◌, ℕ, List, Err, Ok, true};
ghost use Rattle.desk_exports.specs.Readings.{IsShownTo};
ghost use Rattle.desk_history.specs.Calls.{History};
ghost use Rattle.store_desk.specs.Showing.{GivesDue, IsReadingRefusal, IsReopened, ReadsOnly};
ghost use Rattle.store_desk.specs.Showing.{RefusesDue};

use crate::desk::Desk;
use base::Refusal;
use desk_exports::{Reading, RequestList, Shown};
use desk_history::ShownPerson;
use desk_types::{Caller, Person};
use sqlite::Alter;

impl<S: Alter + Drop> Desk<S> {
    /// What the person is shown of the desk (`IsShownTo`). Nothing is changed. Requests are
    /// collected into an `L`, one after another, ascending by number. Takes memory for what is
    /// shown, and:
    ///
    /// - `RequestsWith`: for a flag for each request of the desk;
    /// - `Proposals`, `ProposalsFrom`, `Waiting`: for all that one proposal names at a time;
    /// - `Changes`: for the votes on one request at a time;
    /// - `Impact`, `Export`, `Report`: as `impact`, `export` into memory and `report` do.
    ///
    /// A part that begins at a number reads no row before it, and of requests and proposals none
    /// after the last that is given. The report is for officers: anybody else gets `NotYourRole`,
    /// even from a desk that has to be opened again; and such a desk gives everybody the own name
    /// and role.
    ///
    /// `UnknownCaller`: nobody has the person's name. `NotYourRole`: a reading for officers, who
    /// alone are shown proposals, impacts, the report, minutes and people, and the person is none.
    /// `NoSuchRequest`: no request has the number, or the person is a submitter and the request is
    /// another person's; the answer is the same. `NoSuchProposal`: no proposal has the number.
    /// `ProposalClosed`, `AlreadyRevoked`, `NotHigher`, `StampNotLater`, `Full`: as `impact` says.
    /// `NoMemory`: memory was refused. `Store`: the store failed, or isn't as a desk left it.
    /// `Reopen`: an earlier call answered `Store`.
    pub fn read<L: RequestList + Drop>(
        &mut self,
        person: Person,
        reading: Reading,
    ) -> Result<Shown<L>, Refusal>
        ensures shown { GivesDue S.Store self.old self.new result (λ owner cs.
            IsShownTo L.RequestList.holds owner cs person reading) }
        ensures refused { RefusesDue S.Store self.old self.new result (λ owner cs.
            IsShownTo L.RequestList.holds owner cs person reading) }
        ensures reads { ReadsOnly S.Store (IsReadingRefusal reading) self.old self.new result }
        ensures closed { self.old.needs_reopening ≡ true → (IsReopened result
            ⊎ ((owner : List ℕ) (cs : History)
            → IsShownTo L.RequestList.holds owner cs person reading result))
            × (self.new ≡ self.old) }
    {
        match reading {
            Reading::Impact(number) => self.show_impact(&Caller::Person(person.name), number),
            Reading::Export(what) => self.show_export(what),
            Reading::Report => self.show_report(person.role),
            Reading::Me => Ok(Shown::Me(ShownPerson {
                name: person.name,
                role: person.role,
            })),
            Reading::Requests
            | Reading::RequestsFrom(_)
            | Reading::RequestsWith(_)
            | Reading::Request(_)
            | Reading::Proposals
            | Reading::ProposalsFrom(_)
            | Reading::Proposal(_)
            | Reading::Waiting
            | Reading::Changes
            | Reading::Minutes(_)
            | Reading::People => self.show(&person, reading),
        }
    }
}
