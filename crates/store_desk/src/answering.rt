//! A desk in a store, as one that answers calls.
ghost use Rattle.std.specs.Prelude.{◌≡◌, true};
ghost use Rattle.sqlite.specs.Held.{state};
ghost use Rattle.sqlite.specs.State.{HasCleanDisk};
ghost use Rattle.store_desk.specs.Answering.{LeavesOne, rests_one};
ghost use Rattle.store_desk.specs.Desks.{ShowsDesk};

use crate::desk::Desk;
use base::{Digest, Refusal};
use desk_exports::{AnswersCalls, Reading, RequestList, Shown};
use desk_history::Verdict;
use desk_types::{Caller, Command, Facts, Key, Person, Reply, call_is_formed};
use sqlite::Alter;

impl<S: Alter + Drop> AnswersCalls for Desk<S> {
    ghost shows = { λ desk owner cs. ShowsDesk S.Store desk owner cs };

    ghost clean = { λ desk. HasCleanDisk (state S.Store desk.conn) };

    ghost failed = { λ desk. desk.needs_reopening ≡ true };

    ghost leaves = { λ desk owner before after.
        LeavesOne (state S.Store desk.conn) owner before after };

    ghost rests = { λ desk owner cs was. rests_one was };

    fn person_of(&mut self, token: &Digest) -> Result<Option<Person>, Refusal> {
        Desk::person_of(self, token)
    }

    fn apply(&mut self, caller: &Caller, key: &Key, command: &Command) -> Result<Reply, Refusal> {
        call_is_formed(caller, key, command);
        Desk::apply(self, caller, key, command)
    }

    fn verdict(&mut self, facts: &Facts) -> Result<Verdict, Refusal> {
        Desk::verdict(self, facts)
    }

    fn read<L: RequestList + Drop>(
        &mut self,
        person: Person,
        reading: Reading,
    ) -> Result<Shown<L>, Refusal> {
        Desk::read(self, person, reading)
    }
}
