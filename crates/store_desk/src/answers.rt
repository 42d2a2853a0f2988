//! Answers of a desk: people by their tokens, verdicts, and counts.
ghost use Rattle.std.specs.Prelude.{◌≡◌, Some, filter, IfOk, IfSome, option_copied};
ghost use Rattle.sqlite.specs.Held.{state};
ghost use Rattle.sqlite.specs.State.{HasCleanDisk};
ghost use Rattle.store_counts.specs.Counts.{CountHistory};
ghost use Rattle.desk_history.specs.People.{has_token, people};
ghost use Rattle.desk_history.specs.Verdicts as verdicts;
ghost use Rattle.store_reads.specs.Failures.{IsFailure};
ghost use Rattle.store_reads.specs.Reads.{listed};
ghost use Rattle.store_desk.specs.Desks.{ForEachShown, ReadsDesk};

use crate::desk::Desk;
use crate::questions::{HowMany, WhoHas};
use base::{Digest, Refusal};
use desk_history::Verdict;
use desk_rules::verdict;
use desk_types::{Facts, Person};
use sqlite::Alter;
use store_counts::{Counts, tables_count_their_history};

/// A copy of the person, if there is one and memory for it.
fn copy_of(person: Option<&Person>) -> Option<Person>
    ensures { IfSome result (λ copy. option_copied person.entry ≡ Some copy) }
{
    match person?.clone() {
        Ok(copy) => Some(copy),
        Err(_) => None,
    }
}

impl<S: Alter + Drop> Desk<S> {
    /// The person whose token has this SHA-256, if there is one. The desk remembers the person for
    /// the next call with a caller, which doesn't look them up again. Takes memory for the row, and
    /// for a copy; without that copy the next call reads the row.
    ///
    /// `NoMemory`: memory was refused. `Store`: the store failed, or isn't as a desk left it.
    /// `Reopen`: an earlier call answered `Store`.
    pub fn person_of(&mut self, token: &Digest) -> Result<Option<Person>, Refusal>
        ensures shown { HasCleanDisk (state S.Store self.new.conn) → IfOk result (λ person.
            ForEachShown S.Store self.old (λ owner cs.
            filter (has_token token.now) (people cs) ≡ listed person)) }
        ensures reads { ReadsDesk S.Store IsFailure self.old self.new result }
    {
        let found = match self.answer_question(&WhoHas { token }) {
            Ok(found) => found,
            Err(refusal) => return Err(refusal),
        };
        self.remembered.person = copy_of(found.as_ref());
        Ok(found)
    }

    /// The desk's verdict on the image. It reads only the rows that the facts name. Takes memory
    /// for them.
    ///
    /// `NoMemory`: memory was refused. `Store`: the store failed, or isn't as a desk left it.
    /// `Reopen`: an earlier call answered `Store`.
    pub fn verdict(&mut self, facts: &Facts) -> Result<Verdict, Refusal>
        ensures shown { HasCleanDisk (state S.Store self.new.conn) → IfOk result (λ said.
            ForEachShown S.Store self.old (λ owner cs. said ≡ verdicts.verdict cs facts.now)) }
        ensures reads { ReadsDesk S.Store IsFailure self.old self.new result }
    {
        match self.list_view(facts) {
            Ok(view) => Ok(verdict(&view, facts)),
            Err(refusal) => Err(refusal),
        }
    }

    /// The counts of the desk. It visits every row of the counted tables. Takes memory for the
    /// desk's own row.
    ///
    /// `NoMemory`: memory was refused. `Store`: the store failed, or isn't as a desk left it.
    /// `Reopen`: an earlier call answered `Store`.
    pub fn counts(&mut self) -> Result<Counts, Refusal>
        ensures shown { HasCleanDisk (state S.Store self.new.conn) → IfOk result (λ n.
            ForEachShown S.Store self.old (λ owner cs. CountHistory n cs)) }
        ensures reads { ReadsDesk S.Store IsFailure self.old self.new result }
    {
        tables_count_their_history();
        self.answer_question(&HowMany)
    }
}
