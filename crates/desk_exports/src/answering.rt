//! Desks that answer.
ghost use Rattle.std.specs.Prelude.{◌≡◌, ◌≢◌, ◌⊎◌, ℕ, List, Err, IfErr, IfOk, IsTrue, Ok, Some};
ghost use Rattle.desk_history.specs.Called.{called};
ghost use Rattle.desk_history.specs.Calls.{History};
ghost use Rattle.desk_history.specs.DecisionRefusals.{may_answer};
ghost use Rattle.desk_history.specs.Runs.{answer, next, reply_in};
ghost use Rattle.desk_history.specs.Verdicts as verdicts;
ghost use Rattle.desk_history.specs.declared.answer.Answer.TheVariants as ruled;
ghost use Rattle.desk_exports.specs.Desks.{FailsSafely, ForEachShown, IsOutage, IsReadingRefusal};
ghost use Rattle.desk_exports.specs.Desks.{IsReopened, IsShut, LeavesShown, StillShows};
ghost use Rattle.desk_exports.specs.Desks.{person_with};
ghost use Rattle.desk_exports.specs.Readings.{IsShownTo};

use crate::reading::Reading;
use crate::request_list::RequestList;
use crate::shown::Shown;
use base::{Digest, Refusal};
use desk_history::Verdict;
use desk_types::{Caller, Command, Facts, Key, Person, Reply};

/// A desk that answers for a history of accepted calls. What its clauses say of the history holds
/// where the disk has kept its promise until the end of the call.
///
/// Each call may fail: `NoMemory` where memory was refused, which changes nothing; `Store` where
/// the store failed, after which the desk has failed; `Reopen` from then on, and nothing is done.
/// Whatever its outcome, a stop after it leaves the history that the desk showed, or the one after
/// the call of a command.
pub trait AnswersCalls {
    /// The desk answers for this history, with this owner of the entries that it exports.
    ghost shows: { Self → List ℕ → History → Type 0 };

    /// The disk has returned what was written, so far.
    ghost clean: { Self → Type 0 };

    /// The store failed in a call before: the desk has to be opened again.
    ghost failed: { Self → Type 0 };

    /// A stop leaves, with this owner, one of these two histories.
    ghost leaves: { Self → List ℕ → History → History → Type 0 };

    /// The person whose token has this SHA-256, if there is one.
    fn person_of(&mut self, token: &Digest) -> Result<Option<Person>, Refusal>
        ensures given { clean self.new → IfOk result (λ person. ForEachShown (shows self.old)
            (λ _ cs. person ≡ person_with token.now cs)) }
        ensures same { clean self.new → result ≢ Err Refusal.Store
            → StillShows (shows self.old) (shows self.new) }
        ensures stopped { LeavesShown (shows self.old) (leaves self.new) }
        ensures fails { FailsSafely shows clean failed IsOutage IsReopened
            self.old self.new result };

    /// Answers the call of a command: an accepted one joins the history. A refusal by the rules
    /// changes nothing. After `Store` a stop leaves the history before the call or the one after it.
    fn apply(&mut self, caller: &Caller, key: &Key, command: &Command) -> Result<Reply, Refusal>
        ensures given { clean self.new → IfOk result (λ reply.
            ForEachShown (shows self.old) (λ owner cs.
            (reply_in (answer cs (called caller.now key.now command.now)) ≡ Some reply)
            × shows self.new owner (next cs (called caller.now key.now command.now)))) }
        ensures refused { clean self.new → IfErr result (λ refusal. refusal ≢ Refusal.NoMemory
            → refusal ≢ Refusal.Store → ForEachShown (shows self.old) (λ _ cs.
            answer cs (called caller.now key.now command.now) ≡ ruled.Refused refusal)) }
        ensures same { clean self.new → IfErr result (λ refusal. refusal ≢ Refusal.Store
            → StillShows (shows self.old) (shows self.new)) }
        ensures stopped { ForEachShown (shows self.old) (λ owner cs. leaves self.new owner cs
            (next cs (called caller.now key.now command.now))) }
        ensures fails { FailsSafely shows clean failed
            (λ refusal. IsTrue (may_answer refusal) ⊎ IsOutage refusal) IsReopened
            self.old self.new result };

    /// What the desk says of the image.
    fn verdict(&mut self, facts: &Facts) -> Result<Verdict, Refusal>
        ensures given { clean self.new → IfOk result (λ said. ForEachShown (shows self.old)
            (λ _ cs. said ≡ verdicts.verdict cs facts.now)) }
        ensures same { clean self.new → result ≢ Err Refusal.Store
            → StillShows (shows self.old) (shows self.new) }
        ensures stopped { LeavesShown (shows self.old) (leaves self.new) }
        ensures fails { FailsSafely shows clean failed IsOutage IsReopened
            self.old self.new result };

    /// What the person is shown: a read changes nothing. Requests are collected into an `L`. A desk
    /// that has failed may still give what is due at any history, for example the person's own name
    /// and role, or `NotYourRole` for the report.
    fn read<L: RequestList + Drop>(
        &mut self,
        person: Person,
        reading: Reading,
    ) -> Result<Shown<L>, Refusal>
        ensures given { clean self.new → IfOk result (λ shown. ForEachShown (shows self.old)
            (λ owner cs. IsShownTo L.RequestList.holds owner cs person reading (Ok shown))) }
        ensures refused { clean self.new → IfErr result (λ refusal. refusal ≢ Refusal.NoMemory
            → refusal ≢ Refusal.Store → ForEachShown (shows self.old)
            (λ owner cs. IsShownTo L.RequestList.holds owner cs person reading (Err refusal))) }
        ensures same { clean self.new → result ≢ Err Refusal.Store
            → StillShows (shows self.old) (shows self.new) }
        ensures stopped { LeavesShown (shows self.old) (leaves self.new) }
        ensures fails { FailsSafely shows clean failed (IsReadingRefusal reading)
            (IsShut L.RequestList.holds person reading) self.old self.new result };

    /// A stop leaves the history that the desk shows.
    ghost rests: { (desk : Self) (owner : List ℕ) (cs : History) → shows desk owner cs
        → leaves desk owner cs cs };
}
