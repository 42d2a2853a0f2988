//! Questions about a desk's history, each answered by reads in a transaction that is rolled back.
ghost use Rattle.std.specs.Prelude.{◌≡◌, ℕ, List, IfErr, IfOk};
ghost use Rattle.sqlite.specs.Held.{state};
ghost use Rattle.sqlite.specs.State.{HasCleanDisk};
ghost use Rattle.store_schema.specs.rows.Histories.{ShowsHistory};
ghost use Rattle.desk_history.specs.Calls.{History};
ghost use Rattle.desk_history.specs.Formed.{IsHistory};
ghost use Rattle.store_exports.specs.Exporting.{StaysOf};
ghost use Rattle.store_reads.specs.Failures.{IsFailure};
ghost use Rattle.store_sql.specs.States.{DoesInside, CommitsNothing, Spares, StaysInside};
ghost use Rattle.store_desk.specs.Desks.{ForEachShown, ReadsDesk};
ghost use Rattle.store_desk.specs.Questions.{AnswersQuestion};

use crate::desk::Desk;
use base::Refusal;
use sqlite::{Alter, Connection, Transaction};
use std::alloc::Global;

/// A question about the history that a desk shows.
pub(crate) trait Question {
    /// The type of its answer.
    type Answer;

    /// The meaning of an answer for a history, with the desk's owner.
    ghost tells: { Self → Self.Answer → List ℕ → History → Type 0 };

    /// The property of an answer on any store.
    ghost bounds: { Self → Self.Answer → Type 0 };

    /// Reads the answer. Nothing changes.
    fn read<S: Alter>(
        &self,
        alloc: Global,
        tx: &mut Transaction<'_, S>,
    ) -> Result<Self::Answer, Refusal>
        ensures same_reference { tx.new.conn.ghost_name ≡ tx.old.conn.ghost_name }
        ensures value { DoesInside S.Store tx.old.conn.now tx.new.conn.now result
            (λ answer. AnswersQuestion (tells self.now answer)) }
        ensures bound { IfOk result (bounds self.now) }
        ensures inside { StaysInside S.Store tx.old.conn.now tx.new.conn.now result }

        ensures failed { IfErr result IsFailure }

        ensures kept { CommitsNothing S.Store tx.old.conn.now tx.new.conn.now }
        ensures survives { Spares S.Store tx.old.conn.now tx.new.conn.now };
}

/// The answer to the question. It commits nothing.
pub(crate) fn ask<S: Alter, Q: Question>(
    alloc: Global,
    conn: &mut Connection<S>,
    question: &Q,
) -> Result<Q::Answer, Refusal>
    ensures ok { HasCleanDisk (state S.Store conn.new) → IfOk result (λ answer.
        (owner : List ℕ) (cs : History) → IsHistory cs
        → ShowsHistory (state S.Store conn.old) owner cs
        → Q.Question.tells question.now answer owner cs) }
    ensures bound { IfOk result (Q.Question.bounds question.now) }
    ensures same { HasCleanDisk (state S.Store conn.new) → (owner : List ℕ) (cs : History)
        → ShowsHistory (state S.Store conn.old) owner cs
        → ShowsHistory (state S.Store conn.new) owner cs }
    ensures failed { IfErr result IsFailure }
    ensures stays { StaysOf (state S.Store conn.old) (state S.Store conn.new) }
    ensures survives { Spares S.Store conn.old conn.new }
{
    if !conn.is_autocommit() {
        return Err(Refusal::Store);
    }
    let mut tx = conn.transaction();
    let read = question.read(alloc, &mut tx);
    tx.rollback();
    read
}

impl<S: Alter + Drop> Desk<S> {
    /// The answer to the question. Nothing changes.
    pub(crate) fn answer_question<Q: Question>(
        &mut self,
        question: &Q,
    ) -> Result<Q::Answer, Refusal>
        ensures shown { HasCleanDisk (state S.Store self.new.conn) → IfOk result (λ answer.
            ForEachShown S.Store self.old (Q.Question.tells question.now answer)) }
        ensures bound { IfOk result (Q.Question.bounds question.now) }
        ensures reads { ReadsDesk S.Store IsFailure self.old self.new result }
        ensures stays { StaysOf (state S.Store self.old.conn) (state S.Store self.new.conn) }
    {
        if self.needs_reopening {
            return Err(Refusal::Reopen);
        }
        match ask(self.alloc, &mut self.conn, question) {
            Ok(answer) => Ok(answer),
            Err(failure) => {
                self.needs_reopening = failure == Refusal::Store;
                Err(failure)
            }
        }
    }
}
