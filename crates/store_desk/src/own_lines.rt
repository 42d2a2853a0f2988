//! The owner of a desk's exports, and its minutes line by line, for whoever has the desk.
ghost use Rattle.std.specs.Prelude.{◌≡◌, ⊤, IfOk};
ghost use Rattle.sqlite.specs.Held.{state};
ghost use Rattle.sqlite.specs.State.{HasCleanDisk};
ghost use Rattle.store_reads.specs.Failures.{IsFailure};
ghost use Rattle.store_shown.specs.Lines.{IsLineOf};
ghost use Rattle.store_desk.specs.Desks.{ForEachShown, ReadsDesk};

use crate::asking::Question;
use crate::desk::Desk;
use base::{Guid, Refusal};
use sqlite::{Alter, Transaction};
use std::alloc::Global;
use store_shown::line_numbered;

/// What is the line of the call of this number?
#[derive(Drop)]
pub(crate) struct LineNumbered {
    pub(crate) number: u64,
}

impl Question for LineNumbered {
    type Answer = Vec<u8>;

    ghost tells = { λ q text owner cs. IsLineOf cs q.number text.items };

    ghost bounds = { λ _ _. ⊤ };

    fn read<S: Alter>(
        &self,
        alloc: Global,
        tx: &mut Transaction<'_, S>,
    ) -> Result<Vec<u8>, Refusal> {
        match line_numbered(alloc, tx, self.number) {
            Ok(given) => Ok(given),
            Err(fault) => Err(fault.refusal()),
        }
    }
}

impl<S: Alter + Drop> Desk<S> {
    /// The owner of each entry that it exports.
    pub fn owner(&self) -> Guid
        ensures { result ≡ self.now.owner }
    {
        self.owner
    }

    /// The line of the minutes of this number, counted from 1; nothing, if the desk has fewer
    /// calls. The call is read by its number. Nothing is changed. Takes memory for the line.
    ///
    /// `NoMemory`: memory was refused. `Store`: the number is above 2^63 - 1, or the store failed, or
    /// isn't as a desk left it. `Reopen`: an earlier call answered `Store`.
    pub fn line(&mut self, number: u64) -> Result<Vec<u8>, Refusal>
        ensures shown { HasCleanDisk (state S.Store self.new.conn) → IfOk result (λ text.
            ForEachShown S.Store self.old (λ owner cs. IsLineOf cs number text.items)) }
        ensures reads { ReadsDesk S.Store IsFailure self.old self.new result }
    {
        self.answer_question(&LineNumbered { number })
    }
}
