//! The impact of a proposal: what a Confirm of it by another officer would do.
ghost use Rattle.std.specs.Prelude.{◌≡◌, ◌≢◌, ⊤, [], Err, None, IfErr, IfOk, IsTrue, MatchResult};
ghost use Rattle.std.specs.Prelude.{find, option_copied};
ghost use Rattle.sqlite.specs.Held.{state};
ghost use Rattle.sqlite.specs.State.{HasCleanDisk};
ghost use Rattle.desk_history.specs.ImpactShown.{ShowsImpact, impact_for};
ghost use Rattle.desk_history.specs.People.{people};
ghost use Rattle.desk_history.specs.Tables.{tables};
ghost use Rattle.desk_rules.specs.Entries.{held_standing};
ghost use Rattle.desk_rules.specs.Foreseen.{may_foresee};
ghost use Rattle.desk_rules.specs.Shown.{is_proposal_row};
ghost use Rattle.store_exports.specs.Exporting.{StaysOf};
ghost use Rattle.store_impacts.specs.Reading as reading;
ghost use Rattle.store_impacts.specs.Touching as touching;
ghost use Rattle.store_reads.specs.Failures.{IsFailure};
ghost use Rattle.store_reads.specs.People.{IsOneOf};
ghost use Rattle.store_sql.specs.States.{CommitsNothing, DoesInside, Spares, StaysInside};
ghost use Rattle.store_decision_rows.specs.remembered.Current.{IsCurrent};
ghost use Rattle.store_desk.specs.Desks.{ForEachShown, ReadsDesk};
ghost use Rattle.store_desk.specs.Impacts.{AreBarredBy, GivesOutlook, IsAnswer, IsImpactRefusal};
ghost use Rattle.store_desk.specs.Impacts.{LooksAhead, OnAnswer, ShowsConfirm, TellsOutlook};
ghost use Rattle.store_desk.specs.Questions.{AnswersQuestion};

use crate::asking::Question;
use crate::desk::Desk;
use crate::questions::Viewed;
use base::Refusal;
use desk_history::{BarredImage, ProposalRow, ShownImpact};
use desk_rules::{Entries, Foreseen, View, foresee};
use desk_types::{Caller, Person, ProposalNumber};
use sqlite::{Alter, Transaction};
use std::alloc::Global;
use store_decision_rows::{KnownSizes, Remembered, view_to_confirm};
use store_impacts::{TouchedImage, barred_images, refusal_to, touched_images, untouched_bars_none};

/// What is known of an impact before the images are looked for: its counts, the length of dbx, and
/// the proposal's entries.
#[derive(Drop)]
pub(crate) struct Outlook {
    pub(crate) foreseen: Foreseen,
    pub(crate) entries: Entries,
}

/// An answer about a proposal, and the sizes that are known since its rows were read.
#[derive(Drop)]
pub(crate) struct Told {
    pub(crate) given: Result<Outlook, Refusal>,
    pub(crate) sizes: KnownSizes,
}

/// What would a Confirm of this proposal add, where this caller, who may be the one who is remembered,
/// asks?
#[derive(Drop)]
pub(crate) struct Foretelling<'a> {
    pub(crate) remembered: Remembered,
    pub(crate) person: &'a Option<Person>,
    pub(crate) caller: &'a Caller,
    pub(crate) number: ProposalNumber,
}

/// The row of the proposal of this number, if it is in the view.
fn row_in(view: &View, number: ProposalNumber) -> Option<&ProposalRow>
    ensures { option_copied result ≡ find (is_proposal_row number) view.now.proposals.items }
{
    view.proposals.iter().find(|row| number == row.number)
}

/// What the view tells of the impact, but for the images.
fn outlook_in(alloc: Global, view: &View, number: ProposalNumber) -> Result<Outlook, Refusal>
    ensures exact { LooksAhead view.now number result }
    ensures only { IfErr result (λ refusal. IsTrue (may_foresee refusal)) }
{
    let Some(row) = row_in(view, number) else {
        return Err(Refusal::NoSuchProposal);
    };
    let foreseen = match foresee(alloc, view, number) {
        Ok(foreseen) => foreseen,
        Err(refusal) => return Err(refusal),
    };
    match Entries::of(alloc, &row.named) {
        Ok(entries) => Ok(Outlook { foreseen, entries }),
        Err(failure) => Err(failure),
    }
}

/// The result, unless it is that memory was refused.
fn unless_no_memory(given: Result<Outlook, Refusal>) -> Result<Result<Outlook, Refusal>, Refusal>
    ensures ok { IfOk result (λ it. (it ≡ given) × (given ≢ Err Refusal.NoMemory)) }
    ensures err { IfErr result (λ refusal. refusal ≡ Refusal.NoMemory) }
{
    match given {
        Ok(outlook) => Ok(Ok(outlook)),
        Err(refusal) => {
            if refusal == Refusal::NoMemory {
                return Err(Refusal::NoMemory);
            }
            Ok(Err(refusal))
        }
    }
}

impl<'a> Foretelling<'a> {
    /// The rows for a Confirm of the proposal, whoever gives it.
    fn rows<S: Alter>(&self, alloc: Global, tx: &mut Transaction<'_, S>) -> Result<Viewed, Refusal>
        ensures same_reference { tx.new.conn.ghost_name ≡ tx.old.conn.ghost_name }
        ensures value { DoesInside S.Store tx.old.conn.now tx.new.conn.now result
            (λ viewed. AnswersQuestion (λ owner cs. IsCurrent self.now.remembered (tables owner cs)
            → ShowsConfirm viewed self.now.number owner cs)) }
        ensures inside { StaysInside S.Store tx.old.conn.now tx.new.conn.now result }
        ensures failed { IfErr result IsFailure }
        ensures kept { CommitsNothing S.Store tx.old.conn.now tx.new.conn.now }
        ensures survives { Spares S.Store tx.old.conn.now tx.new.conn.now }
    {
        let mut remembered = self.remembered.without_person();
        match view_to_confirm(alloc, tx, &mut remembered, self.number) {
            Ok(view) => Ok(Viewed {
                view,
                sizes: remembered.sizes,
            }),
            Err(failure) => Err(failure),
        }
    }

    /// The answer, but for the images, to a caller who may see impacts.
    fn look<S: Alter>(&self, alloc: Global, tx: &mut Transaction<'_, S>) -> Result<Told, Refusal>
        ensures same_reference { tx.new.conn.ghost_name ≡ tx.old.conn.ghost_name }
        ensures value { DoesInside S.Store tx.old.conn.now tx.new.conn.now result
            (λ told. AnswersQuestion (λ owner cs. IsCurrent self.now.remembered (tables owner cs)
            → (reading.refusal_to cs self.now.caller.now ≡ None)
            → TellsOutlook cs self.now.caller.now self.now.number owner told)) }
        ensures bound { IfOk result (λ told. IfErr told.given IsAnswer) }
        ensures inside { StaysInside S.Store tx.old.conn.now tx.new.conn.now result }
        ensures failed { IfErr result IsFailure }
        ensures kept { CommitsNothing S.Store tx.old.conn.now tx.new.conn.now }
        ensures survives { Spares S.Store tx.old.conn.now tx.new.conn.now }
    {
        let viewed = match self.rows(alloc, tx) {
            Ok(viewed) => viewed,
            Err(failure) => return Err(failure),
        };
        match unless_no_memory(outlook_in(alloc, &viewed.view, self.number)) {
            Ok(given) => Ok(Told {
                given,
                sizes: viewed.sizes,
            }),
            Err(failure) => Err(failure),
        }
    }
}

impl<'a> Question for Foretelling<'a> {
    type Answer = Told;

    ghost tells = { λ q told owner cs. IsOneOf q.person.now (people cs)
        → IsCurrent q.remembered (tables owner cs)
        → TellsOutlook cs q.caller.now q.number owner told };

    ghost bounds = { λ _ told. IfErr told.given IsAnswer };

    fn read<S: Alter>(&self, alloc: Global, tx: &mut Transaction<'_, S>) -> Result<Told, Refusal> {
        match refusal_to(alloc, tx, self.person.as_ref(), self.caller) {
            Ok(None) => match self.look(alloc, tx) {
                Ok(told) => Ok(told),
                Err(failure) => Err(failure),
            },
            Ok(Some(refusal)) => Ok(Told {
                given: Err(refusal),
                sizes: self.remembered.sizes,
            }),
            Err(fault) => Err(fault.refusal()),
        }
    }
}

/// Which of the images that the entries bar by themselves, one at least, would a Confirm bar?
#[derive(Drop)]
pub(crate) struct Barring<'a> {
    pub(crate) entries: &'a Entries,
    pub(crate) touched: &'a [TouchedImage],
    ghost some: { touched.now ≢ [] },
}

impl<'a> Question for Barring<'a> {
    type Answer = Vec<BarredImage>;

    ghost tells = { λ q found owner cs. AreBarredBy q.entries.now q.touched.now found.items cs };

    ghost bounds = { λ _ _. ⊤ };

    fn read<S: Alter>(
        &self,
        alloc: Global,
        tx: &mut Transaction<'_, S>,
    ) -> Result<Vec<BarredImage>, Refusal> {
        match barred_images(alloc, tx, self.entries, self.touched) {
            Ok(found) => Ok(found),
            Err(fault) => Err(fault.refusal()),
        }
    }
}

impl<S: Alter + Drop> Desk<S> {
    /// What is known of the impact before the images are looked for. The person who is remembered is used
    /// up.
    fn outlook(&mut self, caller: &Caller, number: ProposalNumber) -> Result<Outlook, Refusal>
        ensures due { HasCleanDisk (state S.Store self.new.conn) → OnAnswer result
            (ForEachShown S.Store self.old (λ owner cs. GivesOutlook cs caller.now number result)) }
        ensures reads { ReadsDesk S.Store IsImpactRefusal self.old self.new result }
        ensures stays { StaysOf (state S.Store self.old.conn) (state S.Store self.new.conn) }
    {
        if self.needs_reopening {
            return Err(Refusal::Reopen);
        }
        let person = self.remembered.person.take();
        let question = Foretelling {
            remembered: self.remembered.without_person(),
            person: &person,
            caller,
            number,
        };
        match self.answer_question(&question) {
            Ok(told) => {
                self.remembered.sizes = told.sizes;
                told.given
            }
            Err(failure) => Err(failure),
        }
    }

    /// The images that the entries bar by themselves.
    fn touched_images(&mut self, entries: &Entries) -> Result<Vec<TouchedImage>, Refusal>
        ensures shown { HasCleanDisk (state S.Store self.new.conn) → IfOk result (λ found.
            ForEachShown S.Store self.old (λ owner cs.
            found.items ≡ touching.touched (held_standing entries.now) cs)) }
        ensures reads { ReadsDesk S.Store IsFailure self.old self.new result }
        ensures stays { StaysOf (state S.Store self.old.conn) (state S.Store self.new.conn) }
    {
        if self.needs_reopening {
            return Err(Refusal::Reopen);
        }
        match touched_images(self.alloc, &mut self.conn, entries) {
            Ok(found) => Ok(found),
            Err(failure) => {
                self.needs_reopening = failure == Refusal::Store;
                Err(failure)
            }
        }
    }

    /// What a Confirm of the proposal of this number by another officer than its proposer would do
    /// now: the images of the desk's accepted calls that it would bar and that aren't barred, the
    /// counts that it would reply, and the length of dbx afterwards. For officers, and for the
    /// console. Nothing is changed. It reads every call, one at a time; an image that no entry of
    /// the proposal touches costs no statement. No key is looked up, and the proposal is read once.
    /// Takes memory for the proposal's entries, for the facts of one image, and for what is shown.
    ///
    /// `UnknownCaller`: nobody has the name. `NotYourRole`: the person is no officer.
    /// `NoSuchProposal`: no proposal has the number. `ProposalClosed`: it isn't open.
    /// `AlreadyRevoked`, `NotHigher`, `StampNotLater`, `Full`: the Confirm would be refused so.
    /// `NoMemory`: memory was refused. `Store`: the store failed, or isn't as a desk left it.
    /// `Reopen`: an earlier call answered `Store`.
    pub fn impact(
        &mut self,
        caller: &Caller,
        number: ProposalNumber,
    ) -> Result<ShownImpact, Refusal>
        ensures shown { HasCleanDisk (state S.Store self.new.conn) → IfOk result (λ shown.
            ForEachShown S.Store self.old (λ owner cs.
            MatchResult (impact_for cs caller.now number) (λ w. ShowsImpact w shown) (λ _. ⊥))) }
        ensures refused { HasCleanDisk (state S.Store self.new.conn) → IfErr result (λ refusal.
            refusal ≢ Refusal.NoMemory → refusal ≢ Refusal.Store
            → ForEachShown S.Store self.old (λ owner cs.
            impact_for cs caller.now number ≡ Err refusal)) }
        ensures reads { ReadsDesk S.Store IsImpactRefusal self.old self.new result }
        ensures stays { StaysOf (state S.Store self.old.conn) (state S.Store self.new.conn) }
    {
        untouched_bars_none();
        let outlook = match self.outlook(caller, number) {
            Ok(outlook) => outlook,
            Err(refusal) => return Err(refusal),
        };
        let touched = match self.touched_images(&outlook.entries) {
            Ok(touched) => touched,
            Err(failure) => return Err(failure),
        };
        if touched.is_empty() {
            return Ok(ShownImpact {
                bars: Vec::new(self.alloc),
                adds: outlook.foreseen.adds,
                dbx: outlook.foreseen.dbx,
            });
        }
        let question = Barring {
            entries: &outlook.entries,
            touched: &touched,
        };
        match self.answer_question(&question) {
            Ok(bars) => Ok(ShownImpact {
                bars,
                adds: outlook.foreseen.adds,
                dbx: outlook.foreseen.dbx,
            }),
            Err(failure) => Err(failure),
        }
    }
}
