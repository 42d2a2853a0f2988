//! What a person is shown of a desk beside answers to questions: an impact, exports, the report.
ghost use Rattle.std.specs.Prelude.{◌≡◌, ◌≢◌, ◌⊎◌, IfOk, Ok, true};
ghost use Rattle.std.specs.Prelude.{string_bytes};
ghost use Rattle.sqlite.specs.Held.{state};
ghost use Rattle.sqlite.specs.State.{HasCleanDisk};
ghost use Rattle.desk_exports.specs.Exports.{exported};
ghost use Rattle.desk_exports.specs.Published.{export_of};
ghost use Rattle.desk_exports.specs.Readings as told;
ghost use Rattle.desk_exports.specs.Reports as reports;
ghost use Rattle.desk_exports.specs.declared.reading.Reading.TheVariants as read;
ghost use Rattle.desk_history.specs.Calls.{History};
ghost use Rattle.desk_history.specs.ImpactShown.{impact_for};
ghost use Rattle.desk_history.specs.Shown.{IsGiven};
ghost use Rattle.store_reads.specs.Failures.{IsFailure};
ghost use Rattle.store_desk.specs.Desks.{ForEachShown, ReadsDesk};
ghost use Rattle.store_desk.specs.Showing.{GivesDue, IsReadingRefusal, IsReopened, ReadsOnly};
ghost use Rattle.store_desk.specs.Showing.{RefusesDue};

use crate::desk::Desk;
use base::Refusal;
use desk_exports::{Export, Octets, Published, RequestList, Shown};
use desk_types::{Caller, ProposalNumber, Role};
use sqlite::Alter;
use store_counts::report_is_the_history;
use store_shown::is_officer;

/// The refusal of an export into memory: a vector takes each byte unless memory is refused.
fn into_memory(refusal: Refusal) -> Refusal
    ensures write { refusal ≡ Refusal.Write → result ≡ Refusal.NoMemory }
    ensures other { refusal ≢ Refusal.Write → result ≡ refusal }
    ensures store { result ≡ Refusal.Store → refusal ≡ Refusal.Store }
{
    if refusal == Refusal::Write {
        return Refusal::NoMemory;
    }
    refusal
}

impl<S: Alter + Drop> Desk<S> {
    /// The impact of the proposal of this number.
    pub(crate) fn show_impact<L: RequestList + Drop>(
        &mut self,
        caller: &Caller,
        number: ProposalNumber,
    ) -> Result<Shown<L>, Refusal>
        ensures shown { GivesDue S.Store self.old self.new result (λ _ cs given.
            IsGiven (impact_for cs caller.now number) given
            (told.GivesImpact L.RequestList.holds number)) }
        ensures refused { RefusesDue S.Store self.old self.new result (λ _ cs given.
            IsGiven (impact_for cs caller.now number) given
            (told.GivesImpact L.RequestList.holds number)) }
        ensures reads { ReadsOnly S.Store (IsReadingRefusal (read.Impact number))
            self.old self.new result }
        ensures closed { self.old.needs_reopening ≡ true
            → IsReopened result × (self.new ≡ self.old) }
    {
        match self.impact(caller, number) {
            Ok(impact) => Ok(Shown::Impact(number, impact)),
            Err(refusal) => Err(refusal),
        }
    }

    /// The bytes of an export.
    fn octets_of(&mut self, what: Export) -> Result<Octets, Refusal>
        ensures shown { HasCleanDisk (state S.Store self.new.conn) → IfOk result (λ bytes.
            ForEachShown S.Store self.old (λ owner cs. bytes ≡ exported what owner cs)) }
        ensures reads { ReadsOnly S.Store IsFailure self.old self.new result }
        ensures closed { self.old.needs_reopening ≡ true
            → IsReopened result × (self.new ≡ self.old) }
    {
        let mut bytes = Vec::new(self.alloc);
        match self.export(what, &mut bytes) {
            Ok(()) => Ok(Octets::new(bytes)),
            Err(refusal) => Err(into_memory(refusal)),
        }
    }

    /// An export, which everybody is shown.
    pub(crate) fn show_export<L: RequestList + Drop>(
        &mut self,
        what: Published,
    ) -> Result<Shown<L>, Refusal>
        ensures shown { GivesDue S.Store self.old self.new result (λ owner cs given.
            given ≡ Ok (Shown.Export what (exported (export_of what) owner cs))) }
        ensures refused { RefusesDue S.Store self.old self.new result (λ owner cs given.
            given ≡ Ok (Shown.Export what (exported (export_of what) owner cs))) }
        ensures reads { ReadsOnly S.Store (IsReadingRefusal (read.Export what))
            self.old self.new result }
        ensures closed { self.old.needs_reopening ≡ true
            → IsReopened result × (self.new ≡ self.old) }
    {
        match self.octets_of(what.export()) {
            Ok(bytes) => Ok(Shown::Export(what, bytes)),
            Err(refusal) => Err(refusal),
        }
    }

    /// The report of the desk's counts, fourteen lines of text. Nothing changes. Takes memory.
    ///
    /// `NoMemory`: memory was refused. `Store`: the store failed, or isn't as a desk left it.
    /// `Reopen`: an earlier call answered `Store`.
    pub fn report(&mut self) -> Result<String, Refusal>
        ensures shown { HasCleanDisk (state S.Store self.new.conn) → IfOk result (λ text.
            ForEachShown S.Store self.old (λ _ cs. string_bytes text ≡ reports.report cs)) }
        ensures reads { ReadsDesk S.Store IsFailure self.old self.new result }
        ensures before { HasCleanDisk (state S.Store self.new.conn)
            → HasCleanDisk (state S.Store self.old.conn) }
    {
        report_is_the_history();
        let counts = match self.counts() {
            Ok(counts) => counts,
            Err(refusal) => return Err(refusal),
        };
        match store_counts::report(self.alloc, &counts) {
            Ok(text) => Ok(text),
            Err(_) => Err(Refusal::NoMemory),
        }
    }

    /// The report, for a person of this role.
    pub(crate) fn show_report<L: RequestList + Drop>(
        &mut self,
        role: Role,
    ) -> Result<Shown<L>, Refusal>
        ensures shown { GivesDue S.Store self.old self.new result (λ _ cs given.
            given ≡ told.report_to L.RequestList.holds role cs) }
        ensures refused { RefusesDue S.Store self.old self.new result (λ _ cs given.
            given ≡ told.report_to L.RequestList.holds role cs) }
        ensures reads { ReadsOnly S.Store (IsReadingRefusal read.Report) self.old self.new result }
        ensures closed { self.old.needs_reopening ≡ true
            → (IsReopened result ⊎ ((cs : History)
            → result ≡ told.report_to L.RequestList.holds role cs)) × (self.new ≡ self.old) }
    {
        if !is_officer(role) {
            return Err(Refusal::NotYourRole);
        }
        match self.report() {
            Ok(text) => Ok(Shown::Report(Octets::new(text.into_bytes()))),
            Err(refusal) => Err(refusal),
        }
    }
}
