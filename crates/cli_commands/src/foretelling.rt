//! The impact of a proposal, written from an open desk, over any store.
ghost use Rattle.std.specs.Prelude.{◌≡◌, ◌≢◌, Err, IfErr, IfOk, IsErrOf, OnErr, OnOk, true};
ghost use Rattle.std.specs.Io.KnownBytes.{Appends};
ghost use Rattle.std.specs.List.{list_any};
ghost use Rattle.sqlite.specs.Held.{state};
ghost use Rattle.sqlite.specs.State.{HasCleanDisk};
ghost use Rattle.base.specs.Output.{AppendsBeginning};
ghost use Rattle.base.specs.declared.refusal.Refusal.TheVariants as refusals;
ghost use Rattle.cli_output.specs.Faults.{IsRow, row_of};
ghost use Rattle.cli_output.specs.ImpactLines.{impact_lines};
ghost use Rattle.store_desk.specs.Desks.{ForEachShown, KeepsDesk};
ghost use Rattle.store_desk.specs.Exports.{SparesDesk, Writes, WritesBeginning};
ghost use Rattle.cli_commands.specs.Faults.{IsForetellingRefusal};
ghost use Rattle.cli_commands.specs.Works.{Foretells, RefusesImpact, foretold_lines, shown_outcome};

use cli_output::{Buffered, Fault, WorkOutcome, print_impact};
use desk_history::ShownImpact;
use desk_types::{Caller, ProposalNumber};
use sqlite::Alter;
use store_desk::Desk;

/// True if the impact has an image that is allowed now.
fn bars_allowed(impact: &ShownImpact) -> bool
    ensures { result ≡ list_any (λ b. b.is_allowed) impact.now.bars.items }
{
    impact.bars.iter().any(|barred| barred.is_allowed)
}

/// The outcome of a subcommand for an impact.
fn outcome(impact: &ShownImpact) -> WorkOutcome
    ensures { result ≡ shown_outcome impact.now }
{
    if bars_allowed(impact) {
        WorkOutcome::Refused
    } else {
        WorkOutcome::Done
    }
}

/// Writes the lines of an impact, and flushes the writer.
fn say_impact<W: Buffered>(impact: &ShownImpact, writer: &mut W) -> Result<(), Fault>
    ensures ok { OnOk result (Appends (W.contents writer.old) (W.contents writer.new)
        (impact_lines impact.now)) }
    ensures flushed { OnOk result (W.flushed writer.new) }
    ensures err { OnErr result (AppendsBeginning (W.contents writer.old) (W.contents writer.new)
        (impact_lines impact.now)) }
    ensures named { IfErr result (λ fault. fault ≡ row_of refusals.Write) }
{
    print_impact(impact, writer)?;
    writer.flush_all()?;
    Ok(())
}

/// Writes the impact of the proposal of this number: a line for each image that another officer's
/// Confirm of it would bar, and the length of dbx afterwards. `Refused`: an image that is allowed
/// now would be barred. After `Write` the writer holds a prefix of the lines; after any other fault
/// it is unchanged. The desk doesn't change.
///
/// `Reopen`: the desk has to be opened again. The other faults are those of `Desk::impact`, and
/// `Write`.
pub fn foretell<S: Alter + Drop, W: Buffered>(
    desk: &mut Desk<S>,
    number: ProposalNumber,
    writer: &mut W,
) -> Result<WorkOutcome, Fault>
    ensures ok { HasCleanDisk (state S.Store desk.new.conn) → OnOk result
        (ForEachShown S.Store desk.old
        (Writes (W.contents writer.old) (W.contents writer.new) (foretold_lines number))) }
    ensures exact { HasCleanDisk (state S.Store desk.new.conn) → IfOk result (λ outcome.
        ForEachShown S.Store desk.old (Foretells number outcome)) }
    ensures flushed { OnOk result (W.flushed writer.new) }

    ensures beginning { HasCleanDisk (state S.Store desk.new.conn) → OnErr result
        (ForEachShown S.Store desk.old
        (WritesBeginning (W.contents writer.old) (W.contents writer.new)
        (foretold_lines number))) }
    ensures refused { HasCleanDisk (state S.Store desk.new.conn) → IfErr result (λ fault.
        fault ≢ row_of refusals.NoMemory → fault ≢ row_of refusals.Store
        → fault ≢ row_of refusals.Write
        → ForEachShown S.Store desk.old (RefusesImpact number fault.refusal)) }
    ensures unwritten { IfErr result (λ fault. fault ≢ row_of refusals.Write
        → writer.new ≡ writer.old) }
    ensures poisons { IsErrOf result (row_of refusals.Store) → desk.new.needs_reopening ≡ true }
    ensures closed { desk.old.needs_reopening ≡ true → (result ≡ Err (row_of refusals.Reopen))
        × (desk.new ≡ desk.old) × (writer.new ≡ writer.old) }
    ensures named { IfErr result (IsRow IsForetellingRefusal) }

    ensures same { HasCleanDisk (state S.Store desk.new.conn)
        → result ≢ Err (row_of refusals.Store) → KeepsDesk S.Store desk.old desk.new }
    ensures spares { SparesDesk S.Store desk.old desk.new }
    ensures clean { HasCleanDisk (state S.Store desk.new.conn)
        → HasCleanDisk (state S.Store desk.old.conn) }
{
    let impact = match desk.impact(&Caller::Console, number) {
        Ok(impact) => impact,
        Err(refusal) => return Err(Fault::from(refusal)),
    };
    match say_impact(&impact, writer) {
        Ok(()) => Ok(outcome(&impact)),
        Err(fault) => Err(fault),
    }
}
