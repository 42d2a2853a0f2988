//! The rows and sizes for a decision.
ghost use Rattle.std.specs.Prelude.{◌≡◌, ℕ, List, IfErr, IfOk, OnErr};
ghost use Rattle.store_schema.specs.rows.Contents.{contents};
ghost use Rattle.desk_history.specs.Calls.{History};
ghost use Rattle.desk_history.specs.Formed.{IsHistory};
ghost use Rattle.desk_history.specs.Tables.{tables};
ghost use Rattle.store_reads.specs.Reads.{ReadsTables};
ghost use Rattle.desk_rules.specs.Shown.{Shows};
ghost use Rattle.store_decision_rows.specs.remembered.Current.{IsCurrent};
ghost use Rattle.store_decision_rows.specs.sizes.Sizes.{AreRight};
ghost use Rattle.store_sql.specs.States.{Changes, DoesInside, CommitsNothing, Sees, Spares, StaysInside};
ghost use Rattle.store_schema.specs.Tables.{desk_layout};
ghost use Rattle.store_reads.specs.Failures.{IsFailure};
ghost use Rattle.desk_types.specs.declared.command.Command.TheVariants.{Confirm};
ghost use Rattle.store_decision_rows.specs.Confirming.{to_confirm};
ghost use Rattle.store_decision_rows.specs.Named.{HoldsNoRowBeyond};
ghost use Rattle.store_decision_rows.specs.Learning.{Learns};
ghost use Rattle.store_decision_rows.specs.Steps.{NamesAll, ReadsBack};

use crate::lists::lists_asked;
use crate::loading::{named_row, proposals_of, rows_of_call};
use crate::sizing::count_unknown;
use crate::{KnownSizes, Remembered};
use base::Refusal;
use desk_history::minutes_are_readable;
use desk_rules::{CallRef, View};
use desk_types::{Command, ProposalNumber};
use sqlite::{Alter, Transaction};
use std::alloc::Global;
use store_proposals::stamps_are_above_none;
use store_reads::ReadFault;

/// A view for a call, and the sizes that are known with it.
#[derive(Drop)]
struct Seen {
    view: View,
    sizes: KnownSizes,
}

/// The rows and sizes that the call needs, with what is remembered. The caller's call with the key
/// is always looked up, so that only an open store gives Ok.
fn rows_and_sizes<S: Alter>(
    alloc: Global,
    tx: &mut Transaction<'_, S>,
    remembered: &Remembered,
    call: &CallRef<'_>,
) -> Result<Seen, ReadFault>
    ensures same_reference { tx.new.conn.ghost_name ≡ tx.old.conn.ghost_name }
    ensures value { DoesInside S.Store tx.old.conn.now tx.new.conn.now result
        (λ seen. ReadsTables (λ t. ReadsBack t → IsCurrent remembered.now t
        → Shows seen.view t call.now × AreRight seen.sizes t)) }
    ensures only { IfOk result (λ seen. HoldsNoRowBeyond seen.view call.now) }
    ensures learnt { IfOk result (λ seen.
        Learns call.now.command remembered.now.sizes seen.sizes) }
    ensures inside { StaysInside S.Store tx.old.conn.now tx.new.conn.now result }
    ensures kept { CommitsNothing S.Store tx.old.conn.now tx.new.conn.now }
    ensures survives { Spares S.Store tx.old.conn.now tx.new.conn.now }
{
    let rows = rows_of_call(alloc, tx, remembered.person.as_ref(), call)?;
    let proposal = named_row(&rows.proposals, call.command);
    let lists = lists_asked(alloc, tx, call.command, proposal)?;
    let known = count_unknown(tx, remembered.sizes, call.command)?;
    let view = View {
        stamp: remembered.stamp,
        sizes: known.sizes(),
        people: rows.people,
        calls: rows.calls,
        requests: rows.requests,
        votes: rows.votes,
        proposals: rows.proposals,
        lists,
    };
    Ok(Seen { view, sizes: known })
}

/// The rows and sizes that show the tables for the call. Unknown sizes that the command needs are
/// counted, and known from then on. The level's stamp isn't read: it is the one that is remembered,
/// which must be current (`shown`). Nor is the caller looked up if that is the person who is
/// remembered. Takes memory for the rows.
///
/// `NoMemory`: memory was refused. `Store`: the store failed, or a row that the call names isn't
/// one that the desk writes. After either, what is remembered doesn't change.
pub fn view<S: Alter>(
    alloc: Global,
    tx: &mut Transaction<'_, S>,
    remembered: &mut Remembered,
    call: &CallRef<'_>,
) -> Result<View, Refusal>
    ensures same_reference { tx.new.conn.ghost_name ≡ tx.old.conn.ghost_name }
    ensures value { DoesInside S.Store tx.old.conn.now tx.new.conn.now result
        (λ v before after. Changes desk_layout contents before after (λ t. t)) }
    ensures shown { DoesInside S.Store tx.old.conn.now tx.new.conn.now result
        (λ v before after. (owner : List ℕ) (cs : History) → IsHistory cs
        → Sees desk_layout before (contents (tables owner cs))
        → IsCurrent remembered.old (tables owner cs)
        → Shows v (tables owner cs) call.now
        × IsCurrent remembered.new (tables owner cs)) }
    ensures only { IfOk result (λ v. HoldsNoRowBeyond v call.now) }
    ensures learnt { IfOk result (λ _.
        Learns call.now.command remembered.old.sizes remembered.new.sizes) }
    ensures inside { StaysInside S.Store tx.old.conn.now tx.new.conn.now result }

    ensures failed { IfErr result IsFailure }
    ensures unlearnt { OnErr result (remembered.new ≡ remembered.old) }

    ensures kept { CommitsNothing S.Store tx.old.conn.now tx.new.conn.now }
    ensures survives { Spares S.Store tx.old.conn.now tx.new.conn.now }
{
    minutes_are_readable();
    stamps_are_above_none();
    match rows_and_sizes(alloc, tx, remembered, call) {
        Ok(seen) => {
            remembered.sizes = seen.sizes;
            Ok(seen.view)
        }
        Err(fault) => Err(fault.refusal()),
    }
}

/// The rows and sizes for this Confirm of the proposal of this number, whoever gives it: no person
/// and no earlier call is looked up.
fn rows_to_confirm<S: Alter>(
    alloc: Global,
    tx: &mut Transaction<'_, S>,
    current: &Remembered,
    number: ProposalNumber,
    command: &Command,
) -> Result<Seen, ReadFault>
    requires { command.now ≡ Confirm number }
    ensures same_reference { tx.new.conn.ghost_name ≡ tx.old.conn.ghost_name }
    ensures value { DoesInside S.Store tx.old.conn.now tx.new.conn.now result
        (λ seen. ReadsTables (λ t. NamesAll t → IsCurrent current.now t
        → Shows seen.view t (to_confirm number) × AreRight seen.sizes t)) }
    ensures only { IfOk result (λ seen. HoldsNoRowBeyond seen.view (to_confirm number)) }
    ensures inside { StaysInside S.Store tx.old.conn.now tx.new.conn.now result }
    ensures kept { CommitsNothing S.Store tx.old.conn.now tx.new.conn.now }
    ensures survives { Spares S.Store tx.old.conn.now tx.new.conn.now }
{
    let proposals = proposals_of(alloc, tx, command)?;
    let proposal = named_row(&proposals, command);
    let lists = lists_asked(alloc, tx, command, proposal)?;
    let known = count_unknown(tx, current.sizes, command)?;
    let view = View {
        stamp: current.stamp,
        sizes: known.sizes(),
        people: Vec::new(alloc),
        calls: Vec::new(alloc),
        requests: Vec::new(alloc),
        votes: Vec::new(alloc),
        proposals,
        lists,
    };
    Ok(Seen { view, sizes: known })
}

/// The rows and sizes that show the tables for a Confirm of the proposal of this number, whoever
/// gives it, as `view` does for a call: the view is one for a caller and a key that no call has, so
/// neither is looked up. Takes memory for the rows.
///
/// `NoMemory`: memory was refused. `Store`: the store failed, or a row isn't one that the desk
/// writes. After either, what is remembered doesn't change.
pub fn view_to_confirm<S: Alter>(
    alloc: Global,
    tx: &mut Transaction<'_, S>,
    remembered: &mut Remembered,
    number: ProposalNumber,
) -> Result<View, Refusal>
    ensures same_reference { tx.new.conn.ghost_name ≡ tx.old.conn.ghost_name }
    ensures value { DoesInside S.Store tx.old.conn.now tx.new.conn.now result
        (λ v before after. Changes desk_layout contents before after (λ t. t)) }
    ensures shown { DoesInside S.Store tx.old.conn.now tx.new.conn.now result
        (λ v before after. (owner : List ℕ) (cs : History) → IsHistory cs
        → Sees desk_layout before (contents (tables owner cs))
        → IsCurrent remembered.old (tables owner cs)
        → Shows v (tables owner cs) (to_confirm number)
        × IsCurrent remembered.new (tables owner cs)) }
    ensures only { IfOk result (λ v. HoldsNoRowBeyond v (to_confirm number)) }
    ensures inside { StaysInside S.Store tx.old.conn.now tx.new.conn.now result }

    ensures failed { IfErr result IsFailure }
    ensures unlearnt { OnErr result (remembered.new ≡ remembered.old) }

    ensures kept { CommitsNothing S.Store tx.old.conn.now tx.new.conn.now }
    ensures survives { Spares S.Store tx.old.conn.now tx.new.conn.now }
{
    minutes_are_readable();
    stamps_are_above_none();
    let command = Command::Confirm(number);
    match rows_to_confirm(alloc, tx, remembered, number, &command) {
        Ok(seen) => {
            remembered.sizes = seen.sizes;
            Ok(seen.view)
        }
        Err(fault) => Err(fault.refusal()),
    }
}
