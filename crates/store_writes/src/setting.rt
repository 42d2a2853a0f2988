//! Rows that are updated.
ghost use Rattle.std.specs.Prelude.{◌≡◌};
ghost use Rattle.desk_history.specs.Writes.{written};
ghost use Rattle.desk_history.specs.declared.write.Write.TheVariants as writes;
ghost use Rattle.store_sql.specs.States.{CommitsNothing, Spares, StaysInside};
ghost use Rattle.store_writes.specs.Steps.{Steps, with_version};

use crate::stored::integer_value;
use desk_types::{Outcome, ProposalOutcome};
use sbat::{Component, Stamp};
use sqlite::{Alter, Transaction, params};
use store_schema::{
    UPDATE_GENERATION, UPDATE_PROPOSAL_STATE, UPDATE_STAMP, UPDATE_STATE, UPDATE_VERSION, VERSION,
};
use store_sql::{StoreFault, update};

/// Gives the request its state.
pub(crate) fn set_state<S: Alter>(
    tx: &mut Transaction<'_, S>,
    outcome: &Outcome,
) -> Result<(), StoreFault>
    ensures same_reference { tx.new.conn.ghost_name ≡ tx.old.conn.ghost_name }
    ensures value { Steps S.Store tx.old.conn.now tx.new.conn.now result
        (written (writes.State outcome.now)) }
    ensures inside { StaysInside S.Store tx.old.conn.now tx.new.conn.now result }
    ensures kept { CommitsNothing S.Store tx.old.conn.now tx.new.conn.now }
    ensures survives { Spares S.Store tx.old.conn.now tx.new.conn.now }
{
    let number = integer_value(outcome.request.value())?;
    update(tx, UPDATE_STATE, params![&number, outcome.state.text()])?;
    Ok(())
}

/// Gives the row of the component's name its generation.
pub(crate) fn set_generation<S: Alter>(
    tx: &mut Transaction<'_, S>,
    component: &Component,
) -> Result<(), StoreFault>
    ensures same_reference { tx.new.conn.ghost_name ≡ tx.old.conn.ghost_name }
    ensures value { Steps S.Store tx.old.conn.now tx.new.conn.now result
        (written (writes.Generation component.now)) }
    ensures inside { StaysInside S.Store tx.old.conn.now tx.new.conn.now result }
    ensures kept { CommitsNothing S.Store tx.old.conn.now tx.new.conn.now }
    ensures survives { Spares S.Store tx.old.conn.now tx.new.conn.now }
{
    update(
        tx,
        UPDATE_GENERATION,
        params![component.name.as_str(), component.generation.value()],
    )?;
    Ok(())
}

/// Gives the level this stamp.
pub(crate) fn set_stamp<S: Alter>(
    tx: &mut Transaction<'_, S>,
    stamp: Stamp,
) -> Result<(), StoreFault>
    ensures same_reference { tx.new.conn.ghost_name ≡ tx.old.conn.ghost_name }
    ensures value { Steps S.Store tx.old.conn.now tx.new.conn.now result
        (written (writes.Stamp stamp)) }
    ensures inside { StaysInside S.Store tx.old.conn.now tx.new.conn.now result }
    ensures kept { CommitsNothing S.Store tx.old.conn.now tx.new.conn.now }
    ensures survives { Spares S.Store tx.old.conn.now tx.new.conn.now }
{
    let number = integer_value(stamp.value())?;
    update(tx, UPDATE_STAMP, params![&number])?;
    Ok(())
}

/// Gives the proposal its state.
pub(crate) fn set_proposal_state<S: Alter>(
    tx: &mut Transaction<'_, S>,
    outcome: &ProposalOutcome,
) -> Result<(), StoreFault>
    ensures same_reference { tx.new.conn.ghost_name ≡ tx.old.conn.ghost_name }
    ensures value { Steps S.Store tx.old.conn.now tx.new.conn.now result
        (written (writes.ProposalState outcome.now)) }
    ensures inside { StaysInside S.Store tx.old.conn.now tx.new.conn.now result }
    ensures kept { CommitsNothing S.Store tx.old.conn.now tx.new.conn.now }
    ensures survives { Spares S.Store tx.old.conn.now tx.new.conn.now }
{
    let number = integer_value(outcome.proposal.value())?;
    update(
        tx,
        UPDATE_PROPOSAL_STATE,
        params![&number, outcome.state.text()],
    )?;
    Ok(())
}

/// Gives the tables the version of this desk.
pub fn set_version<S: Alter>(tx: &mut Transaction<'_, S>) -> Result<(), StoreFault>
    ensures same_reference { tx.new.conn.ghost_name ≡ tx.old.conn.ghost_name }
    ensures value { Steps S.Store tx.old.conn.now tx.new.conn.now result (with_version 2) }
    ensures inside { StaysInside S.Store tx.old.conn.now tx.new.conn.now result }
    ensures kept { CommitsNothing S.Store tx.old.conn.now tx.new.conn.now }
    ensures survives { Spares S.Store tx.old.conn.now tx.new.conn.now }
{
    update(tx, UPDATE_VERSION, params![VERSION])?;
    Ok(())
}
