//! The rows and sizes for a decision by the first rules.
ghost use Rattle.std.specs.Prelude.{◌≡◌, IfErr};
ghost use Rattle.desk_history.specs.Tables.{tables};
ghost use Rattle.desk_rules.specs.First.{ShowsToFirst};
ghost use Rattle.store_schema.specs.Tables.{desk_layout};
ghost use Rattle.store_schema.specs.rows.Contents.{contents};
ghost use Rattle.store_sql.specs.States.{Changes, CommitsNothing, DoesInside, Sees, Spares};
ghost use Rattle.store_reads.specs.Failures.{IsFailure};
ghost use Rattle.store_sql.specs.States.{StaysInside};
ghost use Rattle.store_first_rules.specs.Acts.{FirstPast, before};

use base::Refusal;
use desk_rules::{CallRef, View};
use sqlite::{Alter, Transaction};
use std::alloc::Global;
use store_decision_rows::{Remembered, view};

/// The rows and sizes that show the tables for the call, if what is remembered is current for them
/// and has each size. No table is counted. Takes memory for the rows.
pub(crate) fn first_view<S: Alter>(
    alloc: Global,
    tx: &mut Transaction<'_, S>,
    remembered: &Remembered,
    call: &CallRef<'_>,
) -> Result<View, Refusal>
    ensures same_reference { tx.new.conn.ghost_name ≡ tx.old.conn.ghost_name }
    ensures value { DoesInside S.Store tx.old.conn.now tx.new.conn.now result
        (λ v old new. Changes desk_layout contents old new (λ t. t)) }
    ensures shown { DoesInside S.Store tx.old.conn.now tx.new.conn.now result
        (λ v old new. (p : FirstPast remembered.now)
        → Sees desk_layout old (before remembered.now p)
        → ShowsToFirst v (tables p.owner p.calls) call.now) }
    ensures failed { IfErr result IsFailure }
    ensures inside { StaysInside S.Store tx.old.conn.now tx.new.conn.now result }
    ensures kept { CommitsNothing S.Store tx.old.conn.now tx.new.conn.now }
    ensures survives { Spares S.Store tx.old.conn.now tx.new.conn.now }
{
    let mut known = remembered.without_person();
    let mut seen = match view(alloc, tx, &mut known, call) {
        Ok(seen) => seen,
        Err(failure) => return Err(failure),
    };
    seen.sizes = remembered.sizes.sizes();
    Ok(seen)
}
