//! The names of the tables that version 2 adds.
ghost use Rattle.std.specs.Prelude.{◌≡◌, ◌⊎◌, false, IfErr, IsTrue, OnErr, OnOk};
ghost use Rattle.sqlite.specs.Held.{state};
ghost use Rattle.sqlite.specs.State.{HasCleanDisk};
ghost use Rattle.store_schema.specs.Names.{takes_an_added_name};
ghost use Rattle.store_sql.specs.States.{Spares};
ghost use Rattle.store_reads.specs.Failures.{IsFailure};
ghost use Rattle.store_migration.specs.Migrations.{KeepsShown};

use base::Refusal;
use sqlite::{Alter, Connection};
use store_schema::{SELECT_DESK, takes_an_added_name};
use store_sql::StoreFault;

/// Whether the three names are free. `NotADesk`: one is taken, and the connection is open.
pub(crate) fn names_are_free<S: Alter>(conn: &mut Connection<S>) -> Result<(), Refusal>
    ensures same { OnOk result (conn.new ≡ conn.old) }
    ensures free { OnOk result (takes_an_added_name (state S.Store conn.old).now.schema ≡ false) }

    ensures taken { HasCleanDisk (state S.Store conn.new) → IfErr result (λ e.
        e ≡ Refusal.NotADesk → IsTrue (state S.Store conn.old).is_open
        × IsTrue (takes_an_added_name (state S.Store conn.old).now.schema)) }
    ensures named { IfErr result (λ e. (e ≡ Refusal.NotADesk) ⊎ IsFailure e) }

    ensures kept { HasCleanDisk (state S.Store conn.new)
        → OnErr result (KeepsShown (state S.Store conn.old) (state S.Store conn.new)) }
    ensures outside { conn.old.in_transaction ≡ false → conn.new.in_transaction ≡ false }
    ensures survives { Spares S.Store conn.old conn.new }
{
    if !takes_an_added_name(conn.schema()) {
        return Ok(());
    }
    let error = match conn.prepare(SELECT_DESK) {
        Ok(_) => return Err(Refusal::NotADesk),
        Err(error) => error,
    };
    Err(StoreFault::from(error).refusal())
}
