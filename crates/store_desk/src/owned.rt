//! The opening of a desk, whoever owns it or only of one owner.
ghost use Rattle.std.specs.Prelude.{◌≡◌, ◌⊎◌, IfErr, IfOk, false};
ghost use Rattle.store_desk.specs.Owners.{IsExpected, IsOfAnother, OpensDesk};
ghost use Rattle.store_desk.specs.Owners.{RefusesOwner, RefusesToOpen};

use crate::desk::Desk;
use crate::opening::{find_or_migrate, found_is_shown};
use base::{Guid, Refusal};
use desk_history::{keys_stand_once, lives_keep_what_was_answered};
use sqlite::{Alter, Connection};
use std::alloc::Global;
use store_decision_rows::Remembered;
use store_sql::stop_leaves_what_is_shown;

/// Opens the desk that the store holds, if it has the owner that is expected. A refusal returns the
/// connection.
pub(crate) fn open_expected<S: Alter + Drop>(
    alloc: Global,
    mut conn: Connection<S>,
    expected: Option<Guid>,
) -> Result<Desk<S>, (Refusal, Connection<S>)>
    requires outside { conn.in_transaction ≡ false }
    ensures opened { IfOk result (OpensDesk S.Store conn) }
    ensures own { IfOk result (λ desk. IsExpected expected desk.owner) }
    ensures refused { IfErr result (λ e. RefusesOwner S.Store conn expected e.0 e.1
        ⊎ RefusesToOpen S.Store conn e.0 e.1) }
    ensures outside { IfErr result (λ e. e.1.in_transaction ≡ false) }
{
    found_is_shown(&conn);
    stop_leaves_what_is_shown(&conn);
    lives_keep_what_was_answered();
    match find_or_migrate(&mut conn, expected) {
        Ok(own) => {
            stop_leaves_what_is_shown(&conn);
            keys_stand_once();
            Ok(Desk {
                alloc,
                conn,
                owner: own.owner,
                remembered: Remembered::of_stamp(own.stamp),
                needs_reopening: false,
            })
        }
        Err(refusal) => Err((refusal, conn)),
    }
}

impl<S: Alter + Drop> Desk<S> {
    /// Opens the desk that the store holds, as `open` does, if it has this owner.
    ///
    /// `Owner`: it has another. It was only read, whatever its version: one of version 1 is so
    /// still. Any other refusal is that of `open`.
    pub fn open_for(
        alloc: Global,
        conn: Connection<S>,
        owner: &Guid,
    ) -> Result<Desk<S>, (Refusal, Connection<S>)>
        requires outside { conn.in_transaction ≡ false }
        ensures opened { IfOk result (OpensDesk S.Store conn) }
        ensures own { IfOk result (λ desk. desk.owner ≡ owner.now) }
        ensures refused { IfErr result (λ e.
            ((e.0 ≡ Refusal.Owner) × IsOfAnother S.Store conn owner.now e.1)
            ⊎ RefusesToOpen S.Store conn e.0 e.1) }
        ensures outside { IfErr result (λ e. e.1.in_transaction ≡ false) }
    {
        match open_expected(alloc, conn, Some(*owner)) {
            Ok(desk) => Ok(desk),
            Err((refusal, refused)) => Err((refusal, refused)),
        }
    }
}
