//! The digests of a desk's exports.
ghost use Rattle.std.specs.Prelude.{◌≡◌, ◌≢◌, Err, IfErr, IfOk, length};
ghost use Rattle.sha2.specs.Sha256.{sha256};
ghost use Rattle.sqlite.specs.Held.{state};
ghost use Rattle.sqlite.specs.State.{HasCleanDisk};
ghost use Rattle.desk_exports.specs.Exports.{exported};
ghost use Rattle.store_schema.specs.rows.Histories.{LeavesHistory};
ghost use Rattle.store_desk.specs.Desks.{ForEachShown, KeepsDesk};
ghost use Rattle.cli_commands.specs.Faults.{IsWritingRefusal};
ghost use Rattle.cli_audit.specs.Lines.{told_of};

use crate::hashing::Hashing;
use crate::summary::Summary;
use base::{Digest, Refusal};
use desk_exports::Export;
use sqlite::Alter;
use store_desk::Desk;

/// The SHA-256 of an export of the desk, which doesn't change. The bytes are hashed as the desk
/// writes them: takes memory for one row.
///
/// `NoMemory`, `Store`, `Reopen`: as for the export, whose writer doesn't fail here.
fn digest_of<S: Alter + Drop>(desk: &mut Desk<S>, what: Export) -> Result<Digest, Refusal>
    ensures exact { HasCleanDisk (state S.Store desk.new.conn) → IfOk result (λ digest.
        ForEachShown S.Store desk.old (λ owner cs. digest ≡ sha256 (exported what owner cs))) }
    ensures same { HasCleanDisk (state S.Store desk.new.conn) → result ≢ Err Refusal.Store
        → KeepsDesk S.Store desk.old desk.new }
    ensures left { ForEachShown S.Store desk.old (LeavesHistory (state S.Store desk.new.conn)) }
    ensures clean { HasCleanDisk (state S.Store desk.new.conn)
        → HasCleanDisk (state S.Store desk.old.conn) }
    ensures named { IfErr result IsWritingRefusal }
{
    let mut hashing = Hashing::new();
    match desk.export(what, &mut hashing) {
        Ok(()) => Ok(hashing.digest()),
        Err(refusal) => Err(refusal),
    }
}

/// What an audit tells of the minutes of a desk, of so many calls. The desk doesn't change. Takes
/// memory for one row.
///
/// `NoMemory`, `Store`, `Reopen`: as for `digest_of`.
pub(crate) fn summary_of<S: Alter + Drop>(
    desk: &mut Desk<S>,
    calls: u64,
) -> Result<Summary, Refusal>
    ensures exact { HasCleanDisk (state S.Store desk.new.conn) → IfOk result (λ told.
        ForEachShown S.Store desk.old (λ owner cs. length cs ≡ calls
        → told ≡ told_of owner cs)) }
    ensures same { HasCleanDisk (state S.Store desk.new.conn) → result ≢ Err Refusal.Store
        → KeepsDesk S.Store desk.old desk.new }
    ensures left { ForEachShown S.Store desk.old (LeavesHistory (state S.Store desk.new.conn)) }
    ensures clean { HasCleanDisk (state S.Store desk.new.conn)
        → HasCleanDisk (state S.Store desk.old.conn) }
    ensures named { IfErr result IsWritingRefusal }
{
    let minutes = digest_of(desk, Export::Minutes)?;
    let dbx = digest_of(desk, Export::Dbx)?;
    let db = digest_of(desk, Export::Db)?;
    let level = digest_of(desk, Export::Level)?;
    Ok(Summary {
        calls,
        minutes,
        dbx,
        db,
        level,
    })
}
