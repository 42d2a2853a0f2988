//! A store that follows calls by the first rules.
ghost use Rattle.std.specs.Prelude.{◌≡◌, ℕ, List, [], IfErr, IfOk, false, true};
ghost use Rattle.sqlite.specs.Held.{state};
ghost use Rattle.sqlite.specs.State.{HasCleanDisk};
ghost use Rattle.desk_history.specs.Calls.{History};
ghost use Rattle.desk_history.specs.Formed.{IsHistory};
ghost use Rattle.store_schema.specs.rows.Histories.{LeavesHistory, ShowsHistory};
ghost use Rattle.store_reads.specs.Failures.{IsFailure};
ghost use Rattle.store_sql.specs.States.{Spares};
ghost use Rattle.store_desk.specs.Desks.{ShowsDesk};
ghost use Rattle.store_first_rules.specs.Desks.{AcceptsFirst, GivesOther, IsResumed, KeepsFirst};
ghost use Rattle.store_first_rules.specs.Desks.{MayStopFirst, ShowsFirstDesk, WasClean};

use crate::acting::run;
use crate::past::remembered_if_first;
use base::Refusal;
use desk_rules::CallRef;
use desk_types::{Call, Reply, call_is_formed};
use sbat::Stamp;
use sqlite::{Alter, Connection};
use std::alloc::Global;
use store_decision_rows::{KnownSizes, Remembered};
use store_desk::Desk;
use store_sql::stop_leaves_what_is_shown;

/// A desk whose calls are accepted by the first rules, in a store. It has the connection, and
/// remembers the level's stamp and the size of each counted table between calls.
#[derive(Drop)]
pub struct FirstDesk<S: Alter> {
    alloc: Global,
    conn: Connection<S>,
    remembered: Remembered,
}

/// A desk that goes on by the rules of its calls.
#[derive(Drop)]
pub enum Resumed<S: Alter> {
    /// Still by one officer's rules; so were all calls so far.
    First(FirstDesk<S>),
    /// By the second, by which at least one of its calls was accepted.
    Second(Desk<S>),
}

/// The desk of a connection. A refusal returns it.
///
/// `NoMemory`: memory was refused. `Store`: the store failed, or isn't as a desk left it.
fn opened<S: Alter + Drop>(
    alloc: Global,
    conn: Connection<S>,
) -> Result<Desk<S>, (Refusal, Connection<S>)>
    ensures shown { IfOk result (λ desk. HasCleanDisk (state S.Store desk.conn)
        → (owner : List ℕ) (cs : History) → IsHistory cs
        → ShowsHistory (state S.Store conn) owner cs
        → LeavesHistory (state S.Store conn) owner cs
        → ShowsDesk S.Store desk owner cs) }
    ensures usable { IfOk result (λ desk. desk.needs_reopening ≡ false) }
    ensures clean { IfOk result (λ desk. HasCleanDisk (state S.Store desk.conn)
        → HasCleanDisk (state S.Store conn)) }
    ensures spares { IfOk result (λ desk. (owner : List ℕ) (cs : History)
        → ShowsHistory (state S.Store conn) owner cs → Spares S.Store conn desk.conn) }
    ensures spared { IfErr result (λ e. (owner : List ℕ) (cs : History)
        → ShowsHistory (state S.Store conn) owner cs → Spares S.Store conn e.1) }
    ensures cleared { IfErr result (λ e. HasCleanDisk (state S.Store e.1)
        → HasCleanDisk (state S.Store conn)) }
    ensures named { IfErr result (λ e. IsFailure e.0) }
{
    if !conn.is_autocommit() {
        return Err((Refusal::Store, conn));
    }
    match Desk::open(alloc, conn) {
        Ok(desk) => Ok(desk),
        Err((Refusal::NoMemory, conn)) => Err((Refusal::NoMemory, conn)),
        Err((_, conn)) => Err((Refusal::Store, conn)),
    }
}

impl<S: Alter + Drop> FirstDesk<S> {
    /// A desk that has no calls, as one by the first rules.
    pub fn of(alloc: Global, desk: Desk<S>) -> FirstDesk<S>
        ensures shown { (owner : List ℕ) → ShowsDesk S.Store desk owner []
            → ShowsFirstDesk S.Store result owner [] }
        ensures clean { HasCleanDisk (state S.Store result.conn)
            → HasCleanDisk (state S.Store desk.conn) }
    {
        FirstDesk {
            alloc,
            conn: desk.release(),
            remembered: Remembered {
                stamp: Stamp::original(),
                sizes: KnownSizes::of_no_calls(),
                person: None,
            },
        }
    }

    /// The same desk, which goes on by the first rules if all its calls were accepted by them, and
    /// by the second otherwise. Nothing is committed; a refusal returns the connection. Each
    /// counted table is counted. Takes memory.
    ///
    /// `NoMemory`: memory was refused. `Store`: the store failed, or isn't as a desk left it.
    pub fn resume(alloc: Global, desk: Desk<S>) -> Result<Resumed<S>, (Refusal, Connection<S>)>
        ensures shown { IfOk result (IsResumed S.Store desk) }
        ensures left { IfErr result (λ e. (owner : List ℕ) (cs : History)
            → ShowsDesk S.Store desk owner cs → LeavesHistory (state S.Store e.1) owner cs) }
        ensures clean { IfOk result (WasClean S.Store desk) }
        ensures cleared { IfErr result (λ e. HasCleanDisk (state S.Store e.1)
            → HasCleanDisk (state S.Store desk.conn)) }
        ensures named { IfErr result (λ e. IsFailure e.0) }
    {
        let mut conn = desk.release();
        match remembered_if_first(&mut conn) {
            Ok(Some(remembered)) => Ok(Resumed::First(FirstDesk {
                alloc,
                conn,
                remembered,
            })),
            Ok(None) => match opened(alloc, conn) {
                Ok(desk) => Ok(Resumed::Second(desk)),
                Err(refused) => Err(refused),
            },
            Err(refusal) => Err((refusal, conn)),
        }
    }

    /// Whether the call is accepted by the first rules with this reply; then it joins the history.
    /// If it isn't, the desk shows the same history. Takes memory.
    ///
    /// `NoMemory`: memory was refused. `Store`: the store failed, or isn't as a desk left it. After
    /// either, a stop leaves the history before the call or the one with it (`stopped`); until then
    /// nothing is promised of what the store shows.
    pub fn follow(&mut self, call: &Call, told: &Reply) -> Result<bool, Refusal>
        ensures joined { HasCleanDisk (state S.Store self.new.conn) → IfOk result (λ is. is ≡ true
            → AcceptsFirst S.Store self.old self.new call.now told.now) }
        ensures other { HasCleanDisk (state S.Store self.new.conn) → IfOk result (λ is. is ≡ false
            → GivesOther S.Store self.old call.now told.now
            × KeepsFirst S.Store self.old self.new) }
        ensures stopped { MayStopFirst S.Store self.old self.new call.now told.now }
        ensures clean { HasCleanDisk (state S.Store self.new.conn)
            → HasCleanDisk (state S.Store self.old.conn) }
        ensures named { IfErr result IsFailure }
    {
        call_is_formed(&call.caller, &call.key, &call.command);
        let parts = CallRef {
            caller: &call.caller,
            key: &call.key,
            command: &call.command,
        };
        match run(self.alloc, &mut self.conn, &self.remembered, &parts, told) {
            Ok(Some(later)) => {
                stop_leaves_what_is_shown(&self.conn);
                self.remembered = later;
                Ok(true)
            }
            Ok(None) => Ok(false),
            Err(refusal) => Err(refusal),
        }
    }

    /// The desk, which goes on by the second rules. A refusal returns the connection. Takes memory.
    ///
    /// `NoMemory`: memory was refused. `Store`: the store failed, or isn't as a desk left it.
    pub fn into_desk(self) -> Result<Desk<S>, (Refusal, Connection<S>)>
        ensures shown { IfOk result (λ desk. HasCleanDisk (state S.Store desk.conn)
            → (owner : List ℕ) (cs : History) → ShowsFirstDesk S.Store self owner cs
            → ShowsDesk S.Store desk owner cs) }
        ensures usable { IfOk result (λ desk. desk.needs_reopening ≡ false) }
        ensures clean { IfOk result (λ desk. HasCleanDisk (state S.Store desk.conn)
            → HasCleanDisk (state S.Store self.conn)) }
        ensures spared { IfErr result (λ e. (owner : List ℕ) (cs : History)
            → ShowsFirstDesk S.Store self owner cs → Spares S.Store self.conn e.1) }
        ensures cleared { IfErr result (λ e. HasCleanDisk (state S.Store e.1)
            → HasCleanDisk (state S.Store self.conn)) }
        ensures named { IfErr result (λ e. IsFailure e.0) }
    {
        let FirstDesk { alloc, conn, .. } = self;
        match opened(alloc, conn) {
            Ok(desk) => Ok(desk),
            Err(refused) => Err(refused),
        }
    }

    /// The connection, in whatever state it is.
    pub fn release(self) -> Connection<S>
        ensures { result ≡ self.conn }
    {
        let FirstDesk { conn, .. } = self;
        conn
    }
}
