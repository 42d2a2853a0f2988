//! Minutes, followed by the second rules to their last line.
ghost use Rattle.std.specs.Prelude.{◌≡◌, ◌≢◌, ℕ, [], Err, IfErr, IfOk, Some};
ghost use Rattle.sqlite.specs.Held.{state};
ghost use Rattle.sqlite.specs.State.{HasCleanDisk};
ghost use Rattle.store_desk.specs.Desks.{ShowsDesk};
ghost use Rattle.store_minutes.specs.Faults.{IsCaused, IsFollowFault};
ghost use Rattle.store_minutes.specs.Starts.{HasFollowedAfter, HasFollowedSecond, IsWrongAfter};
ghost use Rattle.store_minutes.specs.Starts.{LeavesFollowed, Start};
ghost use Rattle.store_minutes.specs.declared.lines.LineWatch.{LineWatch};

use crate::following::{FollowFault, follow};
use crate::lines::LineWatch;
use base::Refusal;
use sqlite::Alter;
use std::alloc::Global;
use std::io::BufRead;
use store_desk::Desk;
use thiserror::Error;

/// Why minutes aren't those of a desk.
#[derive(Clone, Copy, Debug, PartialEq, Eq, Error)]
pub enum AuditFault {
    /// The first line that isn't what the rules give, counted from 1.
    #[error("a line isn't what the rules give")]
    Line(u64),
    /// Memory was refused, or the store or the reader failed.
    #[error("memory was refused, or the store or the reader failed")]
    Device(Refusal),
}

/// The fault of the line of this number.
pub fn at_line(number: u64, fault: FollowFault) -> AuditFault
    ensures line { (n : ℕ) → result ≡ AuditFault.Line n
        → (fault ≡ FollowFault.Line) × (n ≡ number) }
    ensures named { IsFollowFault fault → (watch : LineWatch) → IsCaused watch result }
{
    match fault {
        FollowFault::Line => AuditFault::Line(number),
        FollowFault::Device(refusal) => AuditFault::Device(refusal),
    }
}

/// Follows the lines of minutes that are left after so many by the second rules, on a desk of so
/// many calls, of which one was accepted by these rules: the count of all. Takes memory for one
/// line, and the store's.
///
/// `Line`: the first line that isn't what the rules give; a last line without a line break is such
/// a line. `Device`: memory was refused (`NoMemory`), the reader failed (`Read`), or the store
/// failed or had more calls than a desk has (`Store`), or had failed before (`Reopen`).
pub fn follow_rest<S: Alter + Drop, R: BufRead>(
    alloc: Global,
    desk: &mut Desk<S>,
    before: u64,
    reader: &mut R,
    watch: &mut LineWatch,
    line: &mut Vec<u8>,
) -> Result<u64, AuditFault>
    ensures ok { HasCleanDisk (state S.Store desk.new.conn) → IfOk result (λ calls.
        (s : Start) → HasFollowedSecond S.Store desk.old s before (R.remaining reader.old)
        → HasFollowedAfter S.Store desk.new s calls (Some [])) }
    ensures wrong { HasCleanDisk (state S.Store desk.new.conn) → IfErr result (λ fault. (n : ℕ)
        → fault ≡ AuditFault.Line n
        → (s : Start) → HasFollowedSecond S.Store desk.old s before (R.remaining reader.old)
        → IsWrongAfter (ShowsDesk S.Store desk.new s.owner) s n) }
    ensures stopped { (s : Start)
        → HasFollowedSecond S.Store desk.old s before (R.remaining reader.old)
        → LeavesFollowed (state S.Store desk.new.conn) s }
    ensures clean { HasCleanDisk (state S.Store desk.new.conn)
        → HasCleanDisk (state S.Store desk.old.conn) }
    ensures named { IfErr result (IsCaused watch.new) }
    ensures steady { result ≢ Err (AuditFault.Device Refusal.Read) → watch.new ≡ watch.old }
{
    let mut calls = before;
    while calls < u64::MAX {
        match watch.next_line(reader, line) {
            Ok(true) => {}
            Ok(false) => return Ok(calls),
            Err(refusal) => return Err(AuditFault::Device(refusal)),
        }
        match follow(alloc, desk, calls + 1, line.as_slice()) {
            Ok(()) => {}
            Err(fault) => return Err(at_line(calls + 1, fault)),
        }
        calls += 1;
    }
    Err(AuditFault::Device(Refusal::Store))
}
