//! Minutes, followed from the first line to the last.
ghost use Rattle.std.specs.Prelude.{◌≡◌, ◌≢◌, ℕ, [], Err, IfErr, IfOk, Some};
ghost use Rattle.sqlite.specs.Held.{state};
ghost use Rattle.sqlite.specs.State.{HasCleanDisk};
ghost use Rattle.store_desk.specs.Desks.{ShowsDesk};
ghost use Rattle.store_first_rules.specs.Desks.{ShowsFirstDesk};
ghost use Rattle.store_minutes.specs.Faults.{IsCaused};
ghost use Rattle.store_minutes.specs.Starts.{HasFollowedAfter, IsWrongAfter, LeavesFollowed, Start};
ghost use Rattle.store_audit.specs.Rules.{HasBegun, HasFollowedFirst, HasTurned};

use crate::beginning::{Step, follow_first};
use base::Refusal;
use sqlite::Alter;
use std::alloc::Global;
use std::io::BufRead;
use store_desk::Desk;
use store_first_rules::FirstDesk;
use store_minutes::{AuditFault, LineWatch, at_line, follow, follow_rest};

/// Where the lines by the first rules end.
#[derive(Clone, Copy, Debug, PartialEq, Eq)]
pub(crate) enum FirstEnd {
    /// With the last line: so many are all.
    All(u64),
    /// Before the line of this number, which only the second rules give.
    Before(u64),
}

/// Follows minutes by the first rules, line by line, on a desk of so many calls, up to their end or
/// to a line that only the second rules give. That line is in the buffer then. Takes memory for one
/// line, and the store's.
///
/// `Line`: the first line that isn't what the rules give; a last line without a line break is such
/// a line. `Device`: memory was refused (`NoMemory`), the reader failed (`Read`), or the store
/// failed or had more calls than a desk has (`Store`).
pub(crate) fn follow_beginning<S: Alter + Drop, R: BufRead>(
    alloc: Global,
    desk: &mut FirstDesk<S>,
    before: u64,
    reader: &mut R,
    watch: &mut LineWatch,
    line: &mut Vec<u8>,
) -> Result<FirstEnd, AuditFault>
    ensures ok { HasCleanDisk (state S.Store desk.new.conn) → IfOk result (λ end.
        (s : Start) → HasFollowedFirst S.Store desk.old s before (R.remaining reader.old)
        → HasBegun S.Store desk.new s end (R.remaining reader.new) line.new.items) }
    ensures wrong { HasCleanDisk (state S.Store desk.new.conn) → IfErr result (λ fault. (n : ℕ)
        → fault ≡ AuditFault.Line n
        → (s : Start) → HasFollowedFirst S.Store desk.old s before (R.remaining reader.old)
        → IsWrongAfter (ShowsFirstDesk S.Store desk.new s.owner) s n) }
    ensures stopped { (s : Start)
        → HasFollowedFirst S.Store desk.old s before (R.remaining reader.old)
        → LeavesFollowed (state S.Store desk.new.conn) s }
    ensures clean { HasCleanDisk (state S.Store desk.new.conn)
        → HasCleanDisk (state S.Store desk.old.conn) }
    ensures named { IfErr result (IsCaused watch.new) }
    ensures steady { result ≢ Err (AuditFault.Device Refusal.Read) → watch.new ≡ watch.old }
{
    let mut calls = before;
    while calls < u64::MAX {
        match watch.next_line(reader, line) {
            Ok(true) => {}
            Ok(false) => return Ok(FirstEnd::All(calls)),
            Err(refusal) => return Err(AuditFault::Device(refusal)),
        }
        match follow_first(alloc, desk, calls + 1, line.as_slice()) {
            Ok(Step::Joined) => {}
            Ok(Step::Second) => return Ok(FirstEnd::Before(calls + 1)),
            Err(fault) => return Err(at_line(calls + 1, fault)),
        }
        calls += 1;
    }
    Err(AuditFault::Device(Refusal::Store))
}

/// Follows the lines of minutes that are left after those by the first rules, of which the one in
/// the buffer is the first, if there is one: the count of all. Takes memory for one line, and the
/// store's.
///
/// `Line`: the first line that isn't what the rules give; a last line without a line break is such
/// a line. `Device`: memory was refused (`NoMemory`), the reader failed (`Read`), or the store
/// failed or had more calls than a desk has (`Store`), or had failed before (`Reopen`).
pub(crate) fn follow_on<S: Alter + Drop, R: BufRead>(
    alloc: Global,
    desk: &mut Desk<S>,
    end: FirstEnd,
    reader: &mut R,
    watch: &mut LineWatch,
    line: &mut Vec<u8>,
) -> Result<u64, AuditFault>
    ensures ok { HasCleanDisk (state S.Store desk.new.conn) → IfOk result (λ calls.
        (s : Start) → HasTurned S.Store desk.old s end (R.remaining reader.old) line.old.items
        → HasFollowedAfter S.Store desk.new s calls (Some [])) }
    ensures wrong { HasCleanDisk (state S.Store desk.new.conn) → IfErr result (λ fault. (n : ℕ)
        → fault ≡ AuditFault.Line n
        → (s : Start) → HasTurned S.Store desk.old s end (R.remaining reader.old) line.old.items
        → IsWrongAfter (ShowsDesk S.Store desk.new s.owner) s n) }
    ensures stopped { (s : Start)
        → HasTurned S.Store desk.old s end (R.remaining reader.old) line.old.items
        → LeavesFollowed (state S.Store desk.new.conn) s }
    ensures clean { HasCleanDisk (state S.Store desk.new.conn)
        → HasCleanDisk (state S.Store desk.old.conn) }
    ensures named { IfErr result (IsCaused watch.new) }
    ensures steady { result ≢ Err (AuditFault.Device Refusal.Read) → watch.new ≡ watch.old }
{
    let number = match end {
        FirstEnd::All(calls) => return Ok(calls),
        FirstEnd::Before(number) => number,
    };
    match follow(alloc, desk, number, line.as_slice()) {
        Ok(()) => {}
        Err(fault) => return Err(at_line(number, fault)),
    }
    match follow_rest(alloc, desk, number, reader, watch, line) {
        Ok(calls) => Ok(calls),
        Err(fault) => Err(fault),
    }
}
