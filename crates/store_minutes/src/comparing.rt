//! The minutes of a desk, compared with those of a reader.
ghost use Rattle.std.specs.Prelude.{◌≡◌, ◌≢◌, ℕ, Err, IfErr, IfOk, OnOk, false, true};
ghost use Rattle.sqlite.specs.Held.{state};
ghost use Rattle.sqlite.specs.State.{HasCleanDisk};
ghost use Rattle.store_sql.specs.States.{Spares};
ghost use Rattle.store_desk.specs.Desks.{KeepsDesk};
ghost use Rattle.store_minutes.specs.Faults.{IsCaused};
ghost use Rattle.store_minutes.specs.Starts.{Start};
ghost use Rattle.store_minutes.specs.Comparing.{Begins, DiffersAt, HasAll, IsBeginning};

use crate::auditing::AuditFault;
use crate::lines::LineWatch;
use base::Refusal;
use sqlite::Alter;
use std::io::BufRead;
use store_desk::Desk;

/// What the reader gave, where each line was that of the desk.
#[derive(Clone, Copy, Debug, PartialEq, Eq)]
pub enum Compared {
    /// Each line of the desk's minutes: so many. It may give more.
    All(u64),
    /// A beginning of them, and no more.
    Beginning,
}

/// Whether both are the same.
fn is_same(one: &[u8], other: &[u8]) -> bool
    ensures same { result ≡ true → one.now ≡ other.now }
    ensures differ { result ≡ false → one.now ≢ other.now }
{
    one == other
}

/// Compares the desk's minutes with those of a reader, line by line, up to the end of either.
/// Nothing changes. Takes memory for one line of each.
///
/// `Line`: the first line that differs, counted from 1. `Device`: memory was refused (`NoMemory`),
/// the reader failed (`Read`), or the store failed (`Store`), or had failed before (`Reopen`).
pub fn compare<S: Alter + Drop, R: BufRead>(
    desk: &mut Desk<S>,
    reader: &mut R,
    watch: &mut LineWatch,
    line: &mut Vec<u8>,
) -> Result<Compared, AuditFault>
    ensures all { HasCleanDisk (state S.Store desk.new.conn) → IfOk result (λ compared.
        (calls : ℕ) → compared ≡ Compared.All calls
        → (s : Start) → Begins S.Store desk.old s (R.remaining reader.old)
        → HasAll s calls (R.remaining reader.new)) }
    ensures beginning { HasCleanDisk (state S.Store desk.new.conn) → IfOk result (λ compared.
        compared ≡ Compared.Beginning
        → (s : Start) → Begins S.Store desk.old s (R.remaining reader.old) → IsBeginning s) }
    ensures differs { HasCleanDisk (state S.Store desk.new.conn) → IfErr result (λ fault. (n : ℕ)
        → fault ≡ AuditFault.Line n
        → (s : Start) → Begins S.Store desk.old s (R.remaining reader.old)
        → DiffersAt s n × KeepsDesk S.Store desk.old desk.new) }
    ensures same { HasCleanDisk (state S.Store desk.new.conn)
        → OnOk result (KeepsDesk S.Store desk.old desk.new) }
    ensures spares { Spares S.Store desk.old.conn desk.new.conn }
    ensures named { IfErr result (IsCaused watch.new) }
    ensures steady { result ≢ Err (AuditFault.Device Refusal.Read) → watch.new ≡ watch.old }
{
    let mut calls = 0;
    while calls < u64::MAX {
        let own = match desk.line(calls + 1) {
            Ok(own) => own,
            Err(refusal) => return Err(AuditFault::Device(refusal)),
        };
        if own.is_empty() {
            return Ok(Compared::All(calls));
        }
        match watch.next_line(reader, line) {
            Ok(true) => {}
            Ok(false) => return Ok(Compared::Beginning),
            Err(refusal) => return Err(AuditFault::Device(refusal)),
        }
        if !is_same(line.as_slice(), own.as_slice()) {
            return Err(AuditFault::Line(calls + 1));
        }
        calls += 1;
    }
    Err(AuditFault::Device(Refusal::Store))
}
