//! The audit of minutes over a store in memory.
ghost use Rattle.std.specs.Prelude.{◌≡◌, ◌≢◌, ℕ, [], Err, IfErr, IfOk, IfSome, Some};
ghost use Rattle.store_reads.specs.Failures.{IsFailure};
ghost use Rattle.desk_history.specs.Calls.{History};
ghost use Rattle.desk_history.specs.Formed.{IsHistory};
ghost use Rattle.desk_exports.specs.Exports.{minutes_text};
ghost use Rattle.store_first_rules.specs.Desks.{ShowsFirstDesk};
ghost use Rattle.store_audit.specs.Audits.{HasFollowed, IsWrongAt};
ghost use Rattle.store_minutes.specs.Faults.{IsCaused, IsDeskFailure};
ghost use Rattle.store_audit.specs.Faults.{IsCausedInMemory};
ghost use Rattle.store_minutes.specs.declared.lines.LineWatch.{LineWatch};
ghost use Rattle.store_memory.specs.Disks.{over_memory};

use crate::turning::{Followed, follow_from_first};
use base::{Guid, Refusal};
use std::alloc::Global;
use std::io::BufRead;
use store_desk::Desk;
use store_first_rules::FirstDesk;
use store_memory::{MemoryStore, connect};
use store_minutes::{AuditFault, LineWatch};

/// Minutes that were followed.
#[derive(Drop)]
pub struct Audited {
    /// The desk, which shows the history whose minutes they are.
    pub desk: Desk<MemoryStore>,
    /// How many lines they have.
    pub calls: u64,
}

/// A new desk in memory with this owner of each exported entry, where the first rules hold. Takes
/// memory for it.
///
/// `NoMemory`, `Store`: memory was refused.
fn first_desk_in_memory(alloc: Global, owner: &Guid) -> Result<FirstDesk<MemoryStore>, Refusal>
    ensures shown { IfOk result (λ desk. ShowsFirstDesk over_memory desk owner.now []) }
    ensures named { IfErr result IsFailure }
{
    let Ok(conn) = connect(alloc) else {
        return Err(Refusal::NoMemory);
    };
    let desk = match Desk::create(alloc, conn, owner) {
        Ok(desk) => desk,
        Err(refused) => return Err(refused.0),
    };
    Ok(FirstDesk::of(alloc, desk))
}

/// The refusal of a desk in memory: its store fails, or has failed before, only where memory was
/// refused.
pub fn in_memory(refusal: Refusal) -> Refusal
    ensures failed { IsDeskFailure refusal → result ≡ Refusal.NoMemory }
    ensures other { (IsDeskFailure refusal → ⊥) → result ≡ refusal }
{
    match refusal {
        Refusal::Store | Refusal::Reopen => Refusal::NoMemory,
        other => other,
    }
}

/// The fault of an audit on a desk in memory.
fn fault_in_memory(fault: AuditFault) -> AuditFault
    ensures line { (n : ℕ) → result ≡ AuditFault.Line n → fault ≡ AuditFault.Line n }
    ensures read { fault ≡ AuditFault.Device Refusal.Read
        → result ≡ AuditFault.Device Refusal.Read }
    ensures named { (watch : LineWatch) → IsCaused watch fault → IsCausedInMemory watch result }
{
    match fault {
        AuditFault::Line(number) => AuditFault::Line(number),
        AuditFault::Device(refusal) => AuditFault::Device(in_memory(refusal)),
    }
}

/// Follows minutes by the rules on a new desk in memory, with this owner of each exported entry.
/// On Ok the minutes are those of a possible history, and the new desk has it. Each line is
/// followed by the first rules until one with a reply that only the second give, and by the second
/// from that line on. An interrupted read is a fault and isn't retried. Takes memory for the desk
/// and for one line.
///
/// `Line`: the first line that isn't what the rules give; a last line without a line break is such
/// a line. `Device`: memory was refused (`NoMemory`), or a read failed (`Read`).
pub fn audit<R: BufRead>(
    alloc: Global,
    owner: &Guid,
    reader: &mut R,
    watch: &mut LineWatch,
) -> Result<Audited, AuditFault>
    ensures ok { IfOk result (λ audited. IfSome (R.remaining reader.old) (λ given.
        HasFollowed over_memory audited.desk owner.now audited.calls (Some given) (Some []))) }
    ensures wrong { IfErr result (λ fault. (n : ℕ) → fault ≡ AuditFault.Line n
        → IfSome (R.remaining reader.old) (λ given. IsWrongAt given n)) }
    ensures passes { IfErr result (λ fault. (n : ℕ) → fault ≡ AuditFault.Line n
        → (cs : History) → IsHistory cs → R.remaining reader.old ≢ Some (minutes_text cs)) }
    ensures named { IfErr result (IsCausedInMemory watch.new) }
    ensures steady { result ≢ Err (AuditFault.Device Refusal.Read) → watch.new ≡ watch.old }
{
    let first = match first_desk_in_memory(alloc, owner) {
        Ok(first) => first,
        Err(refusal) => return Err(AuditFault::Device(in_memory(refusal))),
    };
    let mut line = Vec::new(alloc);
    let run = match follow_from_first(alloc, first, 0, reader, watch, &mut line) {
        Ok(run) => run,
        Err(refused) => return Err(fault_in_memory(AuditFault::Device(refused.0))),
    };
    let Followed { desk, result } = run;
    match result {
        Ok(calls) => Ok(Audited { desk, calls }),
        Err(fault) => Err(fault_in_memory(fault)),
    }
}
