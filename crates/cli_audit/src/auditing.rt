//! Minutes of an input, followed in memory.
ghost use Rattle.std.specs.Prelude.{◌⊎◌, IfErr, IsErrAnd, OnOk};
ghost use Rattle.std.specs.Io.KnownBytes.{Keeps};
ghost use Rattle.cli_output.specs.Faults.{IsRow};
ghost use Rattle.cli_audit.specs.Audits.{Audits};
ghost use Rattle.cli_audit.specs.Faults.{IsUnopenedRefusal};

use crate::fault::{fault_row, row_in_memory};
use crate::writing::write_last;
use base::{Guid, Refusal};
use cli_output::{Buffered, Fault, open_file};
use desk_exports::Export;
use std::alloc::Global;
use std::io::{BufRead, BufReader, Read};
use std::rt::Files;
use store_audit::{Audited, audit};
use store_minutes::LineWatch;

/// Follows the minutes of a reader, and writes what an audit writes of them.
fn audit_reader<R: BufRead, W: Buffered>(
    alloc: Global,
    owner: &Guid,
    reader: &mut R,
    watch: &mut LineWatch,
    what: Option<Export>,
    writer: &mut W,
) -> Result<(), Fault>
    ensures audited { Audits what owner.now (R.remaining reader.old)
        (W.contents writer.old) (W.contents writer.new) watch.new result }
    ensures flushed { OnOk result (W.flushed writer.new) }
{
    match audit(alloc, owner, reader, watch) {
        Ok(audited) => {
            let Audited { desk, calls } = audited;
            match write_last(desk, calls, what, writer) {
                Ok(()) => Ok(()),
                Err(fault) => Err(row_in_memory(fault)),
            }
        }
        Err(fault) => Err(fault_row(fault)),
    }
}

/// Follows the minutes of an input line by line, by the rules, on a desk in memory with this owner,
/// and writes `calls N` and the SHA-256 of the minutes, dbx, db and the level, or the export that
/// is named. Takes memory for the desk and for one line.
///
/// Minute: the place is the first line that isn't what the rules give, or isn't whole; nothing is
/// written. Read: a read failed, or was interrupted. NoMemory: memory was refused. Write: a prefix
/// may be written.
pub fn audit_input<R: Read + Drop, W: Buffered>(
    alloc: Global,
    owner: &Guid,
    reader: R,
    watch: &mut LineWatch,
    what: Option<Export>,
    writer: &mut W,
) -> Result<(), Fault>
    ensures audited { Audits what owner.now (R.remaining reader)
        (W.contents writer.old) (W.contents writer.new) watch.new result }
    ensures flushed { OnOk result (W.flushed writer.new) }
{
    match BufReader::new(alloc, reader) {
        Ok(mut reader) => audit_reader(alloc, owner, &mut reader, watch, what, writer),
        Err(_) => Err(Fault::from(Refusal::NoMemory)),
    }
}

/// Follows the minutes in a file, as `audit_input` does.
///
/// File: it can't be opened, which includes that it doesn't exist. Otherwise as for `audit_input`.
pub fn audit_file<R: Files + AllocGlobal, W: Buffered>(
    rt: &R,
    owner: &Guid,
    path: &str,
    watch: &mut LineWatch,
    what: Option<Export>,
    writer: &mut W,
) -> Result<(), Fault>
    ensures audited { (IsErrAnd result (IsRow IsUnopenedRefusal)
        × Keeps (W.contents writer.old) (W.contents writer.new))
        ⊎ ((file : R.File) × Audits what owner.now (R.File.remaining file)
        (W.contents writer.old) (W.contents writer.new) watch.new result) }
    ensures flushed { OnOk result (W.flushed writer.new) }
{
    match open_file(rt, path) {
        Ok(file) => audit_input(rt.alloc(), owner, file, watch, what, writer),
        Err(fault) => Err(fault),
    }
}
