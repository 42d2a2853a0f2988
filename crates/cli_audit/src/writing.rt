//! What an audit writes of a desk that has followed minutes.
ghost use Rattle.std.specs.Prelude.{◌≡◌, ◌≢◌, Err, None, IfErr, OnErr, OnOk};
ghost use Rattle.std.specs.Io.KnownBytes.{Appends};
ghost use Rattle.sqlite.specs.Held.{state};
ghost use Rattle.sqlite.specs.State.{HasCleanDisk};
ghost use Rattle.base.specs.Output.{AppendsBeginning};
ghost use Rattle.base.specs.declared.refusal.Refusal.TheVariants as refusals;
ghost use Rattle.store_schema.specs.rows.Histories.{LeavesHistory};
ghost use Rattle.store_desk.specs.Desks.{ForEachShown, KeepsDesk};
ghost use Rattle.cli_commands.specs.Faults.{IsWritingRefusal};
ghost use Rattle.cli_output.specs.Faults.{IsRow, row_of};
ghost use Rattle.cli_audit.specs.Audits.{WritesCounted, WritesLast, audited};
ghost use Rattle.cli_audit.specs.Lines.{audit_lines, told_lines};

use crate::digests::summary_of;
use crate::summary::{Summary, put_told};
use cli_commands::write_export;
use cli_output::{Buffered, Fault};
use desk_exports::Export;
use sqlite::Alter;
use store_desk::Desk;

/// Writes the lines of an audit, and flushes the writer.
fn say<W: Buffered>(told: &Summary, writer: &mut W) -> Result<(), Fault>
    ensures ok { OnOk result (Appends (W.contents writer.old) (W.contents writer.new)
        (told_lines told.now)) }
    ensures flushed { OnOk result (W.flushed writer.new) }
    ensures err { OnErr result (AppendsBeginning (W.contents writer.old) (W.contents writer.new)
        (told_lines told.now)) }
    ensures named { IfErr result (λ fault. fault ≡ row_of refusals.Write) }
{
    put_told(told, writer)?;
    writer.flush_all()?;
    Ok(())
}

/// Writes the lines of an audit of a desk of so many calls, and flushes the writer. The desk
/// doesn't change. After `Write` the writer holds a prefix of the lines; after any other fault
/// nothing is written.
pub fn say_told<S: Alter + Drop, W: Buffered>(
    desk: &mut Desk<S>,
    calls: u64,
    writer: &mut W,
) -> Result<(), Fault>
    ensures written { HasCleanDisk (state S.Store desk.new.conn)
        → WritesCounted S.Store desk.old calls audit_lines
        (W.contents writer.old) (W.contents writer.new) result }
    ensures flushed { OnOk result (W.flushed writer.new) }

    ensures unwritten { IfErr result (λ fault. fault ≢ row_of refusals.Write
        → writer.new ≡ writer.old) }
    ensures named { IfErr result (IsRow IsWritingRefusal) }

    ensures same { HasCleanDisk (state S.Store desk.new.conn)
        → result ≢ Err (row_of refusals.Store) → KeepsDesk S.Store desk.old desk.new }
    ensures left { ForEachShown S.Store desk.old (LeavesHistory (state S.Store desk.new.conn)) }
    ensures clean { HasCleanDisk (state S.Store desk.new.conn)
        → HasCleanDisk (state S.Store desk.old.conn) }
{
    match summary_of(desk, calls) {
        Ok(told) => say(&told, writer),
        Err(refusal) => Err(Fault::from(refusal)),
    }
}

/// Writes what an audit of a desk of so many calls writes, and flushes the writer.
fn write_audit<S: Alter + Drop, W: Buffered>(
    desk: &mut Desk<S>,
    calls: u64,
    what: Option<Export>,
    writer: &mut W,
) -> Result<(), Fault>
    ensures written { HasCleanDisk (state S.Store desk.new.conn)
        → WritesCounted S.Store desk.old calls (audited what)
        (W.contents writer.old) (W.contents writer.new) result }
    ensures unwritten { what ≡ None → IfErr result (λ fault. fault ≢ row_of refusals.Write
        → writer.new ≡ writer.old) }
    ensures flushed { OnOk result (W.flushed writer.new) }
    ensures named { IfErr result (IsRow IsWritingRefusal) }
{
    match what {
        None => say_told(desk, calls, writer),
        Some(what) => match write_export(desk, what, writer) {
            Ok(_) => Ok(()),
            Err(fault) => Err(fault),
        },
    }
}

/// Writes what an audit of a desk of so many calls writes, flushes the writer, and drops the desk.
pub(crate) fn write_last<S: Alter + Drop, W: Buffered>(
    mut desk: Desk<S>,
    calls: u64,
    what: Option<Export>,
    writer: &mut W,
) -> Result<(), Fault>
    ensures written { WritesLast S.Store desk calls (audited what)
        (W.contents writer.old) (W.contents writer.new) result }
    ensures unwritten { what ≡ None → IfErr result (λ fault. fault ≢ row_of refusals.Write
        → writer.new ≡ writer.old) }
    ensures flushed { OnOk result (W.flushed writer.new) }
    ensures named { IfErr result (IsRow IsWritingRefusal) }
{
    write_audit(&mut desk, calls, what, writer)
}
