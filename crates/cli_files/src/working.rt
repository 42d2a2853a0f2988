//! The work of each subcommand on the desk in a file. Faults are found in one order: the file, the
//! desk in it, another file, the command.
ghost use Rattle.std.specs.Prelude.{◌≡◌, ◌≢◌, ◌⊎◌, ℕ, List, None, Err, IfErr, IfOk, IfSome, OnOk};
ghost use Rattle.std.specs.Io.KnownBytes.{Keeps};
ghost use Rattle.sqlite.specs.Held.{state};
ghost use Rattle.sqlite.specs.State.{HasCleanDisk};
ghost use Rattle.base.specs.declared.refusal.Refusal.TheVariants as refusals;
ghost use Rattle.cli_output.specs.Faults.{IsRow, IsUnreadRefusal, row_of};
ghost use Rattle.desk_inputs.specs.ImageFacts.{IsFactsOf};
ghost use Rattle.store_sql.specs.States.{Spares};
ghost use Rattle.store_desk.specs.Desks.{KeepsDesk};
ghost use Rattle.cli_files.specs.Faults.{HasFault, IsImageFault, IsJudgingFault};
ghost use Rattle.cli_opening.specs.Faults.{IsClosingRefusal, IsLasting};
ghost use Rattle.cli_opening.specs.Faults.{IsOfOpening, IsOpeningRefusal};
ghost use Rattle.cli_opening.specs.Works.{AtADesk, IsUnopened};
ghost use Rattle.cli_files.specs.Works.{AnswersCall, Calls, Exports, Judges, JudgesImage};
ghost use Rattle.cli_files.specs.Works.{StopsVerdict, WritesExport, WritesVerdict, adding};
ghost use Rattle.cli_commands.specs.Faults.{IsAddingRefusal, IsWritingRefusal};
ghost use Rattle.cli_output.specs.declared.ending.WorkOutcome.TheVariants.{Done};

use cli_commands::{add, judge, write_export};
use cli_opening::{CacheSize, Work, Worked, on_desk};
use cli_output::{Buffered, Ending, Fault, WorkOutcome, read_image};
use desk_exports::Export;
use desk_inputs::facts;
use desk_types::{Facts, Key, Person};
use pe_image::Pieces;
use sqlite::{Alter, FileFrom, Start};
use sqlite_disk::Disk;
use std::alloc::Global;
use std::marker::PhantomData;
use std::rt::Files;
use store_desk::Desk;

/// Adds a person, and writes the reply.
#[derive(Drop)]
struct Adding<'a, W> {
    key: &'a Key,
    person: Person,
    writer: PhantomData<W>,
}

impl<'a, W: Buffered> Work for Adding<'a, W> {
    type Output = W;

    ghost does = { λ _ g w before after. AnswersCall g (adding w.key.now w.person)
        (W.contents before) (W.contents after) };

    ghost leaves = { λ after outcome. (outcome ≡ Done) × W.flushed after };

    ghost stops = { IsRow IsAddingRefusal };

    fn work<S: Alter + Drop>(
        self,
        rt: &HostRuntime,
        mut desk: Desk<S>,
        output: &mut W,
    ) -> Worked<S> {
        let Adding { key, person, .. } = self;
        let work = add(rt.alloc(), &mut desk, key, person, output);
        Worked { desk, work }
    }
}

/// Adds a person to the desk in a file, as the console's call under this key, and writes the
/// reply's text and LF. An accepted call stays accepted even if its reply isn't written: the same
/// call under the same key gets the reply again.
///
/// File: the file doesn't exist, can't be opened, isn't a database, or is in use. NotADesk,
/// Version: it holds no desk that this program knows. NoMemory: memory was refused. Store: the
/// store failed. Otherwise the desk's refusal, or Write: a prefix of the line may be written. After
/// Write, NoMemory and Store the person may have been added.
pub fn add_person<S: Start, W: Buffered>(
    rt: &HostRuntime,
    path: &str,
    start: S,
    key: &Key,
    person: Person,
    writer: &mut W,
) -> Ending
    ensures added { (IsUnopened ⟦<FileFrom<S> as Disk>⟧ S.Start result
        × Keeps (W.contents writer.old) (W.contents writer.new))
        ⊎ AtADesk S.Start (Calls ⟦<FileFrom<S> as Disk>⟧ (adding key.now person)
        (W.contents writer.old) (W.contents writer.new) result) }
    ensures done { IfOk result.work (λ outcome. outcome ≡ WorkOutcome.Done) }
    ensures flushed { OnOk result.work (W.flushed writer.new) }
    ensures named { IfErr result.work (IsRow (λ refusal.
        IsOpeningRefusal refusal ⊎ IsAddingRefusal refusal)) }
    ensures first { IfErr result.work (λ fault. IsOfOpening fault.refusal
        → (result.closing ≡ None) × Keeps (W.contents writer.old) (W.contents writer.new)) }
    ensures closing { IfSome result.closing (IsRow IsClosingRefusal) }
    ensures let_go { IfErr result.work (λ fault. IsLasting fault.refusal → result.closing ≡ None) }
{
    let adding: Adding<'_, W> = Adding {
        key,
        person,
        writer: PhantomData,
    };
    on_desk(rt, path, start, CacheSize::AsItIs, adding, writer)
}

/// The facts of an image that the desk keeps.
fn facts_of(alloc: Global, image: &mut Pieces) -> Result<Facts, Fault>
    ensures exact { IfOk result (IsFactsOf image.old) }
    ensures first { IfErr result (HasFault image.old) }
{
    Ok(facts(alloc, image)?)
}

/// The facts of the image in a file.
fn facts_in<R: Files + AllocGlobal>(rt: &R, file: &str) -> Result<Facts, Fault>
    ensures found { IfOk result (λ found. (image : List ℕ) × IsFactsOf image found) }
    ensures named { IfErr result (λ fault. IsRow IsUnreadRefusal fault ⊎ IsImageFault fault) }
{
    let mut image = read_image(rt, file)?;
    facts_of(rt.alloc(), &mut image)
}

/// Writes the line of the desk's verdict on the image in a file.
fn judge_file<S: Alter + Drop, W: Buffered>(
    rt: &HostRuntime,
    desk: &mut Desk<S>,
    file: &str,
    writer: &mut W,
) -> Result<WorkOutcome, Fault>
    ensures told { IfOk result (JudgesImage S.Store desk.old desk.new
        (W.contents writer.old) (W.contents writer.new)) }
    ensures stopped { IfErr result (StopsVerdict S.Store desk.old desk.new
        (W.contents writer.old) (W.contents writer.new)) }
    ensures flushed { OnOk result (W.flushed writer.new) }
    ensures named { IfErr result IsJudgingFault }
    ensures same { HasCleanDisk (state S.Store desk.new.conn)
        → result ≢ Err (row_of refusals.Store) → KeepsDesk S.Store desk.old desk.new }
    ensures spares { Spares S.Store desk.old.conn desk.new.conn }
    ensures clean { HasCleanDisk (state S.Store desk.new.conn)
        → HasCleanDisk (state S.Store desk.old.conn) }
{
    match facts_in(rt, file) {
        Ok(found) => judge(desk, &found, writer),
        Err(fault) => Err(fault),
    }
}

/// Judges the image in a file, and writes the verdict.
#[derive(Drop)]
struct Judging<'a, W> {
    file: &'a str,
    writer: PhantomData<W>,
}

impl<'a, W: Buffered> Work for Judging<'a, W> {
    type Output = W;

    ghost does = { λ _ g _ before after. WritesVerdict g (W.contents before) (W.contents after) };

    ghost leaves = { λ after _. W.flushed after };

    ghost stops = { IsJudgingFault };

    fn work<S: Alter + Drop>(
        self,
        rt: &HostRuntime,
        mut desk: Desk<S>,
        output: &mut W,
    ) -> Worked<S> {
        let work = judge_file(rt, &mut desk, self.file, output);
        Worked { desk, work }
    }
}

/// Writes the verdict of the desk in a file on the image in another: `allowed`, or `refused` and
/// why, and LF. The desk's history doesn't change.
///
/// The faults of the desk's file come first, as for `add_person`; then those of the image's file
/// (File, Read, NoMemory), then the refusal of the image, then NoMemory, Store, Reopen or Write.
/// Only after Write may a prefix of the line be written; after any other fault nothing is.
pub fn judge_image<S: Start, W: Buffered>(
    rt: &HostRuntime,
    path: &str,
    start: S,
    file: &str,
    writer: &mut W,
) -> Ending
    ensures judged { (IsUnopened ⟦<FileFrom<S> as Disk>⟧ S.Start result
        × Keeps (W.contents writer.old) (W.contents writer.new))
        ⊎ AtADesk S.Start (Judges ⟦<FileFrom<S> as Disk>⟧
        (W.contents writer.old) (W.contents writer.new) result) }
    ensures flushed { OnOk result.work (W.flushed writer.new) }
    ensures named { IfErr result.work (λ fault.
        IsRow IsOpeningRefusal fault ⊎ IsJudgingFault fault) }
    ensures first { IfErr result.work (λ fault. IsOfOpening fault.refusal
        → (result.closing ≡ None) × Keeps (W.contents writer.old) (W.contents writer.new)) }
    ensures closing { IfSome result.closing (IsRow IsClosingRefusal) }
    ensures let_go { IfErr result.work (λ fault. IsLasting fault.refusal → result.closing ≡ None) }
{
    let judging: Judging<'_, W> = Judging {
        file,
        writer: PhantomData,
    };
    on_desk(rt, path, start, CacheSize::AsItIs, judging, writer)
}

/// Writes an export.
#[derive(Drop)]
struct Exporting<W> {
    what: Export,
    writer: PhantomData<W>,
}

impl<W: Buffered> Work for Exporting<W> {
    type Output = W;

    ghost does = { λ _ g w before after. WritesExport g w.what
        (W.contents before) (W.contents after) };

    ghost leaves = { λ after outcome. (outcome ≡ Done) × W.flushed after };

    ghost stops = { IsRow IsWritingRefusal };

    fn work<S: Alter + Drop>(
        self,
        _rt: &HostRuntime,
        mut desk: Desk<S>,
        output: &mut W,
    ) -> Worked<S> {
        let work = write_export(&mut desk, self.what, output);
        Worked { desk, work }
    }
}

/// Writes an export of the desk in a file. The desk's history doesn't change.
///
/// The faults of the desk's file come first, as for `add_person`, and nothing is written. Then
/// NoMemory, Store, Reopen or Write: the writer holds a prefix of the export, which may be empty.
pub fn export_from<S: Start, W: Buffered>(
    rt: &HostRuntime,
    path: &str,
    start: S,
    what: Export,
    writer: &mut W,
) -> Ending
    ensures exported { (IsUnopened ⟦<FileFrom<S> as Disk>⟧ S.Start result
        × Keeps (W.contents writer.old) (W.contents writer.new))
        ⊎ AtADesk S.Start (Exports ⟦<FileFrom<S> as Disk>⟧ what
        (W.contents writer.old) (W.contents writer.new) result) }
    ensures done { IfOk result.work (λ outcome. outcome ≡ WorkOutcome.Done) }
    ensures flushed { OnOk result.work (W.flushed writer.new) }
    ensures named { IfErr result.work (IsRow (λ refusal.
        IsOpeningRefusal refusal ⊎ IsWritingRefusal refusal)) }
    ensures first { IfErr result.work (λ fault. IsOfOpening fault.refusal
        → (result.closing ≡ None) × Keeps (W.contents writer.old) (W.contents writer.new)) }
    ensures closing { IfSome result.closing (IsRow IsClosingRefusal) }
    ensures let_go { IfErr result.work (λ fault. IsLasting fault.refusal → result.closing ≡ None) }
{
    let exporting: Exporting<W> = Exporting {
        what,
        writer: PhantomData,
    };
    on_desk(rt, path, start, CacheSize::AsItIs, exporting, writer)
}
