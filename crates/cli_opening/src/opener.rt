//! The files of a desk, opened once. That none was opened is known of an `Opener` alone: whoever
//! says that nothing is left of a desk's files gives it away.
ghost use Rattle.std.specs.Prelude.{◌≡◌, ◌⊎◌, IfErr, IfOk, IsTrue, OnErr, OnOk, false, true};
ghost use Rattle.sqlite.specs.Files.{image_of};
ghost use Rattle.sqlite_std_file.specs.File.{file_is_usable};
ghost use Rattle.sqlite_wal.specs.Files.{image_at, outcomes};
ghost use Rattle.sqlite_wal.specs.Recovery.{Image};
ghost use Rattle.cli_output.specs.Faults.{IsFileRefusal};

use base::Refusal;
use sqlite::{FileFrom, Files, Start};
use sqlite_disk::Disk;
use sqlite_std_file::OpenError;
use std::io::ErrorKind;

/// What opens a desk's files, with its `Start`, which the opening uses up.
#[derive(Drop)]
pub struct Opener<S: Start> {
    start: Option<S>,
    has_opened: bool,
}

/// The row of the table of refusals for files that couldn't be opened.
fn refusal_of(error: OpenError) -> Refusal
    ensures { IsFileRefusal result }
{
    match error {
        OpenError::OutOfMemory => Refusal::NoMemory,
        OpenError::Io(error) if error.kind() == ErrorKind::OutOfMemory => Refusal::NoMemory,
        OpenError::Io(_) | OpenError::Busy | OpenError::HotJournal => Refusal::File,
    }
}

impl<S: Start> Opener<S> {
    /// One that has opened nothing.
    pub(crate) fn new(start: S) -> Opener<S>
        ensures { result.has_opened ≡ false }
    {
        Opener {
            start: Some(start),
            has_opened: false,
        }
    }

    /// Opens the file at a path and its log, created if they don't exist. They hold what `S` says,
    /// and so they do after a stop. After a refusal no file is open.
    ///
    /// `File`: the system refuses them, or they were asked for before.
    pub(crate) fn open(
        &mut self,
        rt: &HostRuntime,
        path: &str,
    ) -> Result<Files<FileFrom<S>>, Refusal>
        ensures log { IfOk result (λ files.
            IsTrue (⟦<FileFrom<S> as Disk>⟧.is_usable files.log)) }
        ensures db { IfOk result (λ files.
            IsTrue (⟦<FileFrom<S> as Disk>⟧.is_usable files.db)) }
        ensures seen { IfOk result (λ files.
            image_of ⟦<FileFrom<S> as Disk>⟧ files ≡ image_at S.Start) }
        ensures settled { IfOk result (λ files. (image : Image)
            → outcomes ⟦<FileFrom<S> as Disk>⟧ files.log files.db image
            → image ≡ image_at S.Start) }
        ensures opened { OnOk result (self.new.has_opened ≡ true) }

        ensures refused { OnErr result (self.new.has_opened ≡ self.old.has_opened) }
        ensures named { IfErr result IsFileRefusal }
    {
        let Some(start) = self.start.take() else {
            return Err(Refusal::File);
        };
        match sqlite_std_file::open(rt, path, start) {
            Ok(files) => {
                self.has_opened = true;
                Ok(files)
            }
            Err(error) => Err(refusal_of(error)),
        }
    }

    /// Whether it has opened files.
    pub(crate) fn has_opened(&self) -> bool
        ensures { result ≡ self.now.has_opened }
    {
        self.has_opened
    }
}
