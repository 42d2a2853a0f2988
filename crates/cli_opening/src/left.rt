//! What is left of a desk's files at the end of a subcommand. Whoever holds it can only drop it:
//! its parts are private to this module, and no function takes them out. That nothing is left is
//! said with the start of the files, or with the opener that used it up.
ghost use Rattle.std.specs.Prelude.{◌≡◌, false};
ghost use Rattle.cli_opening.specs.Leaving.{rest_of};

use crate::opener::Opener;
use sqlite::{Connection, FileFrom, FileStore, Files, Leftover, Start};
use sqlite_disk::Disk;

/// The parts of what is left.
#[derive(Drop)]
pub enum Rest<D: Disk> {
    /// No files: whether any were opened.
    Nothing(bool),
    /// What the store had of files whose opening failed.
    Unopened(Leftover<D>),
    /// The connection of a desk that wasn't opened or made, or that has to be opened again.
    Unclosed(Connection<FileStore<D>>),
    /// The store of a desk whose close failed.
    Broken(FileStore<D>),
    /// The files of a closed desk.
    Closed(Files<D>),
}

/// What is left of a desk's files.
#[derive(Drop)]
pub struct Left<D: Disk> {
    rest: Rest<D>,
}

impl<S: Start> Left<FileFrom<S>> {
    /// The files were never asked for: their start is here.
    pub fn unused(start: S) -> Left<FileFrom<S>>
        ensures { result.rest ≡ Rest.Nothing false }
    {
        Left::unconnected(Opener::new(start), None)
    }

    /// No connection came about: what the store had of the files, or nothing, and whether the
    /// opener has opened any.
    pub(crate) fn unconnected(
        opener: Opener<S>,
        left: Option<Leftover<FileFrom<S>>>,
    ) -> Left<FileFrom<S>>
        ensures { result.rest ≡ rest_of opener.has_opened left }
    {
        match left {
            None => Left {
                rest: Rest::Nothing(opener.has_opened()),
            },
            Some(left) => Left {
                rest: Rest::Unopened(left),
            },
        }
    }
}

impl<D: Disk> Left<D> {
    /// A connection that isn't closed.
    pub fn unclosed(conn: Connection<FileStore<D>>) -> Left<D>
        ensures { result.rest ≡ Rest.Unclosed conn }
    {
        Left {
            rest: Rest::Unclosed(conn),
        }
    }

    /// A store that couldn't be closed.
    pub fn broken(store: FileStore<D>) -> Left<D>
        ensures { result.rest ≡ Rest.Broken store }
    {
        Left {
            rest: Rest::Broken(store),
        }
    }

    /// Files that were closed.
    pub fn closed(files: Files<D>) -> Left<D>
        ensures { result.rest ≡ Rest.Closed files }
    {
        Left {
            rest: Rest::Closed(files),
        }
    }
}
