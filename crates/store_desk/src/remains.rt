//! The files of a desk that wasn't opened.
ghost use Rattle.std.specs.Prelude.{◌≡◌};
ghost use Rattle.store_desk.specs.Remains.{files_in};

use sqlite::Files;
use sqlite_disk::Disk;

/// The files of a desk that wasn't opened, with the contents that a stop of the machine then left.
#[derive(Drop)]
pub enum Remains<D: Disk> {
    /// The files were opened, and the desk in them was refused.
    Refused(Files<D>),
    /// The files weren't opened.
    Unopened(Files<D>),
    /// The store in them was opened, and its schema wasn't checked to its end. No clause says what
    /// these files hold.
    Unchecked(Files<D>),
}

impl<D: Disk> Remains<D> {
    /// The files.
    pub fn into_files(self) -> Files<D>
        ensures { result ≡ files_in self }
    {
        match self {
            Remains::Refused(files) => files,
            Remains::Unopened(files) => files,
            Remains::Unchecked(files) => files,
        }
    }
}
