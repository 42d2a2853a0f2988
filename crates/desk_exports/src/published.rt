//! The exports that whoever has a token reads.
ghost use Rattle.std.specs.Prelude.{◌≡◌};
ghost use Rattle.desk_exports.specs.Published.{export_of};

use crate::export::Export;

/// An export that everybody who has a token may read. Shim's form and the whole minutes are no such
/// export.
#[derive(Clone, Copy, Debug, PartialEq, Eq)]
pub enum Published {
    /// Signature lists.
    Dbx,
    /// Signature lists.
    Db,
    /// SBAT text.
    Level,
}

impl Published {
    /// The export of this name.
    pub fn export(self) -> Export
        ensures { result ≡ export_of self }
    {
        match self {
            Published::Dbx => Export::Dbx,
            Published::Db => Export::Db,
            Published::Level => Export::Level,
        }
    }
}
