//! The constants of the desk's own row.

/// The mark of a desk's file.
pub const MARK: &str = "boot-desk";

/// The version of the files of desks with one officer: twelve tables.
pub const FIRST_VERSION: u32 = 1;

/// The version of the desk's files: fifteen tables.
pub const VERSION: u32 = 2;
