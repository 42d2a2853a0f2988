//! Imports: revocations that others publish, as signature lists, a CSV file or the text of an SBAT
//! level, each read as one command.

mod csv_rows;
mod entries;
mod fault;
mod from_csv;
mod from_level;
mod from_lists;
mod gathering;
mod item;
mod laws;
mod record;

pub use fault::ImportFault;
pub use from_csv::import_csv;
pub use from_level::import_level;
pub use from_lists::import_dbx;
pub use laws::{import_is_one, tbs_is_read};
