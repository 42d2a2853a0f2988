//! Writes of a decision into the fifteen tables of a desk, inside a transaction.
#![tactic(auto)]

mod committing;
mod entering;
mod listing;
mod proposing;
mod requesting;
mod setting;
mod stored;
mod writing;

pub use committing::failed_commit;
pub use entering::{put_desk, put_migrated};
pub use setting::set_version;
pub use writing::write_all;
