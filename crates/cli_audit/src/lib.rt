//! The subcommand `audit`: follows the minutes of a file in memory, and prints what the exports of
//! their desk must be.
#![tactic(auto)]

mod auditing;
mod digests;
mod fault;
mod fed;
mod hashing;
mod running;
mod summary;
mod writing;

pub use auditing::{audit_file, audit_input};
pub use fault::fault_row;
pub use running::{audit_named, is_input};
pub use store_minutes::LineWatch;
pub use writing::say_told;
