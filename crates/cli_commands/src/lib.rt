//! The work of each subcommand on an open desk.
#![tactic(auto)]

mod foretelling;
mod saying;
mod work;

pub use foretelling::foretell;
pub use work::{add, judge, write_export};
