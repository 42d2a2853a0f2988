//! Desks in files: the work of each subcommand over a desk's file.
#![tactic(auto)]

mod foretelling;
mod working;

pub use foretelling::foretell_from;
pub use working::{add_person, export_from, judge_image};
