//! The subcommand `follow`: a desk's file follows minutes.
#![tactic(auto)]

mod following;
mod running;

pub use following::follow_input;
pub use running::follow_named;
