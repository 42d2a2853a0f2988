//! The migration of a file from version 1 to version 2, in one commit.
#![tactic(auto)]

mod migrating;
mod names;

pub use migrating::migrate;
