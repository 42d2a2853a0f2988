//! The audit of minutes: a desk in a store follows them line by line, by the rules.
#![tactic(auto)]

mod auditing;
mod beginning;
mod memory;
mod turning;

pub use memory::{Audited, audit, in_memory};
pub use turning::{Followed, follow_from_first};
