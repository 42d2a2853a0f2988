//! A substitute for a desk, for tests of its callers.
#![tactic(auto)]

mod failing;
mod stand_in;

pub use failing::Failing;
pub use stand_in::StandIn;
