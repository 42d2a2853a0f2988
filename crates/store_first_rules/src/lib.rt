//! The calls that a desk accepted by the first rules, by which one officer alone revokes and
//! raises, followed in a store.
#![tactic(auto)]

mod acting;
mod deciding;
mod desk;
mod past;
mod viewing;
mod writing;

pub use desk::{FirstDesk, Resumed};
