//! Sizes of the tables that a desk's limits count, if they are known: counted once, then carried
//! from one accepted command to the next.

mod known;
mod need;

pub use known::KnownSizes;
pub use need::may_put;
