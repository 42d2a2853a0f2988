//! A database in memory, whose time and memory grow as those of one in a file.
#![tactic(auto)]

mod connecting;
mod disk;

pub use connecting::{MemoryStore, connect};
pub use disk::MemoryDisk;
