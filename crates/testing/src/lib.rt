//! Helpers of the tests: readers and writers that fail at a call, bytes written as text, scripts of
//! calls and answers.
#![tactic(auto)]

mod answering;
mod bytes;
mod reader;
mod scripts;
mod writer;

pub use answering::{Answers, answered};
pub use bytes::bytes_of;
pub use reader::Slow;
pub use scripts::Words;
pub use writer::Narrow;
