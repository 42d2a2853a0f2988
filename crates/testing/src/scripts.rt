//! Calls and questions of a desk, read from the words of a script's lines. For tests.

mod word;

pub use word::Words;
