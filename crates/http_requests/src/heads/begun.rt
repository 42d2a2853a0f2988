//! The beginning of an input.
use crate::ParsedHead;

/// What the input of a connection begins with.
#[derive(Debug, Drop)]
pub enum HeadRead {
    /// It has no byte.
    Nothing,
    /// The head of a request: its bytes are those from the input's first to the LF of the empty
    /// line that ends it.
    Head(ParsedHead),
    /// No head within the limits.
    NoHead,
}
