//! Refusals of a text.
use thiserror::Error;

/// The reason why a text was refused.
#[derive(Clone, Copy, Debug, PartialEq, Eq, Error)]
pub enum TextFault {
    /// The text isn't in its form.
    #[error("the text isn't in its form")]
    Form,
    /// Memory was refused.
    #[error("memory was refused")]
    NoMemory,
}
