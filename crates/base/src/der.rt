//! DER elements (X.690, section 8.1).
ghost use Rattle.std.specs.Prelude.{◌≡◌};

use crate::Refusal;
use thiserror::Error;

/// One element: its tag, all of its bytes, and its content. Both slices are those of the bytes that
/// were read.
#[derive(Clone, Copy, Debug)]
pub struct Element<'a> {
    pub tag: u8,
    pub whole: &'a [u8],
    pub content: &'a [u8],
}

/// A DER element, or a certificate, is missing where one is needed.
#[derive(Clone, Copy, Debug, PartialEq, Eq, Error)]
#[error("there is no DER element")]
pub struct NotDer;

impl NotDer {
    /// Its row in the table of refusals.
    pub fn refusal(self) -> Refusal
        ensures { result ≡ Refusal.Der }
    {
        Refusal::Der
    }
}
