//! Reasons for proposals.
ghost use Rattle.std.specs.Prelude.{◌≡◌, ℕ, List, MatchResult, false, string_bytes, true};
ghost use Rattle.desk_types.specs.Forms.{is_reason};

use crate::{TextFault, forms};
use std::alloc::{AllocError, Global};
use std::marker::Model;

/// An officer's reason: 1 to 200 bytes of 0x20 to 0x7E, neither the first nor the last a space. A
/// contract sees the list of its bytes.
#[derive(Debug, Drop)]
pub struct Reason {
    text: String,
}

impl Model for Reason {
    ghost Value = { List ℕ };

    ghost view = { λ r. string_bytes r.text };

    ghost invariant = { λ r. is_reason (string_bytes r.text) ≡ true };
}

impl Reason {
    /// The reason whose bytes these are. Takes memory for them.
    ///
    /// `Form`: they aren't a reason. `NoMemory`: memory was refused.
    pub fn parse(alloc: Global, text: &[u8]) -> Result<Reason, TextFault>
        ensures found { is_reason text.now ≡ true
            → MatchResult result (λ reason. reason ≡ text.now) (λ fault. fault ≡ TextFault.NoMemory) }
        ensures only { is_reason text.now ≡ false → result ≡ Err TextFault.Form }
    {
        let text = forms::held_in_form(alloc, forms::is_reason(text), text)?;
        Ok(Reason { text })
    }

    /// Its bytes, as text.
    pub fn as_str(&self) -> &str
        ensures value { result.now ≡ self.now }
        ensures form { is_reason self.now ≡ true }
    {
        self.text.as_str()
    }
}

impl Clone for Reason {
    ghost is_clone = { λ reason copy. copy ≡ reason };

    /// A copy. Takes memory for its bytes.
    fn clone(&self) -> Result<Reason, AllocError> {
        let text = self.text.clone()?;
        Ok(Reason { text })
    }
}
