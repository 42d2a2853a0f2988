//! Titles of requests.
ghost use Rattle.std.specs.Prelude.{◌≡◌, ℕ, List, MatchResult, false, string_bytes, true};
ghost use Rattle.desk_types.specs.Forms.{is_title};

use crate::{TextFault, forms};
use std::alloc::{AllocError, Global};
use std::marker::Model;

/// A request's title: 1 to 120 bytes of 0x20 to 0x7E. A contract sees the list of its bytes.
#[derive(Debug, Drop)]
pub struct Title {
    text: String,
}

impl Model for Title {
    ghost Value = { List ℕ };

    ghost view = { λ t. string_bytes t.text };

    ghost invariant = { λ t. is_title (string_bytes t.text) ≡ true };
}

impl Title {
    /// The title whose bytes these are. Takes memory for them.
    ///
    /// `Form`: they aren't a title. `NoMemory`: memory was refused.
    pub fn parse(alloc: Global, text: &[u8]) -> Result<Title, TextFault>
        ensures found { is_title text.now ≡ true
            → MatchResult result (λ title. title ≡ text.now) (λ fault. fault ≡ TextFault.NoMemory) }
        ensures only { is_title text.now ≡ false → result ≡ Err TextFault.Form }
    {
        let text = forms::held_in_form(alloc, forms::is_title(text), text)?;
        Ok(Title { text })
    }

    /// Its bytes, as text.
    pub fn as_str(&self) -> &str
        ensures value { result.now ≡ self.now }
        ensures form { is_title self.now ≡ true }
    {
        self.text.as_str()
    }
}

impl Clone for Title {
    ghost is_clone = { λ title copy. copy ≡ title };

    /// A copy. Takes memory for its bytes.
    fn clone(&self) -> Result<Title, AllocError> {
        let text = self.text.clone()?;
        Ok(Title { text })
    }
}
