//! Notes of reviews.
ghost use Rattle.std.specs.Prelude.{◌≡◌, ℕ, List, MatchResult, false, string_bytes, true};
ghost use Rattle.desk_types.specs.Forms.{is_note};

use crate::{TextFault, forms};
use std::alloc::{AllocError, Global};
use std::marker::Model;

/// A reviewer's note: at most 200 bytes of 0x20 to 0x7E. A contract sees the list of its bytes.
#[derive(Debug, Drop)]
pub struct Note {
    text: String,
}

impl Model for Note {
    ghost Value = { List ℕ };

    ghost view = { λ n. string_bytes n.text };

    ghost invariant = { λ n. is_note (string_bytes n.text) ≡ true };
}

impl Note {
    /// The note whose bytes these are. Takes memory for them.
    ///
    /// `Form`: they aren't a note. `NoMemory`: memory was refused.
    pub fn parse(alloc: Global, text: &[u8]) -> Result<Note, TextFault>
        ensures found { is_note text.now ≡ true
            → MatchResult result (λ note. note ≡ text.now) (λ fault. fault ≡ TextFault.NoMemory) }
        ensures only { is_note text.now ≡ false → result ≡ Err TextFault.Form }
    {
        let text = forms::held_in_form(alloc, forms::is_note(text), text)?;
        Ok(Note { text })
    }

    /// Its bytes, as text.
    pub fn as_str(&self) -> &str
        ensures value { result.now ≡ self.now }
        ensures form { is_note self.now ≡ true }
    {
        self.text.as_str()
    }
}

impl Clone for Note {
    ghost is_clone = { λ note copy. copy ≡ note };

    /// A copy. Takes memory for its bytes.
    fn clone(&self) -> Result<Note, AllocError> {
        let text = self.text.clone()?;
        Ok(Note { text })
    }
}
