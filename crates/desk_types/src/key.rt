//! Keys of calls.
ghost use Rattle.std.specs.Prelude.{◌≡◌, ℕ, List, MatchResult, false, nat_eq, string_bytes, true};
ghost use Rattle.std.specs.Cmp.{partial_equiv_from_equiv};
ghost use Rattle.std.specs.Cmp.Lexicographic.{nat_list_eq_equiv, pointwise};
ghost use Rattle.desk_types.specs.Forms.{is_key};

use crate::{TextFault, forms};
use std::alloc::{AllocError, Global};
use std::marker::Model;

/// A caller's own name for a call: 1 to 64 bytes of 0x21 to 0x7E. A contract sees the list of its
/// bytes.
#[derive(Debug, Drop)]
pub struct Key {
    text: String,
}

impl Model for Key {
    ghost Value = { List ℕ };

    ghost view = { λ k. string_bytes k.text };

    ghost invariant = { λ k. is_key (string_bytes k.text) ≡ true };
}

impl Key {
    /// The key whose bytes these are. Takes memory for them.
    ///
    /// `Form`: they aren't a key. `NoMemory`: memory was refused.
    pub fn parse(alloc: Global, text: &[u8]) -> Result<Key, TextFault>
        ensures found { is_key text.now ≡ true
            → MatchResult result (λ key. key ≡ text.now) (λ fault. fault ≡ TextFault.NoMemory) }
        ensures only { is_key text.now ≡ false → result ≡ Err TextFault.Form }
    {
        let text = forms::held_in_form(alloc, forms::is_key(text), text)?;
        Ok(Key { text })
    }

    /// Its bytes, as text.
    pub fn as_str(&self) -> &str
        ensures value { result.now ≡ self.now }
        ensures form { is_key self.now ≡ true }
    {
        self.text.as_str()
    }
}

impl Clone for Key {
    ghost is_clone = { λ key copy. copy ≡ key };

    /// A copy. Takes memory for its bytes.
    fn clone(&self) -> Result<Key, AllocError> {
        let text = self.text.clone()?;
        Ok(Key { text })
    }
}

impl PartialEq for Key {
    ghost eq = { pointwise nat_eq };

    ghost laws = { partial_equiv_from_equiv nat_list_eq_equiv };

    fn eq(&self, other: &Key) -> bool {
        self.as_str() == other.as_str()
    }
}

impl Eq for Key {
    ghost laws = { nat_list_eq_equiv };
}
