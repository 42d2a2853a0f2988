//! Names of people.
ghost use Rattle.std.specs.Prelude.{◌≡◌, ℕ, List, MatchResult, false, nat_eq, string_bytes, true};
ghost use Rattle.std.specs.Cmp.{partial_equiv_from_equiv};
ghost use Rattle.std.specs.Cmp.Lexicographic.{nat_list_eq_equiv, pointwise};
ghost use Rattle.desk_types.specs.Forms.{is_person_name};

use crate::{TextFault, forms};
use std::alloc::{AllocError, Global};
use std::marker::Model;

/// A person's name: 1 to 32 of `a` to `z`, `0` to `9` and `-`, the first a letter. A contract sees
/// the list of its bytes.
#[derive(Debug, Drop)]
pub struct PersonName {
    text: String,
}

impl Model for PersonName {
    ghost Value = { List ℕ };

    ghost view = { λ n. string_bytes n.text };

    ghost invariant = { λ n. is_person_name (string_bytes n.text) ≡ true };
}

impl PersonName {
    /// The name whose bytes these are. Takes memory for them.
    ///
    /// `Form`: they aren't a person's name. `NoMemory`: memory was refused.
    pub fn parse(alloc: Global, text: &[u8]) -> Result<PersonName, TextFault>
        ensures found { is_person_name text.now ≡ true
            → MatchResult result (λ name. name ≡ text.now) (λ fault. fault ≡ TextFault.NoMemory) }
        ensures only { is_person_name text.now ≡ false → result ≡ Err TextFault.Form }
    {
        let text = forms::held_in_form(alloc, forms::is_person_name(text), text)?;
        Ok(PersonName { text })
    }

    /// Its bytes, as text.
    pub fn as_str(&self) -> &str
        ensures value { result.now ≡ self.now }
        ensures form { is_person_name self.now ≡ true }
    {
        self.text.as_str()
    }
}

impl Clone for PersonName {
    ghost is_clone = { λ name copy. copy ≡ name };

    /// A copy. Takes memory for its bytes.
    fn clone(&self) -> Result<PersonName, AllocError> {
        let text = self.text.clone()?;
        Ok(PersonName { text })
    }
}

impl PartialEq for PersonName {
    ghost eq = { pointwise nat_eq };

    ghost laws = { partial_equiv_from_equiv nat_list_eq_equiv };

    fn eq(&self, other: &PersonName) -> bool {
        self.as_str() == other.as_str()
    }
}

impl Eq for PersonName {
    ghost laws = { nat_list_eq_equiv };
}
