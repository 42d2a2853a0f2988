//! Generations (shim's SBAT.md).
ghost use Rattle.std.specs.Prelude.{◌≡◌, ℕ, Some, None, if◌then◌else◌, true};
ghost use Rattle.sbat.specs.Fields.{generation_of, is_generation};

use crate::digits::{are_digits, decimal};
use std::marker::Model;

/// A generation: 1 to 4,294,967,295. A contract sees the number.
#[derive(Clone, Copy, Debug, PartialEq, Eq, PartialOrd, Ord)]
pub struct Generation(u32);

impl Model for Generation {
    ghost Value = { ℕ };

    ghost view = { λ g. g.0 };

    ghost invariant = { λ g. is_generation g.0 ≡ true };

    ghost inverse = { λ number. record { 0 = number } };
}

impl Generation {
    /// The generation of that number, for any but 0.
    pub fn new(number: u32) -> Option<Generation>
        ensures { result ≡ (if is_generation number then Some number else None) }
    {
        if number == 0 {
            None
        } else {
            Some(Generation(number))
        }
    }

    /// The number.
    pub fn value(self) -> u32
        ensures value { result ≡ self }
        ensures range { is_generation self ≡ true }
    {
        self.0
    }

    /// The generation that 1 to 10 decimal digits spell. Leading zeros are allowed.
    pub fn parse(text: &[u8]) -> Option<Generation>
        ensures { result ≡ generation_of text.now }
    {
        if text.is_empty() || 10 < text.len() || !are_digits(text) {
            return None;
        }
        match u32::try_from(decimal(text)) {
            Ok(number) => Generation::new(number),
            Err(_) => None,
        }
    }
}
