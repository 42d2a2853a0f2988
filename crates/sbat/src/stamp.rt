//! Stamps of levels (shim's SBAT.md).
ghost use Rattle.std.specs.Prelude.{◌≡◌, ℕ, Some, None, if◌then◌else◌, true};
ghost use Rattle.sbat.specs.Fields.{is_stamp, stamp_of};

use crate::digits::{are_digits, decimal};
use std::marker::Model;

/// The stamp of a level: ten digits, the first not 0, so 1,000,000,000 to 9,999,999,999. A contract
/// sees the number.
#[derive(Clone, Copy, Debug, PartialEq, Eq, PartialOrd, Ord)]
pub struct Stamp(u64);

impl Model for Stamp {
    ghost Value = { ℕ };

    ghost view = { λ s. s.0 };

    ghost invariant = { λ s. is_stamp s.0 ≡ true };

    ghost inverse = { λ number. record { 0 = number } };
}

impl Stamp {
    /// The stamp of the first level, 2021030218 (shim's SBAT.md).
    pub fn original() -> Stamp
        ensures { result ≡ 2021030218 }
    {
        Stamp(2_021_030_218)
    }

    /// The stamp of that number, if it is in range.
    pub fn new(number: u64) -> Option<Stamp>
        ensures { result ≡ (if is_stamp number then Some number else None) }
    {
        if (1_000_000_000..10_000_000_000).contains(&number) {
            Some(Stamp(number))
        } else {
            None
        }
    }

    /// The number.
    pub fn value(self) -> u64
        ensures value { result ≡ self }
        ensures range { is_stamp self ≡ true }
    {
        self.0
    }

    /// The stamp that ten decimal digits spell, the first not 0.
    pub fn parse(text: &[u8]) -> Option<Stamp>
        ensures { result ≡ stamp_of text.now }
    {
        if text.len() != 10 || !are_digits(text) {
            return None;
        }
        Stamp::new(decimal(text))
    }
}
