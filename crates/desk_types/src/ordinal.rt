//! Numbers of requests and of proposals.
ghost use Rattle.std.specs.Prelude.{◌≡◌, ℕ, IfSome, IfNone, MatchOption, false, decimal, true};
ghost use Rattle.desk_types.specs.Forms.{is_ordinal};

use crate::forms;
use sbat::decimal;
use std::marker::Model;

/// The greatest number of a request or a proposal.
pub const GREATEST_NUMBER: u64 = 999_999;

/// A number of 1 to `GREATEST_NUMBER`. A contract sees the number.
#[derive(Clone, Copy, Debug, PartialEq, Eq, PartialOrd, Ord)]
pub(crate) struct Ordinal {
    number: u64,
}

impl Model for Ordinal {
    ghost Value = { ℕ };

    ghost view = { λ n. n.number };

    ghost invariant = { λ n. is_ordinal n.number ≡ true };

    ghost inverse = { λ number. record { number = number } };
}

impl Ordinal {
    /// The number, or `None` if it is 0 or above `GREATEST_NUMBER`.
    pub(crate) fn new(number: u64) -> Option<Ordinal>
        ensures { MatchOption result (is_ordinal number ≡ false)
            (λ ordinal. (ordinal ≡ number) × (is_ordinal number ≡ true)) }
    {
        if number < 1 || GREATEST_NUMBER < number {
            return None;
        }
        Some(Ordinal { number })
    }

    /// The number.
    pub(crate) fn value(self) -> u64
        ensures value { result ≡ self }
        ensures form { is_ordinal self ≡ true }
    {
        self.number
    }

    /// The number whose decimal text this is, without a leading zero.
    pub(crate) fn parse(text: &[u8]) -> Option<Ordinal>
        ensures found { IfSome result (λ number. text.now ≡ decimal number) }
        ensures only { IfNone result ((number : ℕ) → is_ordinal number ≡ true
            → text.now ≡ decimal number → ⊥) }
    {
        if !forms::is_decimal(text) {
            return None;
        }
        Ordinal::new(decimal(text))
    }
}
