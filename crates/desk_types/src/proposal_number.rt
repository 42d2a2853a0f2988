//! Numbers of proposals.
ghost use Rattle.std.specs.Prelude.{◌≡◌, ℕ, IfSome, IfNone, MatchOption, false, decimal, true};
ghost use Rattle.desk_types.specs.Forms.{is_proposal_number};

use crate::ordinal::Ordinal;
use std::marker::Model;

/// A proposal's number: 1 to `GREATEST_NUMBER`. A contract sees the number.
#[derive(Clone, Copy, Debug, PartialEq, Eq, PartialOrd, Ord)]
pub struct ProposalNumber {
    ordinal: Ordinal,
}

impl Model for ProposalNumber {
    ghost Value = { ℕ };

    ghost view = { λ n. n.ordinal };

    ghost inverse = { λ number. record { ordinal = number } };
}

impl ProposalNumber {
    /// The number, or `None` if it is 0 or above `GREATEST_NUMBER`.
    pub fn new(number: u64) -> Option<ProposalNumber>
        ensures { MatchOption result (is_proposal_number number ≡ false)
            (λ proposal. (proposal ≡ number) × (is_proposal_number number ≡ true)) }
    {
        let ordinal = Ordinal::new(number)?;
        Some(ProposalNumber { ordinal })
    }

    /// The number, already checked.
    pub(crate) fn of(ordinal: Ordinal) -> ProposalNumber
        ensures { result ≡ ordinal }
    {
        ProposalNumber { ordinal }
    }

    /// The number.
    pub fn value(self) -> u64
        ensures value { result ≡ self }
        ensures form { is_proposal_number self ≡ true }
    {
        self.ordinal.value()
    }

    /// The number whose decimal text this is, without a leading zero.
    pub fn parse(text: &[u8]) -> Option<ProposalNumber>
        ensures found { IfSome result (λ number. text.now ≡ decimal number) }
        ensures only { IfNone result ((number : ℕ) → is_proposal_number number ≡ true
            → text.now ≡ decimal number → ⊥) }
    {
        let ordinal = Ordinal::parse(text)?;
        Some(ProposalNumber { ordinal })
    }
}
