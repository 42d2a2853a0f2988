//! The number of a proposal among the words of a command line.
ghost use Rattle.std.specs.Prelude.{◌≡◌, IfErr, IfOk, decimal};
ghost use Rattle.cli_arguments.specs.values.Words.{IsWrongNumber};

use crate::values::stop::{Stop, Word};
use desk_types::ProposalNumber;

/// The number of a proposal that a word spells, in decimal digits without a leading zero. Takes no
/// memory.
pub fn proposal_from(text: &str) -> Result<ProposalNumber, Stop>
    ensures ok { IfOk result (λ number. text.now ≡ decimal number) }
    ensures err { IfErr result (IsWrongNumber text.now) }
{
    match ProposalNumber::parse(text.as_bytes()) {
        Some(number) => Ok(number),
        None => Err(Stop::Word(Word::Number)),
    }
}
