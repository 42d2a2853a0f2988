//! An owner, from a word.
ghost use Rattle.std.specs.Prelude.{IfErr, IfOk};
ghost use Rattle.base.specs.Guids.{IsGuidText};
ghost use Rattle.cli_arguments.specs.values.Words.{IsWrongOwner};

use crate::values::stop::{Stop, Word};
use base::Guid;

/// The owner whose GUID the word spells.
pub fn owner_from(text: &str) -> Result<Guid, Stop>
    ensures ok { IfOk result (IsGuidText text.now) }
    ensures err { IfErr result (IsWrongOwner text.now) }
{
    match Guid::parse(text) {
        Ok(owner) => Ok(owner),
        Err(_) => Err(Stop::Word(Word::Owner)),
    }
}
