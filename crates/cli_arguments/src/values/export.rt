//! An export, from a word.
ghost use Rattle.std.specs.Prelude.{◌≡◌, option_map};
ghost use Rattle.cli_arguments.specs.values.Exports.{asked_export as asked, named_export};

use crate::values::stop::{Stop, Word};
use desk_exports::Export;

/// The export that a word of `audit` names: dbx, shim, db or level. Takes no memory.
pub fn export_named(text: &str) -> Result<Export, Stop>
    ensures { result ≡ named_export text.now }
{
    match text {
        "dbx" => Ok(Export::Dbx),
        "shim" => Ok(Export::Shim),
        "db" => Ok(Export::Db),
        "level" => Ok(Export::Level),
        _ => Err(Stop::Word(Word::Export)),
    }
}

/// The export that an audit writes, if its last word is there to name one. Takes no memory.
pub(crate) fn asked_export(word: Option<&str>) -> Result<Option<Export>, Stop>
    ensures { result ≡ asked (option_map (λ text. text.now) word.entry) }
{
    match word {
        None => Ok(None),
        Some(text) => Ok(Some(export_named(text)?)),
    }
}
