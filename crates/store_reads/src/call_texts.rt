//! A row of the calls, with its caller and reply still as texts.
ghost use Rattle.std.specs.Prelude.{◌≡◌, ℕ, List, string_bytes};

use desk_history::CommandText;
use desk_types::Key;
use std::marker::Model;

/// A text of a column. A contract sees the list of its bytes.
#[derive(Debug, Drop)]
pub struct ColumnText {
    text: String,
}

impl Model for ColumnText {
    ghost Value = { List ℕ };

    ghost view = { λ t. string_bytes t.text };
}

impl ColumnText {
    /// The text.
    pub(crate) fn new(text: String) -> ColumnText
        ensures { result ≡ string_bytes text }
    {
        ColumnText { text }
    }

    /// Its bytes.
    pub fn as_bytes(&self) -> &[u8]
        ensures { result.now ≡ self.now }
    {
        self.text.as_bytes()
    }
}

/// The columns of a call: its number from 1, the caller's name (`console` for the console), the
/// key, the canonical text of the command, and the text of the reply.
#[derive(Debug, Drop)]
pub struct CallTexts {
    pub number: u64,
    pub caller: ColumnText,
    pub key: Key,
    pub text: CommandText,
    pub reply: ColumnText,
}
