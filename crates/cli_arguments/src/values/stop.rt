//! Reasons to stop a subcommand.
ghost use Rattle.std.specs.Prelude.{◌≡◌};
ghost use Rattle.cli_arguments.specs.values.Words.{name_of, of_fault};

use cli_output::Fault;

/// A word of a subcommand that has a form, or the token, the first line of its standard input.
#[derive(Clone, Copy, Debug, PartialEq, Eq)]
pub enum Word {
    Owner,
    Name,
    Role,
    Key,
    Token,
    Port,
    Count,
    Number,
    Export,
}

impl Word {
    /// Its name in help.
    pub fn name(self) -> &'static str
        ensures { result.now ≡ name_of self }
    {
        match self {
            Word::Owner => "OWNER",
            Word::Name => "NAME",
            Word::Role => "ROLE",
            Word::Key => "KEY",
            Word::Token => "TOKEN",
            Word::Port => "PORT",
            Word::Count => "COUNT",
            Word::Number => "NUMBER",
            Word::Export => "EXPORT",
        }
    }
}

/// Why a subcommand stops: a word that isn't in its form, or a fault.
#[derive(Clone, Copy, Debug, PartialEq, Eq)]
pub enum Stop {
    Word(Word),
    Fault(Fault),
}

impl From<Fault> for Stop {
    ghost from_gives = { λ fault stop. stop ≡ of_fault fault };

    fn from(fault: Fault) -> Stop {
        Stop::Fault(fault)
    }
}
