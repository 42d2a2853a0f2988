//! The command line, parsed.
ghost use Rattle.std.specs.Prelude.{◌≡◌, option_map};
ghost use Rattle.cli_arguments.specs.Lines.{line_of, of_one_word};

use clap::Error;

/// The words of `person` or `enrol`.
#[derive(Clone, Copy, Debug, PartialEq, Eq)]
pub struct PersonWords<'a> {
    pub db: &'a str,
    pub name: &'a str,
    pub role: &'a str,
    pub key: &'a str,
}

/// The words of `serve`.
#[derive(Clone, Copy, Debug, PartialEq, Eq)]
pub struct ServeWords<'a> {
    pub db: &'a str,
    pub port: &'a str,
    pub count: &'a str,
}

/// The words of `audit`.
#[derive(Clone, Copy, Debug, PartialEq, Eq)]
pub struct AuditWords<'a> {
    pub owner: &'a str,
    pub file: &'a str,
    /// The export that is written, if one is named.
    pub export: Option<&'a str>,
}

/// The words of `follow`.
#[derive(Clone, Copy, Debug, PartialEq, Eq)]
pub struct FollowWords<'a> {
    pub db: &'a str,
    pub owner: &'a str,
    pub file: &'a str,
}

/// A subcommand with its words.
#[derive(Clone, Copy, Debug, PartialEq, Eq)]
pub enum Words<'a> {
    /// Makes a desk with this owner's GUID in this file.
    Init { db: &'a str, owner: &'a str },
    /// Adds a person to the desk in a file.
    Person(PersonWords<'a>),
    /// Adds a person, of whose token the SHA-256 is given, to the desk in a file.
    Enrol(PersonWords<'a>),
    /// Prints the minutes of the desk in this file.
    Minutes { db: &'a str },
    /// Follows minutes on the desk in a file, which is made if it is missing.
    Follow(FollowWords<'a>),
    /// Serves requests to the desk in a file, one connection after another.
    Serve(ServeWords<'a>),
    /// Answers the request on standard input, for the desk in this file.
    Answer { db: &'a str },
    /// Prints the facts of this image's file that the desk keeps.
    Facts { file: &'a str },
    /// Prints the ranges of this image's file that Authenticode hashes.
    Ranges { file: &'a str },
    /// Prints the verdict of the desk in this file on an image's file.
    Verdict { db: &'a str, file: &'a str },
    /// Prints what the Confirm of a proposal to the desk in this file would bar.
    Impact { db: &'a str, number: &'a str },
    /// Writes the list of allowed images of the desk in this file.
    Db { db: &'a str },
    /// Writes the list of revoked images of the desk in this file.
    Dbx { db: &'a str },
    /// Writes the same in the form that shim reads.
    Shim { db: &'a str },
    /// Writes the SBAT level of the desk in this file.
    Level { db: &'a str },
    /// Follows the minutes in a file, and prints what the exports of their desk must be.
    Audit(AuditWords<'a>),
    /// Prints the signature lists in this file.
    List { file: &'a str },
    /// Packs the digests of the standard input under this owner's GUID.
    Pack { owner: &'a str },
}

impl<'a> Words<'a> {
    /// The subcommand of one word that has this name, with its word.
    pub(crate) fn from_one(name: &str, word: &'a str) -> Option<Words<'a>>
        ensures { option_map line_of result ≡ of_one_word name.now word.now }
    {
        match name {
            "minutes" => Some(Words::Minutes { db: word }),
            "answer" => Some(Words::Answer { db: word }),
            "facts" => Some(Words::Facts { file: word }),
            "ranges" => Some(Words::Ranges { file: word }),
            "db" => Some(Words::Db { db: word }),
            "dbx" => Some(Words::Dbx { db: word }),
            "shim" => Some(Words::Shim { db: word }),
            "level" => Some(Words::Level { db: word }),
            "list" => Some(Words::List { file: word }),
            "pack" => Some(Words::Pack { owner: word }),
            _ => None,
        }
    }
}

/// Why no subcommand was returned.
#[derive(Debug, Drop)]
pub enum WordsFault {
    /// Memory was refused.
    NoMemory,
    /// The answer is a text: a mistake in the words, or the help or the version that they request.
    Refused(Error),
    /// `clap` found no mistake, but no subcommand with its words either. No such words are known,
    /// but `clap`'s contract doesn't rule them out.
    Missing,
}
