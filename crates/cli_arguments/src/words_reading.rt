//! The reading of the program's words.
ghost use Rattle.std.specs.Prelude.{◌≡◌, ◌<◌, length, map, option_and_then, option_map, string_bytes};
ghost use Rattle.clap.specs.Words.{Text, first_of, found_of, rows_of, subcommand_rows_of};
ghost use Rattle.cli_grammar.specs.Commands.{id_of, ids};
ghost use Rattle.cli_arguments.specs.Lines.{ReadsWords, Line, Spells, Takes, audit_in, line_in, line_of};
ghost use Rattle.cli_arguments.specs.Lines.{enrol, follow, four_in, impact, init, person, serve, three_in};
ghost use Rattle.cli_arguments.specs.Lines.{two_in, verdict};

use crate::line::{AuditWords, FollowWords, PersonWords, ServeWords, Words, WordsFault};
use clap::ArgMatches;
use clap::error::ErrorKind;
use cli_grammar::{desk_command, id_at};
use std::alloc::Global;

/// The word at this place of a subcommand.
fn word_at<'a>(matches: &ArgMatches<'a>, place: usize) -> Option<&'a str>
    requires { place < length ids }
    ensures { option_map (λ word. word.now) result
        ≡ first_of (id_of place) (rows_of (found_of matches.now)) }
{
    matches.get_str(id_at(place))
}

/// `init` with its words.
fn init_at<'a>(matches: &ArgMatches<'a>) -> Option<Words<'a>>
    ensures { option_map line_of result ≡ two_in init (rows_of (found_of matches.now)) }
{
    let db = word_at(matches, 0)?;
    let owner = word_at(matches, 1)?;
    Some(Words::Init { db, owner })
}

/// The words of `person` or `enrol`.
fn person_words_at<'a>(matches: &ArgMatches<'a>) -> Option<PersonWords<'a>>
    ensures { (line : Text → Text → Text → Text → Line)
        → option_map (λ w. line w.db.now w.name.now w.role.now w.key.now) result
        ≡ four_in line (rows_of (found_of matches.now)) }
{
    let db = word_at(matches, 0)?;
    let name = word_at(matches, 1)?;
    let role = word_at(matches, 2)?;
    let key = word_at(matches, 3)?;
    Some(PersonWords {
        db,
        name,
        role,
        key,
    })
}

/// `person` with its words.
fn person_at<'a>(matches: &ArgMatches<'a>) -> Option<Words<'a>>
    ensures { option_map line_of result ≡ four_in person (rows_of (found_of matches.now)) }
{
    Some(Words::Person(person_words_at(matches)?))
}

/// `enrol` with its words.
fn enrol_at<'a>(matches: &ArgMatches<'a>) -> Option<Words<'a>>
    ensures { option_map line_of result ≡ four_in enrol (rows_of (found_of matches.now)) }
{
    Some(Words::Enrol(person_words_at(matches)?))
}

/// `serve` with its words.
fn serve_at<'a>(matches: &ArgMatches<'a>) -> Option<Words<'a>>
    ensures { option_map line_of result ≡ three_in serve (rows_of (found_of matches.now)) }
{
    let db = word_at(matches, 0)?;
    let port = word_at(matches, 1)?;
    let count = word_at(matches, 2)?;
    Some(Words::Serve(ServeWords { db, port, count }))
}

/// `follow` with its words.
fn follow_at<'a>(matches: &ArgMatches<'a>) -> Option<Words<'a>>
    ensures { option_map line_of result ≡ three_in follow (rows_of (found_of matches.now)) }
{
    let db = word_at(matches, 0)?;
    let owner = word_at(matches, 1)?;
    let file = word_at(matches, 2)?;
    Some(Words::Follow(FollowWords { db, owner, file }))
}

/// `verdict` with its words.
fn verdict_at<'a>(matches: &ArgMatches<'a>) -> Option<Words<'a>>
    ensures { option_map line_of result ≡ two_in verdict (rows_of (found_of matches.now)) }
{
    let db = word_at(matches, 0)?;
    let file = word_at(matches, 1)?;
    Some(Words::Verdict { db, file })
}

/// `impact` with its words.
fn impact_at<'a>(matches: &ArgMatches<'a>) -> Option<Words<'a>>
    ensures { option_map line_of result ≡ two_in impact (rows_of (found_of matches.now)) }
{
    let db = word_at(matches, 0)?;
    let number = word_at(matches, 1)?;
    Some(Words::Impact { db, number })
}

/// `audit` with its words.
fn audit_at<'a>(matches: &ArgMatches<'a>) -> Option<Words<'a>>
    ensures { option_map line_of result ≡ audit_in (rows_of (found_of matches.now)) }
{
    let owner = word_at(matches, 0)?;
    let file = word_at(matches, 1)?;
    let export = word_at(matches, 2);
    Some(Words::Audit(AuditWords {
        owner,
        file,
        export,
    }))
}

/// The subcommand of this name, with its words.
fn line_at<'a>(name: &'a str, matches: &ArgMatches<'a>) -> Option<Words<'a>>
    ensures { option_map line_of result ≡ line_in (name.now, rows_of (found_of matches.now)) }
{
    match name {
        "init" => init_at(matches),
        "person" => person_at(matches),
        "enrol" => enrol_at(matches),
        "follow" => follow_at(matches),
        "serve" => serve_at(matches),
        "verdict" => verdict_at(matches),
        "impact" => impact_at(matches),
        "audit" => audit_at(matches),
        _ => Words::from_one(name, word_at(matches, 0)?),
    }
}

/// The result of `clap`, as a subcommand with its words.
fn subcommand_words<'a>(matches: &ArgMatches<'a>) -> Option<Words<'a>>
    ensures { option_map line_of result ≡ option_and_then line_in (subcommand_rows_of matches.now) }
{
    let (name, found) = matches.subcommand()?;
    line_at(name, found)
}

/// Reads the words after the program's name.
pub fn words<'a>(alloc: Global, given: &'a [String]) -> Result<Words<'a>, WordsFault>
    ensures exact { ReadsWords (map string_bytes given.entry.now) result }
    ensures taken { (line : Line) → Spells (map string_bytes given.entry.now) line
        → Takes line result }
{
    let Ok(command) = desk_command(alloc) else {
        return Err(WordsFault::NoMemory);
    };
    match command.try_get_matches_from(given) {
        Err(error) => {
            if error.kind() == ErrorKind::OutOfMemory {
                return Err(WordsFault::NoMemory);
            }
            Err(WordsFault::Refused(error))
        }
        Ok(matches) => subcommand_words(&matches).ok_or(WordsFault::Missing),
    }
}
