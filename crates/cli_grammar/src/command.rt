//! The command line, as `clap` gets it.
ghost use Rattle.std.specs.Prelude.{◌≡◌, ◌<◌, ◌≤◌, IfOk, codes, false, length};
ghost use Rattle.clap.specs.Words.{app_of, rule_of, shape_of, with_subcommand};
ghost use Rattle.clap.specs.declared.builder.command.Command.TheViews.{out-Command};
ghost use Rattle.cli_grammar.specs.Commands.{desk_app, id_of, ids, optional_rule, subcommand_shape, with_optional};
ghost use Rattle.cli_grammar.specs.Commands.{word_rule};
ghost use Rattle.cli_grammar.specs.Commands as spec;

use crate::help;
use clap::{Arg, Command};
use std::alloc::{AllocError, Global};

/// A word, as help shows it.
#[derive(Clone, Copy)]
struct Shown<'a> {
    name: &'a str,
    help: &'a str,
}

/// The id of the word at this place, from 0, of a subcommand. Its name in help is separate.
pub fn id_at<'a>(place: usize) -> &'a str
    requires { place < length ids }
    ensures { result.now ≡ id_of place }
{
    match place {
        0 => "first",
        1 => "second",
        2 => "third",
        _ => "fourth",
    }
}

/// A required word.
fn word<'a>(alloc: Global, id: &'a str, shown: &Shown<'a>) -> Arg<'a>
    ensures rule { rule_of result ≡ word_rule id.now }
    ensures local { result.global ≡ false }
{
    Arg::new(alloc, id)
        .required(true)
        .value_name(shown.name)
        .help(shown.help)
}

/// A word that may be left out.
fn optional_word<'a>(alloc: Global, id: &'a str, shown: &Shown<'a>) -> Arg<'a>
    ensures rule { rule_of result ≡ optional_rule id.now }
    ensures local { result.global ≡ false }
{
    Arg::new(alloc, id).value_name(shown.name).help(shown.help)
}

/// A subcommand that takes a word for each of `words`.
fn subcommand<'a>(
    alloc: Global,
    name: &'a str,
    about: &'a str,
    more: &'a str,
    words: &[Shown<'a>],
) -> Result<Command<'a>, AllocError>
    requires { length words.now ≤ length ids }
    ensures shape { IfOk result (λ c. shape_of c ≡ subcommand_shape name.now (length words.now)) }
    ensures local { IfOk result (λ c. (out-Command c).has_globals ≡ false) }
{
    let mut command = Command::new(alloc, name).about(about).after_help(more);
    for (place, shown) in words.iter().enumerate() {
        command = command.arg(word(alloc, id_at(place), shown))?;
    }
    Ok(command)
}

/// The command with one subcommand more.
fn with_one_more<'a>(
    alloc: Global,
    command: Command<'a>,
    name: &'a str,
    about: &'a str,
    more: &'a str,
    words: &[Shown<'a>],
) -> Result<Command<'a>, AllocError>
    requires { length words.now ≤ length ids }
    ensures { IfOk result (λ c. app_of c
        ≡ with_subcommand (app_of command.entry) (subcommand_shape name.now (length words.now))) }
{
    let added = subcommand(alloc, name, about, more, words)?;
    command.subcommand(added)
}

/// The path of a desk's file.
fn db<'a>() -> Shown<'a> {
    Shown {
        name: "DB",
        help: "The path of the desk's file",
    }
}

/// The path of an image.
fn image<'a>() -> Shown<'a> {
    Shown {
        name: "FILE",
        help: "The path of the image",
    }
}

/// The owner's GUID.
fn owner<'a>() -> Shown<'a> {
    Shown {
        name: "OWNER",
        help: "The owner's GUID, as 8-4-4-4-12 hexadecimal digits",
    }
}

/// The command with `init`.
fn with_init<'a>(alloc: Global, command: Command<'a>) -> Result<Command<'a>, AllocError>
    ensures { IfOk result (λ c. app_of c
        ≡ with_subcommand (app_of command.entry) (subcommand_shape (codes "init") 2)) }
{
    with_one_more(
        alloc,
        command,
        "init",
        "Makes a desk without calls in a file",
        help::INIT,
        &[db(), owner()],
    )
}

/// The name of a new person.
fn name<'a>() -> Shown<'a> {
    Shown {
        name: "NAME",
        help: "1 to 32 of a to z, 0 to 9 and -, the first a letter",
    }
}

/// The role of a new person.
fn role<'a>() -> Shown<'a> {
    Shown {
        name: "ROLE",
        help: "submitter, reviewer, officer or signer",
    }
}

/// The key of a call.
fn key<'a>() -> Shown<'a> {
    Shown {
        name: "KEY",
        help: "1 to 64 visible characters of ASCII, a new one for each call",
    }
}

/// The command with `person`.
fn with_person<'a>(alloc: Global, command: Command<'a>) -> Result<Command<'a>, AllocError>
    ensures { IfOk result (λ c. app_of c
        ≡ with_subcommand (app_of command.entry) (subcommand_shape (codes "person") 4)) }
{
    with_one_more(
        alloc,
        command,
        "person",
        "Adds a person to a desk, with the token on standard input",
        help::PERSON,
        &[db(), name(), role(), key()],
    )
}

/// The command with `enrol`.
fn with_enrol<'a>(alloc: Global, command: Command<'a>) -> Result<Command<'a>, AllocError>
    ensures { IfOk result (λ c. app_of c
        ≡ with_subcommand (app_of command.entry) (subcommand_shape (codes "enrol") 4)) }
{
    with_one_more(
        alloc,
        command,
        "enrol",
        "Adds a person to a desk, with the token's SHA-256 on standard input",
        help::ENROL,
        &[db(), name(), role(), key()],
    )
}

/// The path of minutes.
fn minutes_file<'a>() -> Shown<'a> {
    Shown {
        name: "FILE",
        help: "The path of the minutes, or - for standard input",
    }
}

/// The command with `minutes`.
fn with_minutes<'a>(alloc: Global, command: Command<'a>) -> Result<Command<'a>, AllocError>
    ensures { IfOk result (λ c. app_of c
        ≡ with_subcommand (app_of command.entry) (subcommand_shape (codes "minutes") 1)) }
{
    with_one_more(
        alloc,
        command,
        "minutes",
        "Prints the accepted calls of a desk",
        help::MINUTES,
        &[db()],
    )
}

/// The command with the subcommands that make and keep a desk.
fn with_keeping<'a>(alloc: Global, command: Command<'a>) -> Result<Command<'a>, AllocError>
    ensures { IfOk result (λ c. app_of c ≡ spec.with_keeping (app_of command.entry)) }
{
    let command = with_init(alloc, command)?;
    let command = with_person(alloc, command)?;
    let command = with_enrol(alloc, command)?;
    let command = with_minutes(alloc, command)?;
    with_one_more(
        alloc,
        command,
        "follow",
        "Makes a desk that follows the minutes of another, or goes on with it",
        help::FOLLOW,
        &[db(), owner(), minutes_file()],
    )
}

/// The command with `serve`.
fn with_serve<'a>(alloc: Global, command: Command<'a>) -> Result<Command<'a>, AllocError>
    ensures { IfOk result (λ c. app_of c
        ≡ with_subcommand (app_of command.entry) (subcommand_shape (codes "serve") 3)) }
{
    let port = Shown {
        name: "PORT",
        help: "The port of 127.0.0.1, 1 to 65535",
    };
    let count = Shown {
        name: "COUNT",
        help: "How many connections are served, 1 to 1000000",
    };
    with_one_more(
        alloc,
        command,
        "serve",
        "Serves requests to a desk over HTTP, one connection after another",
        help::SERVE,
        &[db(), port, count],
    )
}

/// The command with the subcommands that take requests.
fn with_requests<'a>(alloc: Global, command: Command<'a>) -> Result<Command<'a>, AllocError>
    ensures { IfOk result (λ c. app_of c ≡ spec.with_requests (app_of command.entry)) }
{
    let command = with_serve(alloc, command)?;
    with_one_more(
        alloc,
        command,
        "answer",
        "Answers one request to a desk, an HTTP request on standard input",
        help::ANSWER,
        &[db()],
    )
}

/// The command with `verdict`.
fn with_verdict<'a>(alloc: Global, command: Command<'a>) -> Result<Command<'a>, AllocError>
    ensures { IfOk result (λ c. app_of c
        ≡ with_subcommand (app_of command.entry) (subcommand_shape (codes "verdict") 2)) }
{
    with_one_more(
        alloc,
        command,
        "verdict",
        "Prints whether a desk allows an EFI image, or why it refuses it",
        help::VERDICT,
        &[db(), image()],
    )
}

/// The command with the subcommands for an image.
fn with_images<'a>(alloc: Global, command: Command<'a>) -> Result<Command<'a>, AllocError>
    ensures { IfOk result (λ c. app_of c ≡ spec.with_images (app_of command.entry)) }
{
    let command = with_one_more(
        alloc,
        command,
        "facts",
        "Prints the digests, certificates and SBAT components of an EFI image",
        help::FACTS,
        &[image()],
    )?;
    let command = with_one_more(
        alloc,
        command,
        "ranges",
        "Prints the ranges of an EFI image that Authenticode hashes",
        help::RANGES,
        &[image()],
    )?;
    with_verdict(alloc, command)
}

/// The command with the subcommand for a proposal.
fn with_proposals<'a>(alloc: Global, command: Command<'a>) -> Result<Command<'a>, AllocError>
    ensures { IfOk result (λ c. app_of c ≡ spec.with_proposals (app_of command.entry)) }
{
    let number = Shown {
        name: "NUMBER",
        help: "The number of the proposal",
    };
    with_one_more(
        alloc,
        command,
        "impact",
        "Prints the images that the Confirm of a proposal would bar",
        help::IMPACT,
        &[db(), number],
    )
}

/// The command with the subcommands that publish a desk's decisions.
fn with_exports<'a>(alloc: Global, command: Command<'a>) -> Result<Command<'a>, AllocError>
    ensures { IfOk result (λ c. app_of c ≡ spec.with_exports (app_of command.entry)) }
{
    let command = with_one_more(
        alloc,
        command,
        "db",
        "Writes what a desk allows as signature lists (db)",
        help::DB,
        &[db()],
    )?;
    let command = with_one_more(
        alloc,
        command,
        "dbx",
        "Writes what a desk has revoked as signature lists (dbx)",
        help::DBX,
        &[db()],
    )?;
    let command = with_one_more(
        alloc,
        command,
        "shim",
        "Writes what a desk has revoked in the form that shim reads",
        help::SHIM,
        &[db()],
    )?;
    with_one_more(
        alloc,
        command,
        "level",
        "Writes the SBAT level of a desk",
        help::LEVEL,
        &[db()],
    )
}

/// `audit`.
fn audit_subcommand<'a>(alloc: Global) -> Result<Command<'a>, AllocError>
    ensures shape { IfOk result (λ c. shape_of c
        ≡ with_optional (subcommand_shape (codes "audit") 2)) }
    ensures local { IfOk result (λ c. (out-Command c).has_globals ≡ false) }
{
    let export = Shown {
        name: "EXPORT",
        help: "dbx, shim, db or level: the export that is written",
    };
    let command = subcommand(
        alloc,
        "audit",
        "Follows the minutes of a desk, and prints what its exports must be",
        help::AUDIT,
        &[owner(), minutes_file()],
    )?;
    command.arg(optional_word(alloc, id_at(2), &export))
}

/// The command with the subcommand that follows minutes without a desk.
fn with_audit<'a>(alloc: Global, command: Command<'a>) -> Result<Command<'a>, AllocError>
    ensures { IfOk result (λ c. app_of c ≡ spec.with_audit (app_of command.entry)) }
{
    let added = audit_subcommand(alloc)?;
    command.subcommand(added)
}

/// The command with the subcommands that work on files without a desk.
fn with_files<'a>(alloc: Global, command: Command<'a>) -> Result<Command<'a>, AllocError>
    ensures { IfOk result (λ c. app_of c ≡ spec.with_files (app_of command.entry)) }
{
    let lists = Shown {
        name: "FILE",
        help: "The path of the signature lists",
    };
    let command = with_audit(alloc, command)?;
    let command = with_one_more(
        alloc,
        command,
        "list",
        "Prints the place, kind and count of each signature list in a file",
        help::LIST,
        &[lists],
    )?;
    with_one_more(
        alloc,
        command,
        "pack",
        "Packs the SHA-256 digests on standard input into a signature list",
        help::PACK,
        &[owner()],
    )
}

/// The command without its subcommands.
fn bare_command<'a>(alloc: Global) -> Result<Command<'a>, AllocError>
    ensures { IfOk result (λ c. app_of c ≡ spec.bare_app) }
{
    Command::new(alloc, "desk")
        .version(help::VERSION)
        .override_help(help::DESK)
        .propagate_version(true)
        .no_binary_name(true)
        .subcommand_required(true)
        .bin_name("desk")
}

/// The program's command. Takes memory.
pub fn desk_command<'a>(alloc: Global) -> Result<Command<'a>, AllocError>
    ensures { IfOk result (λ c. app_of c ≡ desk_app) }
{
    let command = with_keeping(alloc, bare_command(alloc)?)?;
    let command = with_requests(alloc, command)?;
    let command = with_images(alloc, command)?;
    let command = with_proposals(alloc, command)?;
    let command = with_exports(alloc, command)?;
    with_files(alloc, command)
}
