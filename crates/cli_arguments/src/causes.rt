//! Why a file can't be opened: another look at it, after its fault was told. What is found then
//! need not be what the subcommand met.
use crate::line::{AuditWords, FollowWords, PersonWords, ServeWords, Words};
use base::Refusal;
use cli_output::Fault;
use std::fs::OpenOptions;
use std::{fs, io};

/// The files that a subcommand opens.
#[derive(Clone, Copy, Debug, PartialEq, Eq)]
pub struct Opened<'a> {
    /// The desk's file, and whether the subcommand makes it where it is missing.
    db: Option<(&'a str, bool)>,
    /// The file that it reads.
    file: Option<&'a str>,
}

/// The desk's file alone.
fn desk_at(db: &str) -> Opened<'_> {
    Opened {
        db: Some((db, false)),
        file: None,
    }
}

/// A file alone.
fn file_at(file: &str) -> Opened<'_> {
    Opened {
        db: None,
        file: Some(file),
    }
}

/// The file of this name; `-` is the standard input.
fn named(file: &str) -> Option<&str> {
    if file == "-" { None } else { Some(file) }
}

/// The files that the subcommand opens.
pub fn opened_by(words: Words<'_>) -> Opened<'_> {
    match words {
        Words::Init { db, owner: _ } => Opened {
            db: Some((db, true)),
            file: None,
        },
        Words::Person(PersonWords { db, .. }) | Words::Enrol(PersonWords { db, .. }) => desk_at(db),
        Words::Follow(FollowWords { db, file, .. }) => Opened {
            db: Some((db, true)),
            file: named(file),
        },
        Words::Serve(ServeWords { db, .. }) => desk_at(db),
        Words::Verdict { db, file } => Opened {
            db: Some((db, false)),
            file: Some(file),
        },
        Words::Facts { file } | Words::Ranges { file } | Words::List { file } => file_at(file),
        Words::Audit(AuditWords { file, .. }) => Opened {
            db: None,
            file: named(file),
        },
        Words::Answer { db }
        | Words::Minutes { db }
        | Words::Impact { db, number: _ }
        | Words::Db { db }
        | Words::Dbx { db }
        | Words::Shim { db }
        | Words::Level { db } => desk_at(db),
        Words::Pack { owner: _ } => Opened {
            db: None,
            file: None,
        },
    }
}

/// The cause of an error, in words.
fn cause_of(kind: io::ErrorKind) -> &'static str {
    match kind {
        io::ErrorKind::NotFound | io::ErrorKind::NotADirectory => "no such file",
        io::ErrorKind::PermissionDenied => "no permission",
        _ => "it can't be opened",
    }
}

/// Why the file can't be opened to be read, or written too; None, where it can be now.
fn cause(rt: &HostRuntime, path: &str, written: bool) -> Option<&'static str> {
    match fs::metadata(rt, path) {
        Err(error) => Some(cause_of(error.kind())),
        Ok(found) if found.is_dir() => Some("a folder"),
        Ok(found) if !found.is_file() => Some("no regular file"),
        Ok(_) => match OpenOptions::new().read(true).write(written).open(rt, path) {
            Ok(_) => None,
            Err(error) => Some(cause_of(error.kind())),
        },
    }
}

/// The same of a desk's file. Where it can be opened, a lock or its bytes may have kept it shut.
fn desk_cause(rt: &HostRuntime, db: &str, makes: bool) -> &'static str {
    match cause(rt, db, true) {
        None => "another program has it open, or it is no SQLite database",
        Some("no such file") if makes => "it can't be made there",
        Some(cause) => cause,
    }
}

/// Writes a line with the path and the cause, if the fault is File.
pub(crate) fn tell_cause(rt: &HostRuntime, fault: Fault, opened: Opened<'_>) {
    if fault.refusal != Refusal::File {
        return;
    }
    if let Some(file) = opened.file {
        if let Some(cause) = cause(rt, file, false) {
            let _ = eprintln!(rt; "{file}: {cause}");
            return;
        }
    }
    if let Some((db, makes)) = opened.db {
        let cause = desk_cause(rt, db, makes);
        let _ = eprintln!(rt; "{db}: {cause}");
    }
}
