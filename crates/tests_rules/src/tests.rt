//! Scripts: on each line a call's input and its answer.
mod bytes;
mod commands;
mod components;
mod imports;
mod inputs;
mod levels;
mod lists;
mod longest;
mod packing;
mod rules;
mod words;

use base::Refusal;
use std::alloc::Global;
use std::fmt::Write;
use std::io::ErrorKind;
use std::process::Abort;
use std::test::Fail;
use testing::{Answers, Narrow, answered};

/// The calls that scripts make.
#[derive(Clone, Copy)]
enum Call {
    Command,
    Components,
    Csv,
    Dbx,
    Digest,
    Element,
    Generation,
    Guid,
    Level,
    LevelImport,
    Lines,
    Lists,
    Name,
    Pack,
    Stamp,
    Tbs,
}

/// Appends a refusal with its place.
fn refuse(told: &mut String, refusal: Refusal, place: Option<u64>) -> Result<(), Fail> {
    told.push_str(refusal.name())?;
    if let Some(place) = place {
        write!(told, " at {place}")?;
    }
    Ok(())
}

/// Appends bytes in hexadecimal.
fn tell_hex(alloc: Global, told: &mut String, bytes: &[u8]) -> Result<(), Fail> {
    told.push_str(hex::encode(alloc, bytes)?.as_str())?;
    Ok(())
}

impl Answers for Call {
    fn answer(&self, alloc: Global, told: &mut String, input: &str) -> Result<(), Fail> {
        match self {
            Call::Command => commands::of_command(alloc, told, input),
            Call::Components => components::of_components(alloc, told, input),
            Call::Csv => imports::of_csv(alloc, told, input),
            Call::Dbx => imports::of_dbx(alloc, told, input),
            Call::Digest => bytes::of_digest(told, input),
            Call::Element => bytes::of_element(alloc, told, input),
            Call::Generation => components::of_generation(told, input),
            Call::Guid => bytes::of_guid(alloc, told, input),
            Call::Level => levels::of_level(alloc, told, input),
            Call::LevelImport => imports::of_level(alloc, told, input),
            Call::Lines => bytes::of_lines(alloc, told, input),
            Call::Lists => lists::of_lists(alloc, told, input),
            Call::Name => components::of_name(alloc, told, input),
            Call::Pack => packing::of_pack(alloc, told, input),
            Call::Stamp => components::of_stamp(told, input),
            Call::Tbs => bytes::of_tbs(alloc, told, input),
        }
    }
}

/// Compares all answers of a script.
fn check(rt: &impl Abort, alloc: Global, call: Call, script: &str) -> Result<(), Fail> {
    let told = answered(alloc, &call, script)?;
    assert!(rt; told.as_str() == script, "{told}");
    Ok(())
}

/// A writer that takes this many bytes in each call and fails at this call.
fn narrow(alloc: Global, most: usize, fails_at: u64) -> Narrow {
    Narrow {
        taken: Vec::new(alloc),
        most,
        calls: 0,
        fails_at,
        kind: ErrorKind::Interrupted,
    }
}

/// Whether these are the first bytes of all, and all of them just where the whole was written.
fn is_beginning(taken: &[u8], all: &[u8], is_whole: bool) -> bool {
    all.starts_with(taken) && (taken.len() == all.len()) == is_whole
}
