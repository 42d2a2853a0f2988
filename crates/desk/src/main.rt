//! The Secure Boot signing and revocation desk.
#![tactic(auto)]

mod at_files;

use crate::at_files::AtFiles;
use base::Refusal;
use cli_arguments::{Stop, Words, given_words, opened_by, run_words, tell_run, words_in};
use cli_output::Ending;
use sqlite::Unknown;
use std::io::BufWriter;
use std::process::ExitCode;

/// Does what a subcommand's words mean. What it prints goes through a buffer to the standard
/// output.
fn run_buffered(rt: &HostRuntime, words: Words<'_>) -> Result<Ending, Stop> {
    match BufWriter::new(rt.alloc(), rt.stdout()) {
        Ok(mut out) => run_words(rt, AtFiles { start: Unknown }, words, rt.stdin(), &mut out),
        Err(_) => Ok(Ending::without_desk(Refusal::NoMemory)),
    }
}

fn main(rt: HostRuntime) -> ExitCode {
    let given = match given_words(&rt) {
        Ok(given) => given,
        Err(status) => return ExitCode::from(status),
    };
    match words_in(&rt, &given) {
        Ok(words) => ExitCode::from(tell_run(&rt, run_buffered(&rt, words), opened_by(words))),
        Err(status) => ExitCode::from(status),
    }
}
