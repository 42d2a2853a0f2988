//! The words after the program's name, as the system gives them.
use crate::line::{Words, WordsFault};
use crate::telling::{MISUSED, tell_fault};
use crate::words_reading::words;
use base::Refusal;
use cli_output::Fault;
use std::rt::Env;
use std::{env, io};

/// The words after the program's name.
pub struct Given {
    words: Vec<String>,
}

// It is written out, so that the program does not prove again how texts are dropped.
impl Drop for Given {
    fn drop(self) {
        let Given { words: _ } = self;
    }
}

/// The words after the program's name. Fails also if a word isn't UTF-8.
fn given_in(rt: &(impl Env + AllocGlobal)) -> io::Result<Vec<String>> {
    let mut given = Vec::new(rt.alloc());
    for word in env::args(rt)?.skip(1) {
        given.push(word)?;
    }
    Ok(given)
}

/// The words after the program's name. Err: the program ends with this status, and why was told.
pub fn given_words(rt: &HostRuntime) -> Result<Given, u8> {
    match given_in(rt) {
        Ok(words) => Ok(Given { words }),
        Err(error) if error.kind() == io::ErrorKind::OutOfMemory => {
            Err(tell_fault(rt, Fault::from(Refusal::NoMemory)))
        }
        Err(_) => {
            let _ = eprintln!(rt; "error: a word is no UTF-8");
            Err(MISUSED)
        }
    }
}

/// Tells why there is no subcommand, and returns the status: 0 of a text that the words request,
/// which is printed.
fn tell_unread(rt: &HostRuntime, fault: WordsFault) -> u8 {
    match fault {
        WordsFault::NoMemory => tell_fault(rt, Fault::from(Refusal::NoMemory)),
        WordsFault::Refused(error) => {
            let _ = error.print(rt);
            if error.use_stderr() { MISUSED } else { 0 }
        }
        WordsFault::Missing => {
            let _ = eprintln!(rt; "error: a word is missing");
            MISUSED
        }
    }
}

/// The subcommand of these words. Err: the program ends with this status, and why was told, or the
/// text that they request was printed.
pub fn words_in<'a>(rt: &HostRuntime, given: &'a Given) -> Result<Words<'a>, u8> {
    match words(rt.alloc(), given.words.as_slice()) {
        Ok(line) => Ok(line),
        Err(fault) => Err(tell_unread(rt, fault)),
    }
}
