//! Images in the texts of commands.
ghost use Rattle.std.specs.Prelude.{◌≡◌, None, IfOk, false};
ghost use Rattle.desk_types.specs.Commands.{IsCommand};
ghost use Rattle.desk_types.specs.CommandTexts.{text_of};
ghost use Rattle.desk_types.specs.Formed.{IsWithin};
ghost use Rattle.desk_types.specs.declared.command.Command.{Command as Given};
ghost use Rattle.store_impacts.specs.Passing as spec;

use desk_history::WhichFile;
use desk_types::{Command, Facts, RequestNumber, command_texts_differ};
use std::alloc::Global;
use store_reads::ReadFault;

/// The image of a command, with the request that the command names: a Return names one, a Submit
/// none.
#[derive(Drop)]
pub(crate) struct BroughtImage {
    pub(crate) named: Option<RequestNumber>,
    pub(crate) facts: Facts,
}

impl BroughtImage {
    /// Which file it is.
    pub(crate) fn file(&self) -> WhichFile
        ensures { result ≡ spec.file_of self.now }
    {
        match self.named {
            Some(_) => WhichFile::Returned,
            None => WhichFile::Submitted,
        }
    }
}

/// The image that the command brings, if it brings one.
fn passed_by(command: Command) -> Option<BroughtImage>
    ensures { result ≡ spec.passed_by command }
{
    let named = command.request_named();
    command
        .into_facts()
        .map(|facts| BroughtImage { named, facts })
}

/// True if the text begins with the word of a command that brings an image.
fn brings(text: &[u8]) -> bool
    ensures { (c : Given) → text.now ≡ text_of c → result ≡ false → spec.passed_by c ≡ None }
{
    text.starts_with(b"submit ".as_slice()) || text.starts_with(b"return ".as_slice())
}

/// The image of the command of this text, if it brings one. Only the text of a Submit or of a
/// Return is parsed, which takes memory for its facts.
///
/// `Row`: the text begins like theirs and isn't a command's.
pub(crate) fn passed_in(alloc: Global, text: &[u8]) -> Result<Option<BroughtImage>, ReadFault>
    ensures { IfOk result (λ passed. (c : Given) → IsCommand c → IsWithin c
        → text.now ≡ text_of c → passed ≡ spec.passed_by c) }
{
    command_texts_differ();
    if !brings(text) {
        return Ok(None);
    }
    match Command::parse(alloc, text) {
        Ok(Some(command)) => Ok(passed_by(command)),
        Ok(None) => Err(ReadFault::Row),
        Err(_) => Err(ReadFault::NoMemory),
    }
}
