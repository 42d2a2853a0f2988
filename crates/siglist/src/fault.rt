//! Reasons why a pack stops, and why bytes aren't signature lists.
ghost use Rattle.std.specs.Prelude.{◌≡◌};
ghost use Rattle.siglist.specs.ListsFaults as lists;
ghost use Rattle.siglist.specs.PackFaults.{fault_of, place_of, refusal_of, write_failed};

use base::{InputFault, Refusal, WriteFailed};
use thiserror::Error;

/// Why a text wasn't packed.
#[derive(Clone, Copy, Debug, PartialEq, Eq, Error)]
pub enum PackFault {
    /// The text is over 8,388,608 bytes.
    #[error("the text is longer than 8,388,608 bytes")]
    TooLong,
    /// The reader failed or was interrupted.
    #[error("a read failed")]
    Read,
    /// The writer failed, was interrupted or took nothing.
    #[error("a write failed")]
    Write,
    /// The first line that isn't 64 hexadecimal digits, numbered from 1.
    #[error("line {line} isn't 64 hexadecimal digits")]
    Line { line: u64 },
    /// Memory was refused.
    #[error("memory was refused")]
    NoMemory,
}

impl From<InputFault> for PackFault {
    ghost from_gives = { λ input fault. fault ≡ fault_of input };

    fn from(input: InputFault) -> PackFault {
        match input {
            InputFault::TooLong => PackFault::TooLong,
            InputFault::Read => PackFault::Read,
            InputFault::NoMemory => PackFault::NoMemory,
        }
    }
}

impl From<WriteFailed> for PackFault {
    ghost from_gives = { λ _ fault. fault ≡ write_failed };

    fn from(_: WriteFailed) -> PackFault {
        PackFault::Write
    }
}

impl PackFault {
    /// Its row in the table of refusals.
    pub fn refusal(self) -> Refusal
        ensures { result ≡ refusal_of self }
    {
        match self {
            PackFault::TooLong => Refusal::TooLong,
            PackFault::Read => Refusal::Read,
            PackFault::Write => Refusal::Write,
            PackFault::Line { .. } => Refusal::Line,
            PackFault::NoMemory => Refusal::NoMemory,
        }
    }

    /// The number of the line that was refused.
    pub fn place(self) -> Option<u64>
        ensures { result ≡ place_of self }
    {
        match self {
            PackFault::Line { line } => Some(line),
            PackFault::TooLong | PackFault::Read | PackFault::Write | PackFault::NoMemory => None,
        }
    }
}

/// Where bytes aren't a row of signature lists, and why. Offsets count bytes from the input's
/// start.
#[derive(Clone, Copy, Debug, PartialEq, Eq, Error)]
pub enum ListsFault {
    /// There is no whole list there, or a list of a kind without a header has one.
    #[error("there is no signature list at {offset}")]
    List { offset: u64 },
    /// The list's entries can't have its SignatureSize.
    #[error("the entries of the signature list at {offset} can't have the size that it gives")]
    EntrySize { offset: u64 },
}

impl ListsFault {
    /// Its row in the table of refusals.
    pub fn refusal(self) -> Refusal
        ensures { result ≡ lists.refusal_of self }
    {
        match self {
            ListsFault::List { .. } => Refusal::List,
            ListsFault::EntrySize { .. } => Refusal::EntrySize,
        }
    }

    /// The offset of the list that was refused.
    pub fn place(self) -> u64
        ensures { result ≡ lists.place_of self }
    {
        match self {
            ListsFault::List { offset } | ListsFault::EntrySize { offset } => offset,
        }
    }
}

/// The fault of the bytes at an offset.
#[derive(Clone, Copy, Debug, PartialEq, Eq)]
pub(crate) enum Lack {
    List,
    EntrySize,
}

impl Lack {
    /// The fault with its offset.
    pub(crate) fn at(self, offset: u64) -> ListsFault
        ensures { result ≡ lists.fault_of self offset }
    {
        match self {
            Lack::List => ListsFault::List { offset },
            Lack::EntrySize => ListsFault::EntrySize { offset },
        }
    }
}
