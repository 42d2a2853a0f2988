//! Decisions of a desk.
mod days;
mod first_days;
mod limits;
mod tables;

use base::{Digest, Refusal};
use desk_history::{CommandText, Entry, Minute, ProposalRow, RequestRow, VoteRow, Write};
use desk_rules::{Changes, ListView, Sizes, View, decide, decide_first, verdict};
use desk_types::{
    ListedKind, Listing, Outcome, Person, PersonName, ProposalOutcome, Role, reply_text,
};
use sbat::{Component, Stamp};
use std::alloc::Global;
use std::process::Abort;
use std::test::Fail;
use testing::Words;

/// A digest of this byte alone.
fn digest(byte: u8) -> Digest {
    Digest::from([byte; 32])
}
