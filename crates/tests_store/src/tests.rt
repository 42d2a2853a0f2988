//! Desks over stores in memory, played by the lines of scripts.
use base::{Digest, Guid, Refusal};
use desk_rules::{View, decide};
use desk_types::{
    Call, Facts, Person, PersonName, Proposal, Reply, Role, ShownRequest, reply_text,
};
use itoa::Buffer;
use sbat::Component;
use sqlite::{Alter, Connection, MemStore};
use std::alloc::{AllocError, Global};
use std::process::Abort;
use std::test::Fail;
use store_desk::Desk;
use testing::Words;

mod asking;
mod closing;
mod days;
mod founding;
mod line;
mod parts;
mod restarting;
mod scripts;
mod serving;
mod telling;

type Memory = Desk<MemStore>;
