//! Calls, commands and replies of the desk: their values in their forms and limits, and their
//! canonical texts.
#![tactic(auto)]

mod caller;
mod carried;
mod certificate;
mod command;
mod command_reading;
mod command_texts;
mod copying;
mod counting;
mod digests;
mod facts;
mod facts_reading;
mod fault;
mod form_keeping;
mod forms;
mod import;
mod imported_components;
mod items;
mod items_reading;
mod key;
mod kind;
mod laws;
mod naming;
mod note;
mod ordinal;
mod person_name;
mod proposal;
mod proposal_number;
mod reason;
mod reply;
mod reply_reading;
mod reply_texts;
mod request_number;
mod role;
mod shown;
mod state;
mod title;
mod vote;
mod words;

pub use caller::Caller;
pub use carried::Carried;
pub use certificate::{Certificate, LONGEST_CERTIFICATE};
pub use command::{
    Ballot, Call, Command, Explanation, Listing, Person, Raise, ReturnedFile, Submission,
};
pub use command_texts::{command_text, import_text};
pub use digests::Digests;
pub use facts::Facts;
pub use fault::TextFault;
pub use form_keeping::{call_is_formed, command_is_formed, reply_is_formed};
pub use import::{Import, MOST_IMPORTED};
pub use imported_components::ImportedComponents;
pub use key::Key;
pub use kind::ListedKind;
pub use laws::{command_texts_differ, reply_texts_differ, worked_texts_are_written};
pub use naming::Subject;
pub use note::Note;
pub use ordinal::GREATEST_NUMBER;
pub use person_name::PersonName;
pub use proposal::{ItemKind, Proposal, ProposalKind, ProposalOutcome, ProposalState};
pub use proposal_number::ProposalNumber;
pub use reason::Reason;
pub use reply::{Confirmation, Counts, Outcome, Reply};
pub use reply_texts::reply_text;
pub use request_number::RequestNumber;
pub use role::Role;
pub use shown::{ShownRequest, ShownReturn, ShownVote, ShownVotes};
pub use state::State;
pub use title::Title;
pub use vote::Vote;
