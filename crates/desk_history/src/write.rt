//! Writes into the tables of the desk.
use crate::{
    Entry, Minute, ProposalRow, RequestCertificateRow, RequestComponentRow, RequestRow, ReturnRow,
    VoteRow,
};
use desk_types::{Listing, Outcome, Person, ProposalOutcome};
use sbat::{Component, Stamp};

/// A write of one row.
#[derive(Debug, Drop)]
pub enum Write {
    /// A person is inserted.
    Person(Person),
    /// An accepted call is inserted.
    Call(Minute),
    /// A request is inserted.
    Request(RequestRow),
    /// A certificate of a request's image is inserted.
    RequestCertificate(RequestCertificateRow),
    /// A component of a request's image is inserted.
    RequestComponent(RequestComponentRow),
    /// A vote is inserted.
    Vote(VoteRow),
    /// The request gets this state.
    State(Outcome),
    /// A returned file is inserted.
    Return(ReturnRow),
    /// A listed entry is inserted.
    List(Entry),
    /// The listed entry is deleted.
    Unlist(Listing),
    /// A revoked digest is inserted, of an image or of a certificate.
    Revoke(Listing),
    /// A component of the level is inserted.
    Component(Component),
    /// The row of the component's name gets its generation.
    Generation(Component),
    /// The level gets this stamp.
    Stamp(Stamp),
    /// A proposal is inserted, with all that it names.
    Propose(ProposalRow),
    /// The proposal gets this state.
    ProposalState(ProposalOutcome),
}
