//! Calls of the desk and their commands.

use crate::{
    Caller, Certificate, Facts, Import, Key, ListedKind, Note, PersonName, ProposalNumber, Reason,
    RequestNumber, Role, Title, Vote,
};
use base::Digest;
use sbat::{Component, Stamp};

/// A person, with the SHA-256 of the bytes of the person's token.
#[derive(Debug, Drop)]
pub struct Person {
    pub name: PersonName,
    pub role: Role,
    pub token: Digest,
}

/// A request to sign the image of these facts.
#[derive(Debug, Drop)]
pub struct Submission {
    pub title: Title,
    pub facts: Facts,
}

/// A reviewer's vote on a request.
#[derive(Debug, Drop)]
pub struct Ballot {
    pub request: RequestNumber,
    pub vote: Vote,
    pub note: Note,
}

/// The signed file of a request, by its facts.
#[derive(Debug, Drop)]
pub struct ReturnedFile {
    pub request: RequestNumber,
    pub facts: Facts,
}

/// An entry of the list of allowed images: an image's digest, or the SHA-256 of a certificate's
/// TBSCertificate.
#[derive(Clone, Copy, Debug, PartialEq, Eq)]
pub struct Listing {
    pub kind: ListedKind,
    pub digest: Digest,
}

/// The least generation of a component, and the stamp of the level that requires it.
#[derive(Debug, Drop)]
pub struct Raise {
    pub component: Component,
    pub stamp: Stamp,
}

/// An officer's reason for a proposal.
#[derive(Debug, Drop)]
pub struct Explanation {
    pub proposal: ProposalNumber,
    pub reason: Reason,
}

/// A caller's command to the desk.
#[derive(Debug, Drop)]
pub enum Command {
    AddPerson(Person),
    Submit(Submission),
    Review(Ballot),
    Withdraw(RequestNumber),
    Return(ReturnedFile),
    ListCertificate(Certificate),
    ListDigest(Digest),
    Unlist(Listing),
    RevokeDigest(Digest),
    RevokeCertificate(Digest),
    RaiseLevel(Raise),
    ImportRevocations(Import),
    Confirm(ProposalNumber),
    Drop(ProposalNumber),
    Explain(Explanation),
}

/// A command, its caller, and the key under which the caller gives it.
#[derive(Debug, Drop)]
pub struct Call {
    pub caller: Caller,
    pub key: Key,
    pub command: Command,
}
