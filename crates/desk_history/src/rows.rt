//! Rows of the desk's tables.
ghost use Rattle.std.specs.Prelude.{◌≡◌, ℕ, List, string_bytes};

use base::Digest;
use desk_types::{
    Caller, Import, Key, ListedKind, Note, PersonName, ProposalKind, ProposalNumber, ProposalState,
    Reply, RequestNumber, State, Title, Vote,
};
use sbat::{Component, ComponentName, Generation};
use std::marker::Model;

/// The canonical text of a command. A contract sees the list of its bytes.
#[derive(Debug, Drop)]
pub struct CommandText {
    text: String,
}

impl Model for CommandText {
    ghost Value = { List ℕ };

    ghost view = { λ t. string_bytes t.text };
}

impl CommandText {
    /// The text.
    pub fn new(text: String) -> CommandText
        ensures { result ≡ string_bytes text }
    {
        CommandText { text }
    }

    /// Its bytes, as text.
    pub fn as_str(&self) -> &str
        ensures { result.now ≡ self.now }
    {
        self.text.as_str()
    }
}

/// The bytes of a listed certificate, or none for the digest of an image. A contract sees the list
/// of them.
#[derive(Debug, Drop)]
pub struct EntryBody {
    bytes: Vec<u8>,
}

impl Model for EntryBody {
    ghost Value = { List ℕ };

    ghost view = { λ b. b.bytes.items };
}

impl EntryBody {
    /// These bytes.
    pub fn new(bytes: Vec<u8>) -> EntryBody
        ensures { result ≡ bytes.items }
    {
        EntryBody { bytes }
    }

    /// The bytes.
    pub fn as_slice(&self) -> &[u8]
        ensures { result.now ≡ self.now }
    {
        &self.bytes
    }
}

/// The minute of an accepted call: its number from 1, the caller, the caller's key, the canonical
/// text of the command, and the reply.
#[derive(Debug, Drop)]
pub struct Minute {
    pub number: u64,
    pub caller: Caller,
    pub key: Key,
    pub text: CommandText,
    pub reply: Reply,
}

/// A request with its state: its submitter and title, the length and the gap of the image's file in
/// bytes, the SHA-256 of the file, the image's digest, and the digest that a signature of it holds.
#[derive(Debug, Drop)]
pub struct RequestRow {
    pub number: RequestNumber,
    pub submitter: PersonName,
    pub title: Title,
    pub length: u64,
    pub gap: u64,
    pub file: Digest,
    pub digest: Digest,
    pub signing: Digest,
    pub state: State,
}

/// A certificate that a request's image carries, by the SHA-256 of its TBSCertificate.
#[derive(Clone, Copy, Debug, PartialEq, Eq)]
pub struct RequestCertificateRow {
    pub request: RequestNumber,
    pub digest: Digest,
}

/// A component of a request's image, with its place among them from 0.
#[derive(Debug, Drop)]
pub struct RequestComponentRow {
    pub request: RequestNumber,
    pub place: u64,
    pub name: ComponentName,
    pub generation: Generation,
}

/// A vote on a request, and its reviewer.
#[derive(Debug, Drop)]
pub struct VoteRow {
    pub request: RequestNumber,
    pub reviewer: PersonName,
    pub vote: Vote,
    pub note: Note,
}

/// The signed file of a request: its signer, its length in bytes, its SHA-256, and the image's
/// digest.
#[derive(Debug, Drop)]
pub struct ReturnRow {
    pub request: RequestNumber,
    pub signer: PersonName,
    pub length: u64,
    pub file: Digest,
    pub digest: Digest,
}

/// A listed entry: a certificate by the SHA-256 of its TBSCertificate and with its bytes, or the
/// digest of an image without bytes.
#[derive(Debug, Drop)]
pub struct Entry {
    pub kind: ListedKind,
    pub digest: Digest,
    pub body: EntryBody,
}

/// A proposal with its state: the officer who made it, and the entries that it names.
#[derive(Debug, Drop)]
pub struct ProposalRow {
    pub number: ProposalNumber,
    pub officer: PersonName,
    pub kind: ProposalKind,
    pub named: Import,
    pub state: ProposalState,
}

/// An item that a proposal names at one place.
#[derive(Debug, Drop)]
pub enum ProposalItem {
    /// An image's digest.
    Digest(Digest),
    /// A certificate, by the digest of its TBSCertificate.
    Certificate(Digest),
    /// A component, with its least generation.
    Component(Component),
}

/// An item of a proposal, with its place among them from 0.
#[derive(Debug, Drop)]
pub struct ProposalItemRow {
    pub proposal: ProposalNumber,
    pub place: u64,
    pub item: ProposalItem,
}
