//! A request without its body.

use desk_types::{Command, Key, ProposalNumber, RequestNumber, Title};
use sbat::Stamp;

/// A request with an image. A command has the key under which the caller gives it.
#[derive(Debug, Drop)]
pub enum ImageAsked {
    /// A new request, with this title, to sign the image.
    Submit(Key, Title),
    /// The image, returned as the signed one of this request.
    Return(Key, RequestNumber),
    /// The desk's verdict on the image.
    Verdict,
    /// The facts of the image.
    Facts,
}

/// A command without an image, and the key under which the caller gives it.
#[derive(Debug, Drop)]
pub struct KeyedCommand {
    pub key: Key,
    pub asked: CommandAsked,
}

/// A command, in the parts that the target and the fields give.
#[derive(Debug, Drop)]
pub enum CommandAsked {
    /// They give all of it, and the content has no effect.
    Whole(Command),
    /// The content is JSON.
    Json(JsonAsked),
    /// The content is in a format of its own.
    Bytes(BytesAsked),
}

/// A command whose content is JSON.
#[derive(Clone, Copy, Debug, PartialEq, Eq)]
pub enum JsonAsked {
    /// A vote on this request, with a note.
    Review(RequestNumber),
    ListDigest,
    Unlist,
    RevokeDigest,
    /// By the SHA-256 of its TBSCertificate.
    RevokeCertificate,
    RaiseLevel,
    /// A reason for this proposal.
    Explain(ProposalNumber),
}

/// A command whose content is in a format of its own.
#[derive(Clone, Copy, Debug, PartialEq, Eq)]
pub enum BytesAsked {
    /// The bytes of a certificate.
    ListCertificate,
    /// Signature lists.
    ImportDbx,
    /// A CSV file, with the stamp of Desk-Stamp if the request has that field.
    ImportCsv(Option<Stamp>),
    /// The text of an SBAT level.
    ImportLevel,
}
