//! What a Confirm of a proposal would do.
use desk_types::{Counts, PersonName, RequestNumber, State, Title};
use sbat::{Component, Generation};

/// A file of a request.
#[derive(Clone, Copy, Debug, PartialEq, Eq)]
pub enum WhichFile {
    /// The file that was submitted.
    Submitted,
    /// The file that a signer returned.
    Returned,
}

/// The rule that bars an image: the first of these that holds.
#[derive(Debug, Drop)]
pub enum Rule {
    /// Its digest, or the digest that a signature of it would hold, is revoked.
    Digest,
    /// A certificate that it carries is revoked.
    Certificate,
    /// This component of it, the first such, is below the generation that the level requires.
    Component(Component, Generation),
}

/// An image that isn't barred and would be if a proposal were confirmed.
#[derive(Debug, Drop)]
pub struct BarredImage {
    /// Its request.
    pub request: RequestNumber,
    /// Which file of the request it is.
    pub file: WhichFile,
    /// The state of the request.
    pub state: State,
    /// Who submitted the request.
    pub submitter: PersonName,
    /// The title of the request.
    pub title: Title,
    /// True if the verdict on the image is `Allowed` now.
    pub is_allowed: bool,
    /// The rule that would bar it.
    pub rule: Rule,
}

/// What a Confirm of a proposal would do.
#[derive(Debug, Drop)]
pub struct ShownImpact {
    /// The images that it would bar, in the order of the calls that brought them.
    pub bars: Vec<BarredImage>,
    /// The counts that it would reply.
    pub adds: Counts,
    /// The length of dbx in bytes afterwards.
    pub dbx: u64,
}
