//! Roles of people.

/// The rights of a person. A person's role never changes.
#[derive(Clone, Copy, Debug, PartialEq, Eq)]
pub enum Role {
    Submitter,
    Reviewer,
    Officer,
    Signer,
}
