//! Requests as a reader sees them.
ghost use Rattle.std.specs.Prelude.{◌≡◌, List};
ghost use Rattle.std.specs.List.Sorted.{IsPermutation};
ghost use Rattle.std.specs.Ordering.{nat_cmp};
ghost use Rattle.std.specs.Cmp.Lexicographic.{slice_cmp};
ghost use Rattle.desk_types.specs.Shown.{AreByReviewer};
ghost use Rattle.desk_types.specs.declared.shown.ShownVote.{ShownVote};

use crate::{Facts, Note, PersonName, RequestNumber, State, Title, Vote};
use base::Digest;
use std::cmp::Ordering;
use std::marker::Model;

/// A vote on a request, and its reviewer.
#[derive(Debug, Drop)]
pub struct ShownVote {
    pub reviewer: PersonName,
    pub vote: Vote,
    pub note: Note,
}

/// The votes on a request, ascending by the bytes of the reviewers' names. A contract sees the list
/// of them.
#[derive(Debug, Drop)]
pub struct ShownVotes {
    votes: Vec<ShownVote>,
}

impl Model for ShownVotes {
    ghost Value = { List ShownVote };

    ghost view = { λ v. v.votes.items };

    ghost invariant = { λ v. AreByReviewer v.votes.items };
}

/// The signed file that was returned for a request: how many bytes it has, the SHA-256 of the whole
/// file, and the image's Authenticode digest.
#[derive(Clone, Copy, Debug, PartialEq, Eq)]
pub struct ShownReturn {
    pub length: u64,
    pub file: Digest,
    pub digest: Digest,
}

/// A request as a reader sees it.
#[derive(Debug, Drop)]
pub struct ShownRequest {
    pub number: RequestNumber,
    pub submitter: PersonName,
    pub title: Title,
    pub facts: Facts,
    pub state: State,
    pub votes: ShownVotes,
    /// The returned file, once a signer returned one.
    pub returned: Option<ShownReturn>,
}

/// Compares the reviewers' names by their bytes.
fn by_reviewer(one: &ShownVote, other: &ShownVote) -> Ordering
    ensures { result ≡ slice_cmp nat_cmp one.now.reviewer other.now.reviewer }
{
    one.reviewer.as_str().cmp(other.reviewer.as_str())
}

impl ShownVotes {
    /// The votes, put in the order of their reviewers.
    pub fn new(votes: Vec<ShownVote>) -> ShownVotes
        ensures same { IsPermutation votes.items result }
        ensures order { AreByReviewer result }
    {
        let mut votes = votes;
        votes.sort_unstable_by(by_reviewer);
        ShownVotes { votes }
    }

    /// The votes.
    pub fn as_slice(&self) -> &[ShownVote]
        ensures value { result.now ≡ self.now }
        ensures order { AreByReviewer self.now }
    {
        &self.votes
    }
}
