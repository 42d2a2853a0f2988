//! Which of the requests that a person may see are listed.
ghost use Rattle.std.specs.Prelude.{◌≡◌, bytes_eq};
ghost use Rattle.desk_exports.specs.DigestSearch.{is_of_facts};
ghost use Rattle.desk_history.specs.Calls.{is_among};
ghost use Rattle.desk_history.specs.Requests.{is_state};
ghost use Rattle.desk_exports.specs.Waiting.{is_under_way, may_wait};
ghost use Rattle.store_shown.specs.Choosing.{has_digest, has_voted, is_of_return, keeps_shown};
ghost use Rattle.store_shown.specs.Choosing.{picks_row};

use crate::showing::is_shown_to;
use base::Digest;
use desk_history::RequestRow;
use desk_types::{Facts, Person, Role, ShownRequest, ShownReturn, ShownVote, State};

/// Which requests are listed for a person.
#[derive(Debug, Drop)]
pub(crate) enum Choice {
    /// All that the person is shown.
    Shown,
    /// Those that wait for the person.
    Waiting,
    /// Those that have this digest.
    With(Digest),
}

/// Whether something may still become of a request in this state.
fn is_under_way(state: State) -> bool
    ensures { result ≡ is_under_way state }
{
    match state {
        State::Open | State::Approved => true,
        State::Rejected | State::Withdrawn | State::Signed => false,
    }
}

/// Whether a request in this state is open.
fn is_open(state: State) -> bool
    ensures { result ≡ is_state State.Open state }
{
    match state {
        State::Open => true,
        State::Approved | State::Rejected | State::Withdrawn | State::Signed => false,
    }
}

/// Whether a request in this state is approved.
fn is_approved(state: State) -> bool
    ensures { result ≡ is_state State.Approved state }
{
    match state {
        State::Approved => true,
        State::Open | State::Rejected | State::Withdrawn | State::Signed => false,
    }
}

/// Whether a request in this state may wait for a person of this role, whose own it is or isn't.
fn may_wait(role: Role, is_own: bool, state: State) -> bool
    ensures { result ≡ may_wait role is_own state }
{
    match role {
        Role::Submitter => is_own && is_under_way(state),
        Role::Reviewer => {
            if is_own {
                is_under_way(state)
            } else {
                is_open(state)
            }
        }
        Role::Officer => false,
        Role::Signer => is_approved(state),
    }
}

/// Whether the request of this row may be listed: what its state and its submitter tell.
pub(crate) fn picks_row(choice: &Choice, reader: &Person, row: &RequestRow) -> bool
    ensures { result ≡ picks_row choice.now reader.now row.now }
{
    match choice {
        Choice::Shown | Choice::With(_) => is_shown_to(reader, row),
        Choice::Waiting => {
            let is_own = reader.name.as_str() == row.submitter.as_str();
            may_wait(reader.role, is_own, row.state)
        }
    }
}

/// Whether one of the votes is the person's.
fn has_voted(reader: &Person, votes: &[ShownVote]) -> bool
    ensures { result ≡ has_voted reader.now votes.now }
{
    for vote in votes {
        if reader.name.as_str() == vote.reviewer.as_str() {
            return true;
        }
    }
    false
}

/// Whether the digest is that of a certificate that the image carries.
fn is_carried(digest: &Digest, facts: &Facts) -> bool
    ensures { result ≡ is_among facts.now.carried digest.now }
{
    facts.carried.as_slice().iter().any(|one| *digest == *one)
}

/// Whether the digest is one of the file, of its image, or of a certificate that it carries.
fn is_of_facts(digest: &Digest, facts: &Facts) -> bool
    ensures { result ≡ is_of_facts digest.now facts.now }
{
    *digest == facts.file
        || *digest == facts.digest
        || *digest == facts.signing
        || is_carried(digest, facts)
}

/// Whether the digest is one of the returned file, or of its image.
fn is_of_return(digest: &Digest, returned: &Option<ShownReturn>) -> bool
    ensures { result ≡ is_of_return digest.now returned.now }
{
    match returned {
        Some(file) => *digest == file.file || *digest == file.digest,
        None => false,
    }
}

/// Whether the request has the digest.
fn has_digest(digest: &Digest, shown: &ShownRequest) -> bool
    ensures { result ≡ has_digest digest.now shown.now }
{
    is_of_facts(digest, &shown.facts) || is_of_return(digest, &shown.returned)
}

/// Whether the request is listed, if its row may be: what its votes tell, or its digests.
pub(crate) fn keeps_shown(choice: &Choice, reader: &Person, shown: &ShownRequest) -> bool
    ensures { result ≡ keeps_shown choice.now reader.now shown.now }
{
    match choice {
        Choice::Shown => true,
        Choice::Waiting => !has_voted(reader, shown.votes.as_slice()),
        Choice::With(digest) => has_digest(digest, shown),
    }
}
