//! Rules, each by itself, over values rather than histories or rows.
ghost use Rattle.std.specs.Prelude.{◌≡◌};
ghost use Rattle.desk_history.specs.Calls.{is_same_kind};
ghost use Rattle.desk_history.specs.Level as level;
ghost use Rattle.desk_history.specs.Refusals as spec;
ghost use Rattle.desk_history.specs.Roles as roles;
ghost use Rattle.desk_history.specs.Verdicts.{bars as bars_on, lists_image as lists_on};

use crate::standing::Standing;
use crate::verdicts::{bars, lists_image};
use base::{Digest, Refusal};
use desk_types::{Command, Facts, ListedKind, ProposalState, Role, State};
use sbat::{Generation, Stamp};

/// True if both are of one kind.
pub fn is_same(a: ListedKind, b: ListedKind) -> bool
    ensures { result ≡ is_same_kind a b }
{
    match (a, b) {
        (ListedKind::Digest, ListedKind::Digest)
        | (ListedKind::Certificate, ListedKind::Certificate) => true,
        (ListedKind::Digest, ListedKind::Certificate)
        | (ListedKind::Certificate, ListedKind::Digest) => false,
    }
}

/// True if people of the role may give the command.
pub fn is_for(role: Role, command: &Command) -> bool
    ensures { result ≡ roles.is_for role command.now }
{
    match command {
        Command::AddPerson(_) => false,
        Command::Submit(_) | Command::Withdraw(_) => matches!(
            role,
            Role::Submitter | Role::Reviewer
        ),
        Command::Review(_) => matches!(role, Role::Reviewer),
        Command::Return(_) => matches!(role, Role::Signer),
        Command::ListCertificate(_)
        | Command::ListDigest(_)
        | Command::Unlist(_)
        | Command::RevokeDigest(_)
        | Command::RevokeCertificate(_)
        | Command::RaiseLevel(_)
        | Command::ImportRevocations(_)
        | Command::Confirm(_)
        | Command::Drop(_)
        | Command::Explain(_) => matches!(role, Role::Officer),
    }
}

/// True if the console may give the command.
pub fn is_for_console(command: &Command) -> bool
    ensures { result ≡ roles.is_for_console command.now }
{
    match command {
        Command::AddPerson(_) => true,
        Command::Submit(_)
        | Command::Review(_)
        | Command::Withdraw(_)
        | Command::Return(_)
        | Command::ListCertificate(_)
        | Command::ListDigest(_)
        | Command::Unlist(_)
        | Command::RevokeDigest(_)
        | Command::RevokeCertificate(_)
        | Command::RaiseLevel(_)
        | Command::ImportRevocations(_)
        | Command::Confirm(_)
        | Command::Drop(_)
        | Command::Explain(_) => false,
    }
}

/// True if the generation is above the current one, or there is no current one.
pub fn is_above(generation: Generation, present: Option<Generation>) -> bool
    ensures { result ≡ level.is_above generation present }
{
    match present {
        None => true,
        Some(present) => present.value() < generation.value(),
    }
}

/// The refusal, if the condition holds.
pub fn refuse_if(condition: bool, refusal: Refusal) -> Option<Refusal>
    ensures { result ≡ spec.refuse_if condition refusal }
{
    if condition { Some(refusal) } else { None }
}

/// The refusal of a vote on a request in this state. `is_own`: the request is the reviewer's own;
/// `has_voted`: the reviewer has voted on it.
pub fn review_by(state: State, is_own: bool, has_voted: bool) -> Option<Refusal>
    ensures { result ≡ spec.review_by state is_own has_voted }
{
    match state {
        State::Open => {
            if is_own {
                Some(Refusal::OwnRequest)
            } else {
                refuse_if(has_voted, Refusal::AlreadyReviewed)
            }
        }
        State::Approved | State::Rejected | State::Withdrawn | State::Signed => Some(
            Refusal::WrongState,
        ),
    }
}

/// The refusal to withdraw a request in this state. `is_own`: the request is the caller's own.
pub fn withdraw_by(state: State, is_own: bool) -> Option<Refusal>
    ensures { result ≡ spec.withdraw_by state is_own }
{
    if !is_own {
        return Some(Refusal::NoSuchRequest);
    }
    match state {
        State::Open | State::Approved => None,
        State::Rejected | State::Withdrawn | State::Signed => Some(Refusal::WrongState),
    }
}

/// The refusal of the image as the signed one of the image that has this digest and this digest to
/// be signed.
pub fn image_refusal<S: Standing>(
    lists: &S,
    digest: Digest,
    signing: Digest,
    facts: &Facts,
) -> Option<Refusal>
    ensures { result ≡ spec.image_refusal digest signing facts.now
        (bars_on (S.standing lists.now) facts.now) (lists_on (S.standing lists.now) facts.now) }
{
    if facts.digest != signing && facts.digest != digest {
        return Some(Refusal::DigestDiffers);
    }
    if bars(lists, facts) {
        return Some(Refusal::Revoked);
    }
    refuse_if(!lists_image(lists, facts), Refusal::NotListed)
}

/// The refusal of a file returned for a request in this state. `image` is the refusal of its image,
/// if there is one.
pub fn return_by(state: State, image: Option<Refusal>) -> Option<Refusal>
    ensures { result ≡ spec.return_by state image }
{
    match state {
        State::Approved => image,
        State::Open | State::Rejected | State::Withdrawn | State::Signed => Some(
            Refusal::WrongState,
        ),
    }
}

/// True if a proposal in this state is closed.
fn is_closed(state: ProposalState) -> bool
    ensures { result ≡ spec.is_closed state }
{
    match state {
        ProposalState::Open => false,
        ProposalState::Confirmed | ProposalState::Dropped => true,
    }
}

/// The refusal to confirm a proposal in this state. `is_own`: the proposal is the caller's own;
/// `refused` is the refusal that its command would meet now, if there is one.
pub fn confirm_by(state: ProposalState, is_own: bool, refused: Option<Refusal>) -> Option<Refusal>
    ensures { result ≡ spec.confirm_by state is_own refused }
{
    if is_closed(state) {
        return Some(Refusal::ProposalClosed);
    }
    if is_own {
        return Some(Refusal::OwnProposal);
    }
    refused
}

/// The refusal to drop a proposal in this state.
pub fn drop_by(state: ProposalState) -> Option<Refusal>
    ensures { result ≡ spec.drop_by state }
{
    refuse_if(is_closed(state), Refusal::ProposalClosed)
}

/// True if there is a stamp, and it is above the current one.
pub fn is_later(now: Stamp, stamp: Option<Stamp>) -> bool
    ensures { result ≡ spec.is_later now stamp }
{
    match stamp {
        None => false,
        Some(stamp) => now.value() < stamp.value(),
    }
}
