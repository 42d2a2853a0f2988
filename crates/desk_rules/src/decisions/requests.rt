//! Votes on requests, withdrawals and returned files.
ghost use Rattle.std.specs.Prelude.{◌≡◌, [], ◌∷◌, count_by, find, not, option_copied};
ghost use Rattle.std.specs.List.{list_any};
ghost use Rattle.desk_types.specs.Callers.{caller_name};
ghost use Rattle.desk_history.specs.Requests.{is_vote_of, is_yes, votes_on};
ghost use Rattle.desk_rules.specs.DecisionSteps as spec;
ghost use Rattle.desk_rules.specs.Shown.{is_request_row};
ghost use Rattle.desk_types.specs.declared.reply.Reply.TheVariants as replies;
ghost use Rattle.desk_history.specs.declared.write.Write.TheVariants as puts;

use super::{one_write, two_writes};
use crate::rows::{return_row, vote_row};
use crate::view::{Changes, View};
use base::Refusal;
use desk_history::{RequestRow, VoteRow, Write, image_refusal, return_by, review_by, withdraw_by};
use desk_types::{Ballot, Caller, Outcome, Reply, RequestNumber, ReturnedFile, State, Vote};
use std::alloc::Global;

/// True if the vote is a yes.
fn is_yes(vote: &VoteRow) -> bool
    ensures { result ≡ is_yes vote.now }
{
    matches!(vote.vote, Vote::Yes)
}

/// The state of an open request after the vote, for whether an earlier vote was a no, and how many
/// were a yes.
fn state_with(vote: Vote, has_no: bool, yes: usize) -> State
    ensures { result ≡ spec.state_with vote has_no yes }
{
    match vote {
        Vote::No => State::Rejected,
        Vote::Yes => {
            if has_no {
                State::Rejected
            } else if 1 <= yes {
                State::Approved
            } else {
                State::Open
            }
        }
    }
}

impl View {
    /// The row of the request of this number.
    fn request(&self, number: RequestNumber) -> Option<&RequestRow>
        ensures { option_copied result ≡ find (is_request_row number) self.now.requests.items }
    {
        self.requests
            .iter()
            .find(|row| number.value() == row.number.value())
    }

    /// True if the caller voted on the request.
    fn has_voted(&self, number: RequestNumber, caller: &Caller) -> bool
        ensures { result
            ≡ list_any (is_vote_of (caller_name caller.now))
            (votes_on self.now.votes.items number) }
    {
        self.votes
            .iter()
            .filter(|row| number.value() == row.request.value())
            .any(|row| caller.name() == row.reviewer.as_str())
    }

    /// True if some vote on the request is a no.
    fn has_no(&self, number: RequestNumber) -> bool
        ensures { result ≡ list_any (λ v. not (is_yes v)) (votes_on self.now.votes.items number) }
    {
        self.votes
            .iter()
            .filter(|row| number.value() == row.request.value())
            .any(|row| !is_yes(row))
    }

    /// The count of yes votes on the request.
    fn count_yes(&self, number: RequestNumber) -> usize
        ensures { result ≡ count_by is_yes (votes_on self.now.votes.items number) }
    {
        self.votes
            .iter()
            .filter(|row| number.value() == row.request.value())
            .filter(|row| is_yes(row))
            .count()
    }

    /// The refusal of the caller's vote on the request.
    fn review_refusal(&self, number: RequestNumber, caller: &Caller) -> Option<Refusal>
        ensures { result ≡ spec.review_refusal_in self.now number (caller_name caller.now) }
    {
        match self.request(number) {
            None => Some(Refusal::NoSuchRequest),
            Some(row) => review_by(
                row.state,
                row.submitter.as_str() == caller.name(),
                self.has_voted(number, caller),
            ),
        }
    }

    /// The state of the open request after the ballot.
    fn state_after(&self, ballot: &Ballot) -> State
        ensures { result ≡ spec.state_after self.now ballot.now }
    {
        let has_no = self.has_no(ballot.request);
        state_with(ballot.vote, has_no, self.count_yes(ballot.request))
    }

    /// The refusal to withdraw the caller's request.
    fn withdraw_refusal(&self, number: RequestNumber, caller: &Caller) -> Option<Refusal>
        ensures { result ≡ spec.withdraw_refusal_in self.now number (caller_name caller.now) }
    {
        match self.request(number) {
            None => Some(Refusal::NoSuchRequest),
            Some(row) => withdraw_by(row.state, row.submitter.as_str() == caller.name()),
        }
    }

    /// The refusal of the returned file.
    fn return_refusal(&self, returned_file: &ReturnedFile) -> Option<Refusal>
        ensures { result ≡ spec.return_refusal_in self.now returned_file.now }
    {
        match self.request(returned_file.request) {
            None => Some(Refusal::NoSuchRequest),
            Some(row) => {
                let image = image_refusal(
                    &self.lists,
                    row.digest,
                    row.signing,
                    &returned_file.facts,
                );
                return_by(row.state, image)
            }
        }
    }
}

/// Records the caller's vote on a request.
pub(crate) fn review(
    alloc: Global,
    view: &View,
    caller: &Caller,
    ballot: &Ballot,
) -> Result<Changes, Refusal>
    ensures { spec.Decided result
        (spec.review_refusal_in view.now ballot.now.request (caller_name caller.now))
        (replies.Reviewed (spec.outcome_after view.now ballot.now))
        (puts.Vote (spec.vote_row (caller_name caller.now) ballot.now)
        ∷ puts.State (spec.outcome_after view.now ballot.now) ∷ []) }
{
    if let Some(refusal) = view.review_refusal(ballot.request, caller) {
        return Err(refusal);
    }
    let request = ballot.request;
    let state = view.state_after(ballot);
    let row = vote_row(alloc, caller, ballot)?;
    two_writes(
        alloc,
        Reply::Reviewed(Outcome { request, state }),
        Write::Vote(row),
        Write::State(Outcome { request, state }),
    )
}

/// Withdraws the caller's request.
pub(crate) fn withdraw(
    alloc: Global,
    view: &View,
    caller: &Caller,
    request: RequestNumber,
) -> Result<Changes, Refusal>
    ensures { spec.Decided result
        (spec.withdraw_refusal_in view.now request (caller_name caller.now))
        (replies.Withdrawn request)
        (puts.State (record { request = request; state = State.Withdrawn }) ∷ []) }
{
    if let Some(refusal) = view.withdraw_refusal(request, caller) {
        return Err(refusal);
    }
    let state = State::Withdrawn;
    one_write(
        alloc,
        Reply::Withdrawn(request),
        Write::State(Outcome { request, state }),
    )
}

/// Accepts the signed file of a request.
pub(crate) fn return_file(
    alloc: Global,
    view: &View,
    caller: &Caller,
    returned_file: &ReturnedFile,
) -> Result<Changes, Refusal>
    ensures { spec.Decided result (spec.return_refusal_in view.now returned_file.now)
        (replies.Returned returned_file.now.request)
        (puts.Return (spec.returned_file_row (caller_name caller.now) returned_file.now)
        ∷ puts.State (record { request = returned_file.now.request; state = State.Signed }) ∷ []) }
{
    if let Some(refusal) = view.return_refusal(returned_file) {
        return Err(refusal);
    }
    let request = returned_file.request;
    let row = return_row(alloc, caller, returned_file)?;
    let state = State::Signed;
    two_writes(
        alloc,
        Reply::Returned(request),
        Write::Return(row),
        Write::State(Outcome { request, state }),
    )
}
