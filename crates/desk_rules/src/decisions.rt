//! Decisions over a view: each command's own conditions, and the rows that it writes.
mod forcing;
mod imports;
mod level;
mod lists;
mod people;
mod proposals;
mod requests;
mod submissions;

ghost use Rattle.std.specs.Prelude.{◌≡◌, ◌≤◌, ◌+◌, [], ◌∷◌, ◌++◌, IfErr, IsTrue, MatchOption, OnOk};
ghost use Rattle.desk_history.specs.DecisionRefusals.{may_answer};
ghost use Rattle.desk_rules.specs.DecisionSteps.{DecidesOwn, Gives};
ghost use Rattle.desk_types.specs.Forms.{greatest_number};
ghost use Rattle.desk_types.specs.declared.command.Command.TheVariants.{Submit};

use crate::view::{Changes, View};
use base::Refusal;
use desk_history::Write;
use desk_types::{Caller, Command, GREATEST_NUMBER, Reply, RequestNumber, Submission};
pub(crate) use forcing::decide_own_first;
pub(crate) use imports::set_of;
use lists::{list_certificate, list_digest, unlist};
use people::add_person;
pub(crate) use proposals::confirm_another;
use proposals::{
    confirm, drop_proposal, explain_proposal, propose_certificate, propose_digest, propose_import,
    propose_level,
};
use requests::{return_file, review, withdraw};
use std::alloc::{AllocError, Global};
use submissions::submit;

/// Appends the item. Takes memory for it.
pub(crate) fn push<T: Drop>(items: &mut Vec<T>, item: T) -> Result<(), AllocError>
    ensures { OnOk result (items.new.items ≡ items.old.items ++ item ∷ []) }
{
    items.push(item)?;
    Ok(())
}

/// The changes of one write.
fn one_write(alloc: Global, reply: Reply, write: Write) -> Result<Changes, Refusal>
    ensures { Gives result reply (write ∷ []) }
{
    let mut writes = Vec::new(alloc);
    push(&mut writes, write)?;
    Ok(Changes { reply, writes })
}

/// The changes of two writes.
fn two_writes(alloc: Global, reply: Reply, first: Write, second: Write) -> Result<Changes, Refusal>
    ensures { Gives result reply (first ∷ second ∷ []) }
{
    let mut writes = Vec::new(alloc);
    push(&mut writes, first)?;
    push(&mut writes, second)?;
    Ok(Changes { reply, writes })
}

/// The number after this many requests, if there is one.
fn number_after(requests: u64) -> Option<RequestNumber>
    ensures { MatchOption result (greatest_number ≤ requests) (λ number. number ≡ requests + 1) }
{
    if GREATEST_NUMBER <= requests {
        return None;
    }
    RequestNumber::new(requests + 1)
}

/// Takes the submission as the next request.
fn submit_next(
    alloc: Global,
    view: &View,
    caller: &Caller,
    submission: &Submission,
) -> Result<Changes, Refusal>
    ensures exact { DecidesOwn view.now caller.now (Submit submission.now) result }
    ensures only { IfErr result (λ refusal. IsTrue (may_answer refusal)) }
{
    match number_after(view.sizes.requests) {
        None => Err(Refusal::Full),
        Some(number) => submit(alloc, view, number, caller, submission),
    }
}

/// The answer by the command's own conditions, and the rows that it writes, without the call's own.
pub(crate) fn decide_own(
    alloc: Global,
    view: &View,
    caller: &Caller,
    command: &Command,
) -> Result<Changes, Refusal>
    ensures exact { DecidesOwn view.now caller.now command.now result }
    ensures only { IfErr result (λ refusal. IsTrue (may_answer refusal)) }
{
    match command {
        Command::AddPerson(person) => add_person(alloc, view, person),
        Command::Submit(submission) => submit_next(alloc, view, caller, submission),
        Command::Review(ballot) => review(alloc, view, caller, ballot),
        Command::Withdraw(number) => withdraw(alloc, view, caller, *number),
        Command::Return(returned_file) => return_file(alloc, view, caller, returned_file),
        Command::ListCertificate(certificate) => list_certificate(alloc, view, certificate),
        Command::ListDigest(digest) => list_digest(alloc, view, *digest),
        Command::Unlist(listing) => unlist(alloc, view, *listing),
        Command::RevokeDigest(digest) => propose_digest(alloc, view, caller, *digest),
        Command::RevokeCertificate(digest) => propose_certificate(alloc, view, caller, *digest),
        Command::RaiseLevel(raise) => propose_level(alloc, view, caller, raise),
        Command::ImportRevocations(named) => propose_import(alloc, view, caller, named),
        Command::Confirm(number) => confirm(alloc, view, caller, *number),
        Command::Drop(number) => drop_proposal(alloc, view, *number),
        Command::Explain(explanation) => explain_proposal(alloc, view, explanation.proposal),
    }
}
