//! The canonical texts of commands.
ghost use Rattle.std.specs.Prelude.{◌≡◌, IfOk, string_bytes};
ghost use Rattle.desk_types.specs.CommandTexts.{text_of};
ghost use Rattle.desk_types.specs.declared.command.Command.TheVariants.{AddPerson, Submit, Review, Return, ListCertificate, Unlist, RaiseLevel, ImportRevocations, Explain};

use crate::command::{
    Ballot, Command, Explanation, Listing, Person, Raise, ReturnedFile, Submission,
};
use crate::items::{components_text, digests_text, facts_text, stamp_text};
use crate::{Certificate, Import};
use std::alloc::{AllocError, Global};

fn add_person(alloc: Global, person: &Person) -> Result<String, AllocError>
    ensures { IfOk result (λ text. string_bytes text ≡ text_of (AddPerson person.now)) }
{
    let name = person.name.as_str();
    let role = person.role.text();
    let token = person.token;
    format!(in alloc; "add-person {name} {role} {token}")
}

fn submit(alloc: Global, submission: &Submission) -> Result<String, AllocError>
    ensures { IfOk result (λ text. string_bytes text ≡ text_of (Submit submission.now)) }
{
    let facts = facts_text(alloc, &submission.facts)?;
    let title = submission.title.as_str();
    format!(in alloc; "submit {facts} {title}")
}

fn review(alloc: Global, ballot: &Ballot) -> Result<String, AllocError>
    ensures { IfOk result (λ text. string_bytes text ≡ text_of (Review ballot.now)) }
{
    let request = ballot.request.value();
    let vote = ballot.vote.text();
    let note = ballot.note.as_str();
    format!(in alloc; "review {request} {vote} {note}")
}

fn return_file(alloc: Global, returned_file: &ReturnedFile) -> Result<String, AllocError>
    ensures { IfOk result (λ text. string_bytes text ≡ text_of (Return returned_file.now)) }
{
    let request = returned_file.request.value();
    let facts = facts_text(alloc, &returned_file.facts)?;
    format!(in alloc; "return {request} {facts}")
}

fn list_certificate(alloc: Global, certificate: &Certificate) -> Result<String, AllocError>
    ensures { IfOk result (λ text. string_bytes text ≡ text_of (ListCertificate certificate.now)) }
{
    let tbs = certificate.tbs();
    let body = hex::encode(alloc, certificate.body())?;
    format!(in alloc; "list-certificate {tbs} {body}")
}

fn unlist(alloc: Global, listing: &Listing) -> Result<String, AllocError>
    ensures { IfOk result (λ text. string_bytes text ≡ text_of (Unlist listing.now)) }
{
    let kind = listing.kind.text();
    let digest = listing.digest;
    format!(in alloc; "unlist {kind} {digest}")
}

fn raise(alloc: Global, raise: &Raise) -> Result<String, AllocError>
    ensures { IfOk result (λ text. string_bytes text ≡ text_of (RaiseLevel raise.now)) }
{
    let name = raise.component.name.as_str();
    let generation = raise.component.generation.value();
    let stamp = raise.stamp.value();
    format!(in alloc; "raise {name} {generation} {stamp}")
}

fn explain(alloc: Global, explanation: &Explanation) -> Result<String, AllocError>
    ensures { IfOk result (λ text. string_bytes text ≡ text_of (Explain explanation.now)) }
{
    let proposal = explanation.proposal.value();
    let reason = explanation.reason.as_str();
    format!(in alloc; "explain {proposal} {reason}")
}

/// The canonical text of the command that imports this. Takes memory for the text; the time is
/// linear in its length.
pub fn import_text(alloc: Global, import: &Import) -> Result<String, AllocError>
    ensures { IfOk result (λ text. string_bytes text ≡ text_of (ImportRevocations import.now)) }
{
    let stamp = stamp_text(alloc, import.stamp())?;
    let passed = import.passed();
    let digests = digests_text(alloc, import.digests().as_slice())?;
    let certificates = digests_text(alloc, import.certificates().as_slice())?;
    let components = components_text(alloc, import.components().as_slice())?;
    format!(in alloc; "import {stamp} {passed} {digests} {certificates} {components}")
}

/// The canonical text of a command: its word and its parts, joined by one space. Takes memory for
/// the text; the time is linear in its length.
pub fn command_text(alloc: Global, command: &Command) -> Result<String, AllocError>
    ensures { IfOk result (λ text. string_bytes text ≡ text_of command.now) }
{
    match command {
        Command::AddPerson(person) => add_person(alloc, person),
        Command::Submit(submission) => submit(alloc, submission),
        Command::Review(ballot) => review(alloc, ballot),
        Command::Withdraw(request) => {
            let request = request.value();
            format!(in alloc; "withdraw {request}")
        }
        Command::Return(returned_file) => return_file(alloc, returned_file),
        Command::ListCertificate(certificate) => list_certificate(alloc, certificate),
        Command::ListDigest(digest) => format!(in alloc; "list-digest {digest}"),
        Command::Unlist(listing) => unlist(alloc, listing),
        Command::RevokeDigest(digest) => format!(in alloc; "revoke-digest {digest}"),
        Command::RevokeCertificate(digest) => format!(in alloc; "revoke-certificate {digest}"),
        Command::RaiseLevel(level) => raise(alloc, level),
        Command::ImportRevocations(entries) => import_text(alloc, entries),
        Command::Confirm(proposal) => {
            let proposal = proposal.value();
            format!(in alloc; "confirm {proposal}")
        }
        Command::Drop(proposal) => {
            let proposal = proposal.value();
            format!(in alloc; "drop {proposal}")
        }
        Command::Explain(explanation) => explain(alloc, explanation),
    }
}
