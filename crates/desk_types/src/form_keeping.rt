//! Values of a program, in their forms and within their limits. These calls serve proofs only: they
//! change nothing and return nothing.
ghost use Rattle.std.specs.Prelude.{All};
ghost use Rattle.hex.specs.Hex.{IsBytes};
ghost use Rattle.desk_types.specs.Commands.{AreCounts, IsCaller, IsCommand, IsComponent, IsCount, IsDigest, IsFacts, IsImport, IsReply};
ghost use Rattle.desk_types.specs.Formed.{AreFactsWithin, IsCall, IsImportWithin, IsWithin};

use crate::{Caller, Command, Counts, Facts, Import, Key, Reply};
use base::Digest;
use sbat::Component;

/// A count fits in 64 bits.
pub(crate) fn show_count(number: u64)
    ensures { IsCount number }
{}

fn show_counts(counts: Counts)
    ensures { AreCounts counts }
{
    show_count(counts.digests);
    show_count(counts.certificates);
    show_count(counts.components);
    show_count(counts.passed);
}

fn show_bytes(bytes: &[u8])
    ensures { IsBytes bytes.now }
{}

/// A digest has 32 bytes.
pub(crate) fn show_digest(digest: &Digest)
    ensures { IsDigest digest.now }
{
    show_bytes(digest.as_bytes());
}

/// Each digest has 32 bytes.
pub(crate) fn show_digests(digests: &[Digest])
    ensures { All IsDigest digests.now }
{
    for digest in digests {
        show_digest(digest);
    }
}

/// A component has a name and a generation in their forms.
pub(crate) fn show_component(component: &Component)
    ensures { IsComponent component.now }
{
    let _name = component.name.as_str();
    let _generation = component.generation.value();
}

/// So has each of these components.
pub(crate) fn show_components(components: &[Component])
    ensures { All IsComponent components.now }
{
    for component in components {
        show_component(component);
    }
}

fn show_facts(facts: &Facts)
    ensures forms { IsFacts facts.now }
    ensures limits { AreFactsWithin facts.now }
{
    let _length = facts.extent.length();
    let _gap = facts.extent.gap();
    show_digest(&facts.file);
    show_digest(&facts.digest);
    show_digest(&facts.signing);
    show_digests(facts.carried.as_slice());
    show_components(facts.components.as_slice());
}

fn show_import(import: &Import)
    ensures forms { IsImport import.now }
    ensures limits { IsImportWithin import.now }
{
    let _passed = import.passed();
    if let Some(stamp) = import.stamp() {
        let _stamp = stamp.value();
    }
    show_digests(import.digests().as_slice());
    show_digests(import.certificates().as_slice());
    show_components(import.components().as_slice());
}

fn show_caller(caller: &Caller)
    ensures { IsCaller caller.now }
{
    match caller {
        Caller::Console => {}
        Caller::Person(name) => {
            let _name = name.as_str();
        }
    }
}

/// Each command of a program is in its form (`forms`, the premise of `command_texts_differ`) and
/// within its limits.
pub fn command_is_formed(command: &Command)
    ensures forms { IsCommand command.now }
    ensures limits { IsWithin command.now }
{
    match command {
        Command::AddPerson(person) => {
            let _name = person.name.as_str();
            show_digest(&person.token);
        }
        Command::Submit(submission) => {
            let _title = submission.title.as_str();
            show_facts(&submission.facts);
        }
        Command::Review(ballot) => {
            let _request = ballot.request.value();
            let _note = ballot.note.as_str();
        }
        Command::Withdraw(request) => {
            let _request = request.value();
        }
        Command::Return(returned_file) => {
            let _request = returned_file.request.value();
            show_facts(&returned_file.facts);
        }
        Command::ListCertificate(certificate) => {
            let tbs = certificate.tbs();
            show_digest(&tbs);
            show_bytes(certificate.body());
        }
        Command::ListDigest(digest) => show_digest(digest),
        Command::Unlist(listing) => show_digest(&listing.digest),
        Command::RevokeDigest(digest) => show_digest(digest),
        Command::RevokeCertificate(digest) => show_digest(digest),
        Command::RaiseLevel(raise) => {
            show_component(&raise.component);
            let _stamp = raise.stamp.value();
        }
        Command::ImportRevocations(import) => show_import(import),
        Command::Confirm(proposal) | Command::Drop(proposal) => {
            let _proposal = proposal.value();
        }
        Command::Explain(explanation) => {
            let _proposal = explanation.proposal.value();
            let _reason = explanation.reason.as_str();
        }
    }
}

/// Each call of a program, by its parts, is in its forms and within its limits.
pub fn call_is_formed(caller: &Caller, key: &Key, command: &Command)
    ensures { IsCall record { caller = caller.now; key = key.now; command = command.now } }
{
    show_caller(caller);
    let _key = key.as_str();
    command_is_formed(command);
}

/// Each reply of a program is in its form: the premise of `reply_texts_differ`.
pub fn reply_is_formed(reply: &Reply)
    ensures { IsReply reply.now }
{
    match reply {
        Reply::Added(name) => {
            let _name = name.as_str();
        }
        Reply::Submitted(request) | Reply::Withdrawn(request) | Reply::Returned(request) => {
            let _request = request.value();
        }
        Reply::Reviewed(outcome) => {
            let _request = outcome.request.value();
        }
        Reply::Listed | Reply::Unlisted | Reply::Revoked | Reply::Raised => {}
        Reply::Imported(counts) => show_counts(*counts),
        Reply::Proposed(proposal) | Reply::Dropped(proposal) | Reply::Explained(proposal) => {
            let _proposal = proposal.value();
        }
        Reply::Confirmed(confirmation) => {
            let _proposal = confirmation.proposal.value();
            show_counts(confirmation.counts);
        }
    }
}
