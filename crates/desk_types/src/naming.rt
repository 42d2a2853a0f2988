//! What a command names: the person whom it adds, or one request, or one proposal; and the
//! certificate or the image that it brings.
ghost use Rattle.std.specs.Prelude.{◌≡◌, option_copied};
ghost use Rattle.desk_types.specs.Naming as spec;

use crate::{Certificate, Command, Facts, Person, ProposalNumber, RequestNumber};

/// What a command is about: one request, or one proposal.
#[derive(Clone, Copy, Debug, PartialEq, Eq)]
pub enum Subject {
    Request(RequestNumber),
    Proposal(ProposalNumber),
}

impl Command {
    /// The person whom the command adds.
    pub fn person_added(&self) -> Option<&Person>
        ensures { option_copied result ≡ spec.person_added self.now }
    {
        match self {
            Command::AddPerson(person) => Some(person),
            Command::Submit(_)
            | Command::Review(_)
            | Command::Withdraw(_)
            | Command::Return(_)
            | Command::ListCertificate(_)
            | Command::ListDigest(_)
            | Command::Unlist(_)
            | Command::RevokeDigest(_)
            | Command::RevokeCertificate(_)
            | Command::RaiseLevel(_)
            | Command::ImportRevocations(_)
            | Command::Confirm(_)
            | Command::Drop(_)
            | Command::Explain(_) => None,
        }
    }

    /// The request or the proposal that the command names, if it names one.
    pub fn subject_named(&self) -> Option<Subject>
        ensures { result ≡ spec.subject_named self.now }
    {
        match self {
            Command::Review(ballot) => Some(Subject::Request(ballot.request)),
            Command::Withdraw(request) => Some(Subject::Request(*request)),
            Command::Return(file) => Some(Subject::Request(file.request)),
            Command::Confirm(proposal) | Command::Drop(proposal) => {
                Some(Subject::Proposal(*proposal))
            }
            Command::Explain(explanation) => Some(Subject::Proposal(explanation.proposal)),
            Command::AddPerson(_)
            | Command::Submit(_)
            | Command::ListCertificate(_)
            | Command::ListDigest(_)
            | Command::Unlist(_)
            | Command::RevokeDigest(_)
            | Command::RevokeCertificate(_)
            | Command::RaiseLevel(_)
            | Command::ImportRevocations(_) => None,
        }
    }

    /// The number of the request that the command names.
    pub fn request_named(&self) -> Option<RequestNumber>
        ensures { result ≡ spec.request_named self.now }
    {
        match &self.subject_named() {
            Some(Subject::Request(request)) => Some(*request),
            Some(Subject::Proposal(_)) | None => None,
        }
    }

    /// The number of the proposal that the command names.
    pub fn proposal_named(&self) -> Option<ProposalNumber>
        ensures { result ≡ spec.proposal_named self.now }
    {
        match &self.subject_named() {
            Some(Subject::Proposal(proposal)) => Some(*proposal),
            Some(Subject::Request(_)) | None => None,
        }
    }

    /// The certificate that the command lists, if it lists one.
    pub fn into_certificate(self) -> Option<Certificate>
        ensures { result ≡ spec.certificate_listed self }
    {
        match self {
            Command::ListCertificate(certificate) => Some(certificate),
            Command::AddPerson(_)
            | Command::Submit(_)
            | Command::Review(_)
            | Command::Withdraw(_)
            | Command::Return(_)
            | Command::ListDigest(_)
            | Command::Unlist(_)
            | Command::RevokeDigest(_)
            | Command::RevokeCertificate(_)
            | Command::RaiseLevel(_)
            | Command::ImportRevocations(_)
            | Command::Confirm(_)
            | Command::Drop(_)
            | Command::Explain(_) => None,
        }
    }

    /// The facts of the image that the command brings, if it brings one.
    pub fn into_facts(self) -> Option<Facts>
        ensures { result ≡ spec.facts_brought self }
    {
        match self {
            Command::Submit(submission) => Some(submission.facts),
            Command::Return(returned) => Some(returned.facts),
            Command::AddPerson(_)
            | Command::Review(_)
            | Command::Withdraw(_)
            | Command::ListCertificate(_)
            | Command::ListDigest(_)
            | Command::Unlist(_)
            | Command::RevokeDigest(_)
            | Command::RevokeCertificate(_)
            | Command::RaiseLevel(_)
            | Command::ImportRevocations(_)
            | Command::Confirm(_)
            | Command::Drop(_)
            | Command::Explain(_) => None,
        }
    }
}
