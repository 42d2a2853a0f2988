//! Copies of commands and of their parts.
ghost use Rattle.std.specs.Prelude.{◌≡◌};

use crate::{Ballot, Call, Command, Explanation, Person, Raise, Reply, ReturnedFile, Submission};
use std::alloc::AllocError;

impl Clone for Person {
    ghost is_clone = { λ person copy. copy ≡ person };

    fn clone(&self) -> Result<Person, AllocError> {
        let name = self.name.clone()?;
        Ok(Person {
            name,
            role: self.role,
            token: self.token,
        })
    }
}

impl Clone for Submission {
    ghost is_clone = { λ submission copy. copy ≡ submission };

    fn clone(&self) -> Result<Submission, AllocError> {
        let title = self.title.clone()?;
        let facts = self.facts.clone()?;
        Ok(Submission { title, facts })
    }
}

impl Clone for Ballot {
    ghost is_clone = { λ ballot copy. copy ≡ ballot };

    fn clone(&self) -> Result<Ballot, AllocError> {
        let note = self.note.clone()?;
        Ok(Ballot {
            request: self.request,
            vote: self.vote,
            note,
        })
    }
}

impl Clone for ReturnedFile {
    ghost is_clone = { λ returned_file copy. copy ≡ returned_file };

    fn clone(&self) -> Result<ReturnedFile, AllocError> {
        let facts = self.facts.clone()?;
        Ok(ReturnedFile {
            request: self.request,
            facts,
        })
    }
}

impl Clone for Raise {
    ghost is_clone = { λ raise copy. copy ≡ raise };

    fn clone(&self) -> Result<Raise, AllocError> {
        let component = self.component.clone()?;
        Ok(Raise {
            component,
            stamp: self.stamp,
        })
    }
}

impl Clone for Explanation {
    ghost is_clone = { λ explanation copy. copy ≡ explanation };

    fn clone(&self) -> Result<Explanation, AllocError> {
        let reason = self.reason.clone()?;
        Ok(Explanation {
            proposal: self.proposal,
            reason,
        })
    }
}

impl Clone for Command {
    ghost is_clone = { λ command copy. copy ≡ command };

    fn clone(&self) -> Result<Command, AllocError> {
        match self {
            Command::AddPerson(person) => Ok(Command::AddPerson(person.clone()?)),
            Command::Submit(submission) => Ok(Command::Submit(submission.clone()?)),
            Command::Review(ballot) => Ok(Command::Review(ballot.clone()?)),
            Command::Withdraw(request) => Ok(Command::Withdraw(*request)),
            Command::Return(returned_file) => Ok(Command::Return(returned_file.clone()?)),
            Command::ListCertificate(certificate) => {
                Ok(Command::ListCertificate(certificate.clone()?))
            }
            Command::ListDigest(digest) => Ok(Command::ListDigest(*digest)),
            Command::Unlist(listing) => Ok(Command::Unlist(*listing)),
            Command::RevokeDigest(digest) => Ok(Command::RevokeDigest(*digest)),
            Command::RevokeCertificate(digest) => Ok(Command::RevokeCertificate(*digest)),
            Command::RaiseLevel(raise) => Ok(Command::RaiseLevel(raise.clone()?)),
            Command::ImportRevocations(import) => Ok(Command::ImportRevocations(import.clone()?)),
            Command::Confirm(proposal) => Ok(Command::Confirm(*proposal)),
            Command::Drop(proposal) => Ok(Command::Drop(*proposal)),
            Command::Explain(explanation) => Ok(Command::Explain(explanation.clone()?)),
        }
    }
}

impl Clone for Call {
    ghost is_clone = { λ call copy. copy ≡ call };

    fn clone(&self) -> Result<Call, AllocError> {
        let caller = self.caller.clone()?;
        let key = self.key.clone()?;
        let command = self.command.clone()?;
        Ok(Call {
            caller,
            key,
            command,
        })
    }
}

impl Clone for Reply {
    ghost is_clone = { λ reply copy. copy ≡ reply };

    fn clone(&self) -> Result<Reply, AllocError> {
        match self {
            Reply::Added(name) => Ok(Reply::Added(name.clone()?)),
            Reply::Submitted(request) => Ok(Reply::Submitted(*request)),
            Reply::Reviewed(outcome) => Ok(Reply::Reviewed(*outcome)),
            Reply::Withdrawn(request) => Ok(Reply::Withdrawn(*request)),
            Reply::Returned(request) => Ok(Reply::Returned(*request)),
            Reply::Listed => Ok(Reply::Listed),
            Reply::Unlisted => Ok(Reply::Unlisted),
            Reply::Revoked => Ok(Reply::Revoked),
            Reply::Raised => Ok(Reply::Raised),
            Reply::Imported(counts) => Ok(Reply::Imported(*counts)),
            Reply::Proposed(proposal) => Ok(Reply::Proposed(*proposal)),
            Reply::Confirmed(confirmation) => Ok(Reply::Confirmed(*confirmation)),
            Reply::Dropped(proposal) => Ok(Reply::Dropped(*proposal)),
            Reply::Explained(proposal) => Ok(Reply::Explained(*proposal)),
        }
    }
}
