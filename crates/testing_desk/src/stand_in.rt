//! A substitute for a desk, which records its calls and answers everybody the same.
ghost use Rattle.std.specs.Prelude.{◌≡◌, ◌⊎◌, ⊤, IfSome, IsTrue, true};
ghost use Rattle.desk_exports.specs.Desks.{IsOutage};
ghost use Rattle.desk_exports.specs.Readings.{may_refuse};
ghost use Rattle.desk_history.specs.DecisionRefusals.{may_answer};

use base::{Digest, Refusal};
use desk_exports::{
    AnswersCalls, Octets, Published, Reading, RequestList, Shown, ShownPeople, ShownProposals,
};
use desk_history::{BarredImage, ProposalRow, Rule, ShownImpact, ShownPerson, Verdict, WhichFile};
use desk_inputs::token_digest;
use desk_types::{
    Caller, Carried, Command, Confirmation, Counts, Facts, Import, Key, Outcome, Person,
    PersonName, Proposal, ProposalKind, ProposalNumber, ProposalState, Reply, RequestNumber, Role,
    ShownRequest, ShownVotes, State, Title, command_text,
};
use pe_image::Extent;
use sbat::Components;
use std::alloc::{AllocError, Global};

/// A desk that shows no history. It knows one token, and fails if a command's key is `store`.
#[derive(Drop)]
pub struct StandIn {
    alloc: Global,
    /// The calls that it got.
    pub asked: String,
    /// It answered a call with `Store`.
    has_failed: bool,
}

impl StandIn {
    /// A desk that has had no call.
    pub fn new(alloc: Global) -> StandIn {
        StandIn {
            alloc,
            asked: String::new(alloc),
            has_failed: false,
        }
    }
}

/// Records the words of a call.
fn tell(asked: &mut String, words: &[&str]) -> Result<(), AllocError> {
    for word in words {
        if !asked.is_empty() {
            asked.push_str(" ")?;
        }
        asked.push_str(*word)?;
    }
    Ok(())
}

/// The word that a reading is recorded by.
fn word_of(reading: &Reading) -> &'static str {
    match reading {
        Reading::Requests => "requests",
        Reading::RequestsFrom(_) => "requests-from",
        Reading::RequestsWith(_) => "requests-with",
        Reading::Request(_) => "request",
        Reading::Proposals => "proposals",
        Reading::ProposalsFrom(_) => "proposals-from",
        Reading::Proposal(_) => "proposal",
        Reading::Impact(_) => "impact",
        Reading::Waiting => "waiting",
        Reading::Changes => "changes",
        Reading::Export(Published::Dbx) => "dbx",
        Reading::Export(Published::Db) => "db",
        Reading::Export(Published::Level) => "level",
        Reading::Report => "report",
        Reading::Minutes(_) => "minutes",
        Reading::People => "people",
        Reading::Me => "me",
    }
}

/// Records a reading, with the person's name unless everybody is shown the same.
fn tell_reading(
    asked: &mut String,
    name: &PersonName,
    reading: &Reading,
) -> Result<(), AllocError> {
    tell(asked, &[word_of(reading)])?;
    match reading {
        Reading::Export(_) | Reading::Report => Ok(()),
        _ => tell(asked, &[name.as_str()]),
    }
}

/// The refusal that the key names.
fn refusal(key: &str) -> Option<Refusal>
    ensures { IfSome result (λ refusal. IsTrue (may_answer refusal) ⊎ IsOutage refusal) }
{
    match key {
        "reused" => Some(Refusal::KeyReused),
        "missing" => Some(Refusal::NoSuchProposal),
        "own" => Some(Refusal::OwnProposal),
        "closed" => Some(Refusal::ProposalClosed),
        "memory" => Some(Refusal::NoMemory),
        "store" => Some(Refusal::Store),
        "reopen" => Some(Refusal::Reopen),
        _ => None,
    }
}

/// The reply to a command.
fn reply(command: &Command) -> Option<Reply> {
    match command {
        Command::AddPerson(_) => None,
        Command::Submit(_) => Some(Reply::Submitted(RequestNumber::new(1)?)),
        Command::Review(ballot) => Some(Reply::Reviewed(Outcome {
            request: ballot.request,
            state: State::Open,
        })),
        Command::Withdraw(request) => Some(Reply::Withdrawn(*request)),
        Command::Return(file) => Some(Reply::Returned(file.request)),
        Command::ListCertificate(_) | Command::ListDigest(_) => Some(Reply::Listed),
        Command::Unlist(_) => Some(Reply::Unlisted),
        Command::RevokeDigest(_)
        | Command::RevokeCertificate(_)
        | Command::RaiseLevel(_)
        | Command::ImportRevocations(_) => Some(Reply::Proposed(ProposalNumber::new(1)?)),
        Command::Confirm(proposal) => Some(Reply::Confirmed(Confirmation {
            proposal: *proposal,
            counts: Counts {
                digests: 1,
                certificates: 0,
                components: 2,
                passed: 3,
            },
        })),
        Command::Drop(proposal) => Some(Reply::Dropped(*proposal)),
        Command::Explain(explanation) => Some(Reply::Explained(explanation.proposal)),
    }
}

/// The facts of an image whose file has the SHA-256 of 32 times `bb`.
fn facts(alloc: Global) -> Option<Facts> {
    Some(Facts {
        extent: Extent::new(1024, 0)?,
        file: Digest::from([0xbb; 32]),
        digest: Digest::from([0xcc; 32]),
        signing: Digest::from([0xcc; 32]),
        carried: Carried::new(Vec::new(alloc))?,
        components: Components::new(Vec::new(alloc))?,
    })
}

/// The request of this number, of ann's, without a vote.
fn request(alloc: Global, number: RequestNumber) -> Option<ShownRequest> {
    Some(ShownRequest {
        number,
        submitter: PersonName::parse(alloc, b"ann").ok()?,
        title: Title::parse(alloc, b"Boot loader").ok()?,
        facts: facts(alloc)?,
        state: State::Open,
        votes: ShownVotes::new(Vec::new(alloc)),
        returned: None,
    })
}

/// One proposal, of otto's.
fn proposals(alloc: Global) -> Option<ShownProposals> {
    let mut proposals = Vec::new(alloc);
    proposals
        .push(Proposal {
            number: ProposalNumber::new(1)?,
            officer: PersonName::parse(alloc, b"otto").ok()?,
            state: ProposalState::Open,
            digests: 1,
            certificates: 0,
            components: 2,
        })
        .ok()?;
    Some(ShownProposals::new(proposals))
}

/// The proposal of this number, of otto's, to revoke one digest.
fn whole(alloc: Global, number: ProposalNumber) -> Option<ProposalRow> {
    Some(ProposalRow {
        number,
        officer: PersonName::parse(alloc, b"otto").ok()?,
        kind: ProposalKind::Digest,
        named: Import::of_digest(alloc, Digest::from([0xaa; 32])).ok()?,
        state: ProposalState::Open,
    })
}

/// One image, which would be barred by its digest.
fn barred(alloc: Global) -> Option<BarredImage> {
    Some(BarredImage {
        request: RequestNumber::new(1)?,
        file: WhichFile::Returned,
        state: State::Signed,
        submitter: PersonName::parse(alloc, b"ann").ok()?,
        title: Title::parse(alloc, b"Boot loader").ok()?,
        is_allowed: true,
        rule: Rule::Digest,
    })
}

/// The impact of a proposal that would bar it.
fn impact_of_one(alloc: Global) -> Option<ShownImpact> {
    let mut bars = Vec::new(alloc);
    bars.push(barred(alloc)?).ok()?;
    Some(ShownImpact {
        bars,
        adds: Counts {
            digests: 1,
            certificates: 0,
            components: 2,
            passed: 3,
        },
        dbx: 76,
    })
}

/// A person of this name and role.
fn person(alloc: Global, name: &[u8], role: Role) -> Option<ShownPerson> {
    let name = PersonName::parse(alloc, name).ok()?;
    Some(ShownPerson { name, role })
}

/// Two people.
fn everybody(alloc: Global) -> Option<ShownPeople> {
    let mut people = Vec::new(alloc);
    people.push(person(alloc, b"ann", Role::Submitter)?).ok()?;
    people.push(person(alloc, b"olga", Role::Officer)?).ok()?;
    Some(ShownPeople::new(people))
}

/// Two lines of minutes from the first number on, one from the second, and none from then on.
fn lines_from(from: u64) -> &'static [u8] {
    match from {
        1 => b"first\nsecond\n",
        2 => b"second\n",
        _ => b"",
    }
}

/// These bytes.
fn octets(alloc: Global, bytes: &[u8]) -> Option<Octets> {
    let mut copy = Vec::new(alloc);
    copy.extend_from_slice(bytes).ok()?;
    Some(Octets::new(copy))
}

/// The bytes of an export.
fn exported(what: Published) -> &'static [u8] {
    match what {
        Published::Dbx => b"\ndbx",
        Published::Db => b"",
        Published::Level => b"sbat,1,2021030218\n",
    }
}

/// What the person is shown, or `None` if memory is refused.
fn given<L: RequestList + Drop>(
    alloc: Global,
    person: Person,
    reading: &Reading,
) -> Option<Shown<L>> {
    Some(match reading {
        Reading::Requests | Reading::RequestsFrom(_) | Reading::RequestsWith(_) => {
            Shown::Requests(L::new(alloc))
        }
        Reading::Request(number) => Shown::Request(request(alloc, *number)?),
        Reading::Proposals | Reading::ProposalsFrom(_) => Shown::Proposals(proposals(alloc)?),
        Reading::Proposal(number) => Shown::Proposal(whole(alloc, *number)?),
        Reading::Impact(number) => Shown::Impact(*number, impact_of_one(alloc)?),
        Reading::Waiting => Shown::Waiting(L::new(alloc), proposals(alloc)?),
        Reading::Changes => Shown::Changes(7),
        Reading::Export(what) => Shown::Export(*what, octets(alloc, exported(*what))?),
        Reading::Report => Shown::Report(octets(alloc, b"people 1\n")?),
        Reading::Minutes(from) => Shown::Minutes(octets(alloc, lines_from(*from))?),
        Reading::People => Shown::People(everybody(alloc)?),
        Reading::Me => Shown::Me(ShownPerson {
            name: person.name,
            role: person.role,
        }),
    })
}

/// Why nothing is shown, if nothing is.
fn refused(reading: &Reading) -> Option<Refusal>
    ensures { IfSome result (λ refusal. IsTrue (may_refuse reading.now refusal)) }
{
    match reading {
        Reading::Request(number) => match number.value() {
            6 => None,
            7 => Some(Refusal::NoSuchRequest),
            _ => Some(Refusal::NotYourRole),
        },
        Reading::Proposal(number) => match number.value() {
            7 => Some(Refusal::NoSuchProposal),
            8 => Some(Refusal::NotYourRole),
            _ => None,
        },
        Reading::Impact(number) => match number.value() {
            7 => Some(Refusal::NoSuchProposal),
            8 => Some(Refusal::NotYourRole),
            9 => Some(Refusal::ProposalClosed),
            _ => None,
        },
        _ => None,
    }
}

impl AnswersCalls for StandIn {
    ghost shows = { λ _ _ _. ⊥ };

    ghost clean = { λ _. ⊤ };

    ghost failed = { λ desk. desk.has_failed ≡ true };

    ghost leaves = { λ _ _ _ _. ⊥ };

    ghost rests = { λ _ _ _ none. none };

    fn person_of(&mut self, token: &Digest) -> Result<Option<Person>, Refusal> {
        if self.has_failed {
            return Err(Refusal::Reopen);
        }
        if *token != token_digest(b"olga-token-000001".as_slice()) {
            return Ok(None);
        }
        match PersonName::parse(self.alloc, b"olga") {
            Ok(name) => Ok(Some(Person {
                name,
                role: Role::Officer,
                token: *token,
            })),
            Err(_) => Err(Refusal::NoMemory),
        }
    }

    fn apply(&mut self, caller: &Caller, key: &Key, command: &Command) -> Result<Reply, Refusal> {
        if self.has_failed {
            return Err(Refusal::Reopen);
        }
        let Ok(text) = command_text(self.alloc, command) else {
            return Err(Refusal::NoMemory);
        };
        let words = [caller.name(), key.as_str(), text.as_str()];
        if tell(&mut self.asked, &words).is_err() {
            return Err(Refusal::NoMemory);
        }
        match refusal(key.as_str()) {
            Some(refusal) => {
                self.has_failed = refusal == Refusal::Store;
                Err(refusal)
            }
            None => reply(command).ok_or(Refusal::NotYourRole),
        }
    }

    fn verdict(&mut self, _facts: &Facts) -> Result<Verdict, Refusal> {
        if self.has_failed {
            return Err(Refusal::Reopen);
        }
        match tell(&mut self.asked, &["verdict"]) {
            Ok(()) => Ok(Verdict::NotListed),
            Err(AllocError) => Err(Refusal::NoMemory),
        }
    }

    fn read<L: RequestList + Drop>(
        &mut self,
        person: Person,
        reading: Reading,
    ) -> Result<Shown<L>, Refusal> {
        if self.has_failed {
            return Err(Refusal::Reopen);
        }
        if tell_reading(&mut self.asked, &person.name, &reading).is_err() {
            return Err(Refusal::NoMemory);
        }
        match refused(&reading) {
            Some(refusal) => Err(refusal),
            None => given(self.alloc, person, &reading).ok_or(Refusal::NoMemory),
        }
    }
}
