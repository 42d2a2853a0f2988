//! The words of a line, and their values.
use base::Digest;
use desk_types::{
    Ballot, Call, Caller, Carried, Certificate, Command, Digests, Explanation, Facts, Import,
    ImportedComponents, Key, ListedKind, Listing, Note, Person, PersonName, ProposalNumber, Raise,
    Reason, RequestNumber, ReturnedFile, Role, Submission, Title, Vote,
};
use pe_image::Extent;
use sbat::{Component, ComponentName, Components, Generation, Stamp};
use std::alloc::Global;
use std::str::SplitWhitespace;

/// A digest of this byte alone.
fn filled(byte: u8) -> Digest {
    Digest::from([byte; 32])
}

/// The remaining words of a line. Each read takes the words that it needs from the front, and
/// returns `None` if they can't be read or memory is refused.
#[derive(Drop)]
pub struct Words<'a> {
    words: SplitWhitespace<'a>,
    alloc: Global,
}

impl<'a> Words<'a> {
    /// The words of the line.
    pub fn new(alloc: Global, line: &'a str) -> Words<'a> {
        Words {
            words: line.split_whitespace(),
            alloc,
        }
    }

    /// The next word.
    pub fn text(&mut self) -> Option<&'a str> {
        self.words.next()
    }

    /// The next word, as a number.
    pub fn number(&mut self) -> Option<u64> {
        self.text()?.parse::<u64>().ok()
    }

    /// A digest, by the byte that fills it.
    pub fn digest(&mut self) -> Option<Digest> {
        Some(filled(self.text()?.parse::<u8>().ok()?))
    }

    /// A request's number.
    pub fn request(&mut self) -> Option<RequestNumber> {
        RequestNumber::new(self.number()?)
    }

    /// A proposal's number.
    fn proposal(&mut self) -> Option<ProposalNumber> {
        ProposalNumber::new(self.number()?)
    }

    /// The caller: a person's name, or `console`.
    pub fn caller(&mut self) -> Option<Caller> {
        Caller::parse(self.alloc, self.text()?.as_bytes()).ok()
    }

    /// A person's name.
    pub fn name(&mut self) -> Option<PersonName> {
        PersonName::parse(self.alloc, self.text()?.as_bytes()).ok()
    }

    /// A component's name, and its generation.
    fn component(&mut self) -> Option<Component> {
        let name = ComponentName::parse(self.alloc, self.text()?.as_bytes()).ok()?;
        let generation = Generation::new(self.text()?.parse::<u32>().ok()?)?;
        Some(Component { name, generation })
    }

    /// Digests: their count, and each.
    fn digests(&mut self) -> Option<Vec<Digest>> {
        let mut digests = Vec::new(self.alloc);
        for _ in 0..self.number()? {
            digests.push(self.digest()?).ok()?;
        }
        Some(digests)
    }

    /// Components: their count, and each.
    fn components(&mut self) -> Option<Vec<Component>> {
        let mut components = Vec::new(self.alloc);
        for _ in 0..self.number()? {
            components.push(self.component()?).ok()?;
        }
        Some(components)
    }

    /// An image's facts: its digest, the digest that a signature of it holds, its certificates and
    /// its components.
    pub fn facts(&mut self) -> Option<Facts> {
        let plain = self.digest()?;
        let signing = self.digest()?;
        let carried = Carried::new(self.digests()?)?;
        let components = Components::new(self.components()?)?;
        Some(Facts {
            extent: Extent::new(1_024, 8)?,
            file: filled(240),
            digest: plain,
            signing,
            carried,
            components,
        })
    }

    fn person(&mut self) -> Option<Command> {
        let name = self.name()?;
        let role = Role::parse(self.text()?.as_bytes())?;
        let token = self.digest()?;
        Some(Command::AddPerson(Person { name, role, token }))
    }

    fn submission(&mut self) -> Option<Command> {
        let title = Title::parse(self.alloc, self.text()?.as_bytes()).ok()?;
        let facts = self.facts()?;
        Some(Command::Submit(Submission { title, facts }))
    }

    /// A request's number, and one word or none for the note.
    fn ballot(&mut self, vote: Vote) -> Option<Command> {
        let request = self.request()?;
        let note = Note::parse(self.alloc, self.text().unwrap_or("").as_bytes()).ok()?;
        Some(Command::Review(Ballot {
            request,
            vote,
            note,
        }))
    }

    fn returned_file(&mut self) -> Option<Command> {
        let request = self.request()?;
        let facts = self.facts()?;
        Some(Command::Return(ReturnedFile { request, facts }))
    }

    fn certificate(&mut self) -> Option<Command> {
        let body = Vec::from_slice(self.alloc, b"0\x05\x30\x03\x02\x01\x01").ok()?;
        let certificate = Certificate::new(body, self.digest()?)?;
        Some(Command::ListCertificate(certificate))
    }

    fn unlisting(&mut self, kind: ListedKind) -> Option<Command> {
        let digest = self.digest()?;
        Some(Command::Unlist(Listing { kind, digest }))
    }

    fn raise(&mut self) -> Option<Command> {
        let component = self.component()?;
        let stamp = Stamp::new(self.number()?)?;
        Some(Command::RaiseLevel(Raise { component, stamp }))
    }

    /// A stamp or 0 for none, how many entries were skipped, and the three lists.
    fn import(&mut self) -> Option<Command> {
        let stamp = Stamp::new(self.number()?);
        let passed = self.number()?;
        let images = Digests::new(self.digests()?)?;
        let certificates = Digests::new(self.digests()?)?;
        let components = ImportedComponents::new(self.components()?)?;
        let import = Import::new(stamp, passed, images, certificates, components)?;
        Some(Command::ImportRevocations(import))
    }

    /// A proposal's number, and one word for the reason.
    fn explanation(&mut self) -> Option<Command> {
        let proposal = self.proposal()?;
        let reason = Reason::parse(self.alloc, self.text()?.as_bytes()).ok()?;
        Some(Command::Explain(Explanation { proposal, reason }))
    }

    /// The command of a verb, by the words after it.
    pub fn command(&mut self, verb: &str) -> Option<Command> {
        match verb {
            "add" => self.person(),
            "submit" => self.submission(),
            "yes" => self.ballot(Vote::Yes),
            "no" => self.ballot(Vote::No),
            "withdraw" => Some(Command::Withdraw(self.request()?)),
            "return" => self.returned_file(),
            "list-certificate" => self.certificate(),
            "list" => Some(Command::ListDigest(self.digest()?)),
            "unlist-certificate" => self.unlisting(ListedKind::Certificate),
            "unlist" => self.unlisting(ListedKind::Digest),
            "revoke-certificate" => Some(Command::RevokeCertificate(self.digest()?)),
            "revoke" => Some(Command::RevokeDigest(self.digest()?)),
            "raise" => self.raise(),
            "import" => self.import(),
            "confirm" => Some(Command::Confirm(self.proposal()?)),
            "drop" => Some(Command::Drop(self.proposal()?)),
            "explain" => self.explanation(),
            _ => None,
        }
    }

    /// A call: the caller, the key, the verb and its words.
    pub fn call(&mut self) -> Option<Call> {
        let caller = self.caller()?;
        let key = Key::parse(self.alloc, self.text()?.as_bytes()).ok()?;
        let verb = self.text()?;
        let command = self.command(verb)?;
        Some(Call {
            caller,
            key,
            command,
        })
    }
}
