//! A substitute for a desk whose store fails.
ghost use Rattle.std.proofs.Common.{inl};
ghost use Rattle.std.specs.Prelude.{◌≡◌, ◌⊎◌, ⊤, if◌then◌else◌, Some, false, length, true};
ghost use Rattle.desk_exports.specs.Desks.{person_with};

use base::{Digest, Refusal};
use desk_exports::{AnswersCalls, Reading, RequestList, Shown};
use desk_history::Verdict;
use desk_inputs::token_digest;
use desk_types::{Caller, Command, Facts, Key, Person, PersonName, Reply, Role};
use std::alloc::Global;

/// A desk of one known person and of this many calls, whichever they are. Its store fails at the
/// first command, and it finds no memory for anything else. It shows each history with so many calls
/// and this person.
#[derive(Drop)]
pub struct Failing {
    person: Person,
    /// The calls that it keeps, whatever happens.
    pub calls: u64,
    /// It answered a call with `Store`.
    has_failed: bool,
}

impl Failing {
    /// A desk of olga, an officer, that hasn't failed yet, or `None` if memory for the name is refused.
    pub fn new(alloc: Global, calls: u64) -> Option<Failing> {
        let person = Person {
            name: PersonName::parse(alloc, b"olga").ok()?,
            role: Role::Officer,
            token: token_digest(b"olga-token-000001".as_slice()),
        };
        Some(Failing {
            person,
            calls,
            has_failed: false,
        })
    }

    /// Why the desk can't answer a call that commits nothing.
    fn outage(&self) -> Refusal
        ensures { result ≡ if self.now.has_failed then Refusal.Reopen else Refusal.NoMemory }
    {
        if self.has_failed {
            Refusal::Reopen
        } else {
            Refusal::NoMemory
        }
    }
}

impl AnswersCalls for Failing {
    ghost shows = { λ desk _ cs. (desk.has_failed ≡ false) × (length cs ≡ desk.calls)
        × (person_with desk.person.token cs ≡ Some desk.person) };

    ghost clean = { λ _. ⊤ };

    ghost failed = { λ desk. desk.has_failed ≡ true };

    ghost leaves = { λ desk _ before after.
        (length before ≡ desk.calls) ⊎ (length after ≡ desk.calls) };

    ghost rests = { λ _ _ _ was. inl was.1 };

    fn person_of(&mut self, token: &Digest) -> Result<Option<Person>, Refusal> {
        if self.has_failed || *token != self.person.token {
            return Err(self.outage());
        }
        match self.person.clone() {
            Ok(person) => Ok(Some(person)),
            Err(_) => Err(Refusal::NoMemory),
        }
    }

    fn apply(
        &mut self,
        _caller: &Caller,
        _key: &Key,
        _command: &Command,
    ) -> Result<Reply, Refusal> {
        if self.has_failed {
            return Err(Refusal::Reopen);
        }
        self.has_failed = true;
        Err(Refusal::Store)
    }

    fn verdict(&mut self, _facts: &Facts) -> Result<Verdict, Refusal> {
        Err(self.outage())
    }

    fn read<L: RequestList + Drop>(
        &mut self,
        _person: Person,
        _reading: Reading,
    ) -> Result<Shown<L>, Refusal> {
        Err(self.outage())
    }
}
