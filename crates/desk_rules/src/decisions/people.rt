//! People, and the commands that they may give.
ghost use Rattle.std.specs.Prelude.{◌≡◌, [], ◌∷◌, find, option_copied};
ghost use Rattle.std.specs.List.{list_any};
ghost use Rattle.desk_history.specs.People as spec;
ghost use Rattle.desk_rules.specs.DecisionSteps.{Decided};
ghost use Rattle.desk_history.specs.Refusals.{add_refusal as refusal_of, is_one_of, is_theirs};
ghost use Rattle.desk_history.specs.declared.write.Write.TheVariants.{Person as PutPerson};
ghost use Rattle.desk_types.specs.declared.reply.Reply.TheVariants.{Added};

use super::one_write;
use crate::view::{Changes, View};
use base::{Digest, Refusal};
use desk_history::{Write, is_for, is_for_console, refuse_if};
use desk_types::{Caller, Command, Person, PersonName, Reply};
use std::alloc::Global;

impl View {
    /// The person of this name.
    fn person(&self, name: &PersonName) -> Option<&Person>
        ensures { option_copied result ≡ find (spec.has_name name.now) self.now.people.items }
    {
        self.people
            .iter()
            .find(|row| name.as_str() == row.name.as_str())
    }

    /// True if the caller is the console or one of the people.
    pub(crate) fn is_known(&self, caller: &Caller) -> bool
        ensures { result ≡ is_one_of self.now.people.items caller.now }
    {
        match caller {
            Caller::Console => true,
            Caller::Person(name) => self.person(name).is_some(),
        }
    }

    /// True if the caller may give the command.
    pub(crate) fn may_give(&self, caller: &Caller, command: &Command) -> bool
        ensures { result ≡ is_theirs self.now.people.items caller.now command.now }
    {
        match caller {
            Caller::Console => is_for_console(command),
            Caller::Person(name) => match self.person(name) {
                None => false,
                Some(person) => is_for(person.role, command),
            },
        }
    }

    /// True if one of the people has the token of this SHA-256.
    fn has_token(&self, token: Digest) -> bool
        ensures { result ≡ list_any (spec.has_token token) self.now.people.items }
    {
        self.people.iter().any(|row| token == row.token)
    }

    /// True if one of the people has the name.
    fn has_name(&self, name: &PersonName) -> bool
        ensures { result ≡ list_any (spec.has_name name.now) self.now.people.items }
    {
        self.people
            .iter()
            .any(|row| name.as_str() == row.name.as_str())
    }

    /// The refusal to add the person.
    fn add_refusal(&self, person: &Person) -> Option<Refusal>
        ensures { result ≡ refusal_of self.now.people.items person.now }
    {
        let is_taken = person.name.as_str() == "console"
            || self.has_name(&person.name)
            || self.has_token(person.token);
        refuse_if(is_taken, Refusal::NameTaken)
    }
}

/// Adds the person.
pub(crate) fn add_person(alloc: Global, view: &View, person: &Person) -> Result<Changes, Refusal>
    ensures { Decided result (refusal_of view.now.people.items person.now) (Added person.now.name)
        (PutPerson person.now ∷ []) }
{
    if let Some(refusal) = view.add_refusal(person) {
        return Err(refusal);
    }
    let name = person.name.clone()?;
    let row = person.clone()?;
    one_write(alloc, Reply::Added(name), Write::Person(row))
}
