//! Callers.
ghost use Rattle.std.specs.Prelude.{◌≡◌, IfOk, MatchResult, true};
ghost use Rattle.desk_types.specs.Callers.{caller_name, is_told_by_name};
ghost use Rattle.desk_types.specs.Commands.{IsCaller};
ghost use Rattle.desk_types.specs.declared.caller.Caller.{Caller};

use crate::{PersonName, TextFault};
use std::alloc::{AllocError, Global};

/// A caller: the command line of the desk's own machine, or a person.
#[derive(Debug, Drop)]
pub enum Caller {
    Console,
    Person(PersonName),
}

impl Caller {
    /// The caller's name in the minutes: `console`, or the person's name.
    pub fn name(&self) -> &str
        ensures { result.now ≡ caller_name self.now }
    {
        match self {
            Caller::Console => "console",
            Caller::Person(name) => name.as_str(),
        }
    }

    /// The caller whose name in the minutes this is: the console for `console`, otherwise the
    /// person of that name. Takes memory for the name.
    ///
    /// `Form`: no caller has this name. `NoMemory`: memory was refused.
    pub fn parse(alloc: Global, name: &[u8]) -> Result<Caller, TextFault>
        ensures found { (caller : Caller) → IsCaller caller → is_told_by_name caller ≡ true
            → name.now ≡ caller_name caller
            → MatchResult result (λ read. read ≡ caller) (λ fault. fault ≡ TextFault.NoMemory) }
        ensures only { IfOk result (λ caller. IsCaller caller × (is_told_by_name caller ≡ true)
            × (name.now ≡ caller_name caller)) }
    {
        if name == b"console".as_slice() {
            return Ok(Caller::Console);
        }
        match PersonName::parse(alloc, name) {
            Ok(name) => Ok(Caller::Person(name)),
            Err(fault) => Err(fault),
        }
    }

    /// The same name as a `PersonName`. Takes memory for it.
    pub fn to_person_name(&self, alloc: Global) -> Result<PersonName, AllocError>
        ensures { IfOk result (λ name. name ≡ caller_name self.now) }
    {
        match self {
            Caller::Console => match PersonName::parse(alloc, b"console") {
                Ok(name) => Ok(name),
                Err(_) => Err(AllocError),
            },
            Caller::Person(name) => name.clone(),
        }
    }
}

impl Clone for Caller {
    ghost is_clone = { λ caller copy. copy ≡ caller };

    /// A copy. Takes memory for the name.
    fn clone(&self) -> Result<Caller, AllocError> {
        match self {
            Caller::Console => Ok(Caller::Console),
            Caller::Person(name) => Ok(Caller::Person(name.clone()?)),
        }
    }
}
