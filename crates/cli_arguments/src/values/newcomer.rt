//! A person who is to be added, from the words.
ghost use Rattle.std.specs.Prelude.{◌≡◌, ◌≢◌, IfErr, IfOk, false, true};
ghost use Rattle.desk_types.specs.Forms.{is_key, is_person_name};
ghost use Rattle.desk_types.specs.Words.{role_text};
ghost use Rattle.desk_types.specs.declared.role.Role.{Role as Named};
ghost use Rattle.cli_arguments.specs.values.People.{SpellNewcomer, StopsFirst};
ghost use Rattle.cli_arguments.specs.values.Words.{StopsBy};

use crate::values::stop::{Stop, Word};
use base::Refusal;
use cli_output::Fault;
use desk_types::{Key, PersonName, Role, TextFault};
use std::alloc::Global;

/// A person who is to be added, without a token, and the key of the call that adds the person.
#[derive(Drop)]
pub struct Newcomer {
    pub name: PersonName,
    pub role: Role,
    pub key: Key,
}

/// The name that a word spells.
fn name_from(alloc: Global, text: &str) -> Result<PersonName, Stop>
    ensures ok { IfOk result (λ name. (is_person_name text.now ≡ true) × (name ≡ text.now)) }
    ensures err { IfErr result (StopsBy Word.Name (is_person_name text.now ≡ false)) }
{
    match PersonName::parse(alloc, text.as_bytes()) {
        Ok(name) => Ok(name),
        Err(TextFault::Form) => Err(Stop::Word(Word::Name)),
        Err(TextFault::NoMemory) => Err(Stop::Fault(Fault::from(Refusal::NoMemory))),
    }
}

/// The role that a word names.
fn role_from(text: &str) -> Result<Role, Stop>
    ensures ok { IfOk result (λ role. text.now ≡ role_text role) }
    ensures err { IfErr result (StopsBy Word.Role ((role : Named) → text.now ≢ role_text role)) }
{
    match Role::parse(text.as_bytes()) {
        Some(role) => Ok(role),
        None => Err(Stop::Word(Word::Role)),
    }
}

/// The key that a word spells.
fn key_from(alloc: Global, text: &str) -> Result<Key, Stop>
    ensures ok { IfOk result (λ key. (is_key text.now ≡ true) × (key ≡ text.now)) }
    ensures err { IfErr result (StopsBy Word.Key (is_key text.now ≡ false)) }
{
    match Key::parse(alloc, text.as_bytes()) {
        Ok(key) => Ok(key),
        Err(TextFault::Form) => Err(Stop::Word(Word::Key)),
        Err(TextFault::NoMemory) => Err(Stop::Fault(Fault::from(Refusal::NoMemory))),
    }
}

/// The person whom the words spell, with the key. Takes memory for the texts.
///
/// `Word`: this is the first of the name, the role and the key that isn't in its form. `Fault`:
/// memory was refused.
pub fn newcomer_from(alloc: Global, name: &str, role: &str, key: &str) -> Result<Newcomer, Stop>
    ensures ok { IfOk result (SpellNewcomer name.now role.now key.now) }
    ensures first { IfErr result (StopsFirst name.now role.now key.now) }
{
    let name = name_from(alloc, name)?;
    let role = role_from(role)?;
    let key = key_from(alloc, key)?;
    Ok(Newcomer { name, role, key })
}
