//! The values of members, in their forms.
ghost use Rattle.std.specs.Prelude.{◌≡◌, IfOk, IfErr, Some};
ghost use Rattle.serde_json.specs.View.{view};
ghost use Rattle.http_requests.specs.bodies.Bodies.{Refuses, data_of};
ghost use Rattle.http_requests.specs.bodies.Forms as form;

use crate::BodyFault;
use base::Digest;
use desk_types::{ListedKind, Note, Reason, TextFault, Vote};
use sbat::{ComponentName, Generation, NameFault, Stamp};
use serde_json::Value;
use std::alloc::Global;
use std::str;

/// The value of a JSON text.
pub(crate) fn parse(alloc: Global, body: &[u8]) -> Result<Value, BodyFault>
    ensures ok { IfOk result (λ value. data_of body.now ≡ Some (view value)) }
    ensures err { IfErr result (Refuses (data_of body.now)) }
{
    let Ok(text) = str::from_utf8(body) else {
        return Err(BodyFault::BadBody);
    };
    match Value::from_str(alloc, text) {
        Ok(value) => Ok(value),
        Err(fault) => {
            if fault.is_memory() {
                Err(BodyFault::NoMemory)
            } else {
                Err(BodyFault::BadBody)
            }
        }
    }
}

/// The digest that a value's 64 hexadecimal digits spell.
pub(crate) fn digest(value: &Value) -> Option<Digest>
    ensures { result ≡ form.digest_in (view value.now) }
{
    let text = value.as_str()?;
    match Digest::parse(text.as_bytes()) {
        Ok(digest) => Some(digest),
        Err(_) => None,
    }
}

/// The vote of the word in a value.
pub(crate) fn vote(value: &Value) -> Option<Vote>
    ensures { result ≡ form.vote_in (view value.now) }
{
    let text = value.as_str()?;
    if text == Vote::Yes.text() {
        Some(Vote::Yes)
    } else if text == Vote::No.text() {
        Some(Vote::No)
    } else {
        None
    }
}

/// The kind of the word in a value.
pub(crate) fn kind(value: &Value) -> Option<ListedKind>
    ensures { result ≡ form.kind_in (view value.now) }
{
    let text = value.as_str()?;
    if text == ListedKind::Digest.text() {
        Some(ListedKind::Digest)
    } else if text == ListedKind::Certificate.text() {
        Some(ListedKind::Certificate)
    } else {
        None
    }
}

/// The generation of the number in a value.
pub(crate) fn generation(value: &Value) -> Option<Generation>
    ensures { result ≡ form.generation_in (view value.now) }
{
    let number = value.as_u64()?;
    match u32::try_from(number) {
        Ok(number) => Generation::new(number),
        Err(_) => None,
    }
}

/// The stamp of the number in a value.
pub(crate) fn stamp(value: &Value) -> Option<Stamp>
    ensures { result ≡ form.stamp_in (view value.now) }
{
    Stamp::new(value.as_u64()?)
}

/// The note in a value.
pub(crate) fn note(alloc: Global, value: &Value) -> Result<Note, BodyFault>
    ensures ok { IfOk result (λ note. form.note_in (view value.now) ≡ Some note) }
    ensures err { IfErr result (Refuses (form.note_in (view value.now))) }
{
    let Some(text) = value.as_str() else {
        return Err(BodyFault::BadBody);
    };
    match Note::parse(alloc, text.as_bytes()) {
        Ok(note) => Ok(note),
        Err(TextFault::Form) => Err(BodyFault::BadBody),
        Err(TextFault::NoMemory) => Err(BodyFault::NoMemory),
    }
}

/// The reason in a value.
pub(crate) fn reason(alloc: Global, value: &Value) -> Result<Reason, BodyFault>
    ensures ok { IfOk result (λ reason. form.reason_in (view value.now) ≡ Some reason) }
    ensures err { IfErr result (Refuses (form.reason_in (view value.now))) }
{
    let Some(text) = value.as_str() else {
        return Err(BodyFault::BadBody);
    };
    match Reason::parse(alloc, text.as_bytes()) {
        Ok(reason) => Ok(reason),
        Err(TextFault::Form) => Err(BodyFault::BadBody),
        Err(TextFault::NoMemory) => Err(BodyFault::NoMemory),
    }
}

/// The component's name in a value.
pub(crate) fn component(alloc: Global, value: &Value) -> Result<ComponentName, BodyFault>
    ensures ok { IfOk result (λ name. form.name_in (view value.now) ≡ Some name) }
    ensures err { IfErr result (Refuses (form.name_in (view value.now))) }
{
    let Some(text) = value.as_str() else {
        return Err(BodyFault::BadBody);
    };
    match ComponentName::parse(alloc, text.as_bytes()) {
        Ok(name) => Ok(name),
        Err(NameFault::Form) => Err(BodyFault::BadBody),
        Err(NameFault::NoMemory) => Err(BodyFault::NoMemory),
    }
}
