//! Columns of a row, as their values. Places are counted from 0.
//!
//! `Row`: the column has another kind or isn't in its form, or there is none.
ghost use Rattle.std.specs.Prelude.{◌≡◌, ◌<◌, IfOk, length, pos};
ghost use Rattle.sqlite.specs.declared.types.Value.TheVariants.{Blob, Int, Text};
ghost use Rattle.sqlite_value.specs.Order.{column};
ghost use Rattle.desk_types.specs.Words.{kind_text, role_text, state_text, vote_text};

use crate::ReadFault;
use base::Digest;
use desk_types::{
    ListedKind, Note, PersonName, RequestNumber, Role, State, TextFault, Title, Vote,
};
use sbat::{ComponentName, Generation, NameFault};
use sqlite::types::{FromSql, Value};
use sqlite::{Error, ErrorCode, Row};
use std::alloc::Global;

/// The column at a place.
pub(crate) fn column_of<T: FromSql>(row: &Row, at: usize) -> Result<T, ReadFault>
    ensures value { IfOk result (λ x. T.FromSql.reads_as (column row.now at) x) }
    ensures there { IfOk result (λ _. at < length row.now) }
{
    match row.get(at) {
        Ok(value) => Ok(value),
        Err(Error::SqliteFailure(ErrorCode::OutOfMemory)) => Err(ReadFault::NoMemory),
        Err(_) => Err(ReadFault::Row),
    }
}

/// The digest in a column. Takes memory for its bytes.
pub(crate) fn digest_at(row: &Row, at: usize) -> Result<Digest, ReadFault>
    ensures { IfOk result (λ digest. column row.now at ≡ Blob digest) }
{
    let bytes: Vec<u8> = column_of(row, at)?;
    match <[u8; 32]>::try_from(bytes.as_slice()) {
        Ok(bytes) => Ok(Digest::from(bytes)),
        Err(_) => Err(ReadFault::Row),
    }
}

/// The person's name in a column. Takes memory for it.
pub(crate) fn name_at(alloc: Global, row: &Row, at: usize) -> Result<PersonName, ReadFault>
    ensures { IfOk result (λ name. column row.now at ≡ Text name) }
{
    let text: String = column_of(row, at)?;
    match PersonName::parse(alloc, text.as_bytes()) {
        Ok(name) => Ok(name),
        Err(TextFault::NoMemory) => Err(ReadFault::NoMemory),
        Err(TextFault::Form) => Err(ReadFault::Row),
    }
}

/// The title in a column. Takes memory for it.
pub(crate) fn title_at(alloc: Global, row: &Row, at: usize) -> Result<Title, ReadFault>
    ensures { IfOk result (λ title. column row.now at ≡ Text title) }
{
    let text: String = column_of(row, at)?;
    match Title::parse(alloc, text.as_bytes()) {
        Ok(title) => Ok(title),
        Err(TextFault::NoMemory) => Err(ReadFault::NoMemory),
        Err(TextFault::Form) => Err(ReadFault::Row),
    }
}

/// The note in a column. Takes memory for it.
pub(crate) fn note_at(alloc: Global, row: &Row, at: usize) -> Result<Note, ReadFault>
    ensures { IfOk result (λ note. column row.now at ≡ Text note) }
{
    let text: String = column_of(row, at)?;
    match Note::parse(alloc, text.as_bytes()) {
        Ok(note) => Ok(note),
        Err(TextFault::NoMemory) => Err(ReadFault::NoMemory),
        Err(TextFault::Form) => Err(ReadFault::Row),
    }
}

/// The component's name in a column. Takes memory for it.
pub(crate) fn component_name_at(
    alloc: Global,
    row: &Row,
    at: usize,
) -> Result<ComponentName, ReadFault>
    ensures { IfOk result (λ name. column row.now at ≡ Text name) }
{
    let text: String = column_of(row, at)?;
    match ComponentName::parse(alloc, text.as_bytes()) {
        Ok(name) => Ok(name),
        Err(NameFault::NoMemory) => Err(ReadFault::NoMemory),
        Err(NameFault::Form) => Err(ReadFault::Row),
    }
}

/// The generation in a column. `Row` also for 0.
pub(crate) fn generation_at(row: &Row, at: usize) -> Result<Generation, ReadFault>
    ensures { IfOk result (λ generation. column row.now at ≡ Int (pos generation)) }
{
    let number: u32 = column_of(row, at)?;
    match Generation::new(number) {
        Some(generation) => Ok(generation),
        None => Err(ReadFault::Row),
    }
}

/// The request's number in a column. `Row` also for 0 or above 999,999.
pub(crate) fn request_at(row: &Row, at: usize) -> Result<RequestNumber, ReadFault>
    ensures { IfOk result (λ request. column row.now at ≡ Int (pos request)) }
{
    let number: u64 = column_of(row, at)?;
    match RequestNumber::new(number) {
        Some(request) => Ok(request),
        None => Err(ReadFault::Row),
    }
}

/// The state whose word is in a column. Takes memory for the word.
pub(crate) fn state_at(row: &Row, at: usize) -> Result<State, ReadFault>
    ensures { IfOk result (λ state. column row.now at ≡ Text (state_text state)) }
{
    let word: String = column_of(row, at)?;
    match State::parse(word.as_bytes()) {
        Some(state) => Ok(state),
        None => Err(ReadFault::Row),
    }
}

/// The vote whose word is in a column. Takes memory for the word.
pub(crate) fn vote_at(row: &Row, at: usize) -> Result<Vote, ReadFault>
    ensures { IfOk result (λ vote. column row.now at ≡ Text (vote_text vote)) }
{
    let word: String = column_of(row, at)?;
    match Vote::parse(word.as_bytes()) {
        Some(vote) => Ok(vote),
        None => Err(ReadFault::Row),
    }
}

/// The role whose word is in a column. Takes memory for the word.
pub(crate) fn role_at(row: &Row, at: usize) -> Result<Role, ReadFault>
    ensures { IfOk result (λ role. column row.now at ≡ Text (role_text role)) }
{
    let word: String = column_of(row, at)?;
    match Role::parse(word.as_bytes()) {
        Some(role) => Ok(role),
        None => Err(ReadFault::Row),
    }
}

/// The kind whose word is in a column. Takes memory for the word.
pub(crate) fn kind_at(row: &Row, at: usize) -> Result<ListedKind, ReadFault>
    ensures { IfOk result (λ kind. column row.now at ≡ Text (kind_text kind)) }
{
    let word: String = column_of(row, at)?;
    match ListedKind::parse(word.as_bytes()) {
        Some(kind) => Ok(kind),
        None => Err(ReadFault::Row),
    }
}

/// The request's number as an integer of SQL.
pub(crate) fn key_of(request: RequestNumber) -> Value
    ensures { result ≡ Int (pos request) }
{
    Value::Int(request.value() as i64)
}
