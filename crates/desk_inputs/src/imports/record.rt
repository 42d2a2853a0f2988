//! A record of a CSV file as an entry of an import.
ghost use Rattle.std.specs.Prelude.{◌≡◌, ◌≢◌, ◌∷◌, [], IfOk, IsErrOf, MatchOption, None, Some, length, true};
ghost use Rattle.csv.specs.Records.{fields_of};
ghost use Rattle.sbat.specs.Levels.{unless_sbat};
ghost use Rattle.sbat.specs.Rows.{row_in};
ghost use Rattle.desk_inputs.specs.imports.FromCsv as spec;
ghost use Rattle.desk_inputs.specs.imports.Gathering.{is_free};

use crate::imports::item::Item;
use base::Digest;
use csv::ByteRecord;
use sbat::{Component, ComponentName, Generation, NameFault};
use std::alloc::Global;

/// The fields of a record, if there are three.
fn three_fields(row: &ByteRecord) -> Option<(&[u8], &[u8], &[u8])>
    ensures { MatchOption result (length (fields_of row.now) ≢ 3)
        (λ f. fields_of row.now ≡ f.0.now ∷ f.1.now ∷ f.2.now ∷ []) }
{
    if row.len() != 3 {
        return None;
    }
    let Some(kind) = row.get(0) else {
        return None;
    };
    let Some(value) = row.get(1) else {
        return None;
    };
    let Some(generation) = row.get(2) else {
        return None;
    };
    Some((kind, value, generation))
}

/// True if a record is the header, `kind,value,generation`.
pub(crate) fn is_header(row: &ByteRecord) -> bool
    ensures { result ≡ spec.is_header (fields_of row.now) }
{
    match three_fields(row) {
        Some((kind, value, generation)) => {
            kind == b"kind".as_slice()
                && value == b"value".as_slice()
                && generation == b"generation".as_slice()
        }
        None => false,
    }
}

/// The digest that the value spells, if the generation is empty.
fn read_digest(value: &[u8], generation: &[u8]) -> Option<Digest>
    ensures { result ≡ spec.digest_at value.now generation.now }
{
    if !generation.is_empty() {
        return None;
    }
    match Digest::parse(value) {
        Ok(digest) => Some(digest),
        Err(_) => None,
    }
}

/// The component of that name, other than `sbat`, and that generation, or Form.
fn read_component(alloc: Global, name: &[u8], generation: &[u8]) -> Result<Component, NameFault>
    ensures ok { IfOk result (λ component.
        unless_sbat (row_in (name.now ∷ generation.now ∷ [])) ≡ Some component) }
    ensures other { IfOk result (λ component. is_free (Item.Component component) ≡ true) }

    ensures form { IsErrOf result NameFault.Form
        → unless_sbat (row_in (name.now ∷ generation.now ∷ [])) ≡ None }
{
    let Some(generation) = Generation::parse(generation) else {
        return Err(NameFault::Form);
    };
    let name = match ComponentName::parse(alloc, name) {
        Ok(name) => name,
        Err(fault) => return Err(fault),
    };
    if name.is_sbat() {
        return Err(NameFault::Form);
    }
    Ok(Component { name, generation })
}

/// The entry of three fields, or Form.
#[tactic(auto, unfolding(crate::specs::imports::FromCsv::fields_item))]
fn read_fields(
    alloc: Global,
    kind: &[u8],
    value: &[u8],
    generation: &[u8],
) -> Result<Item, NameFault>
    ensures ok { IfOk result (λ item.
        spec.fields_item kind.now value.now generation.now ≡ Some item) }
    ensures other { IfOk result (λ item. is_free item ≡ true) }

    ensures form { IsErrOf result NameFault.Form
        → spec.fields_item kind.now value.now generation.now ≡ None }
{
    if kind == b"sha256".as_slice() {
        return match read_digest(value, generation) {
            Some(digest) => Ok(Item::Digest(digest)),
            None => Err(NameFault::Form),
        };
    }
    if kind == b"x509_sha256".as_slice() {
        return match read_digest(value, generation) {
            Some(digest) => Ok(Item::Certificate(digest)),
            None => Err(NameFault::Form),
        };
    }
    if kind != b"sbat".as_slice() {
        return Err(NameFault::Form);
    }
    match read_component(alloc, value, generation) {
        Ok(component) => Ok(Item::Component(component)),
        Err(fault) => Err(fault),
    }
}

/// The entry of a record, or Form.
pub(crate) fn read_record(alloc: Global, row: &ByteRecord) -> Result<Item, NameFault>
    ensures ok { IfOk result (λ item. spec.record_item (fields_of row.now) ≡ Some item) }
    ensures other { IfOk result (λ item. is_free item ≡ true) }

    ensures form { IsErrOf result NameFault.Form → spec.record_item (fields_of row.now) ≡ None }
{
    match three_fields(row) {
        Some((kind, value, generation)) => read_fields(alloc, kind, value, generation),
        None => Err(NameFault::Form),
    }
}
