//! Rows of people, of listed and revoked entries, and of the level.
ghost use Rattle.std.specs.Prelude.{◌≡◌, IfOk};
ghost use Rattle.sqlite.specs.declared.types.Value.TheVariants.{Blob};
ghost use Rattle.sqlite_value.specs.Order.{column};
ghost use Rattle.store_schema.specs.rows.Values.{component_values, digest_values, entry_values, person_values};

use crate::ReadFault;
use crate::columns::{
    column_of, component_name_at, digest_at, generation_at, kind_at, name_at, role_at,
};
use crate::from_row::FromRow;
use base::Digest;
use desk_history::{Entry, EntryBody};
use desk_types::Person;
use sbat::Component;
use sqlite::Row;
use std::alloc::Global;

/// The bytes of an entry in a column. Takes memory for them.
fn body_at(row: &Row, at: usize) -> Result<EntryBody, ReadFault>
    ensures { IfOk result (λ body. column row.now at ≡ Blob body) }
{
    let bytes: Vec<u8> = column_of(row, at)?;
    Ok(EntryBody::new(bytes))
}

impl FromRow for Person {
    ghost shown = { person_values };

    fn from_row(alloc: Global, row: &Row) -> Result<Person, ReadFault> {
        if row.column_count() != 3 {
            return Err(ReadFault::Row);
        }
        let name = name_at(alloc, row, 0)?;
        let role = role_at(row, 1)?;
        let token = digest_at(row, 2)?;
        Ok(Person { name, role, token })
    }
}

impl FromRow for Entry {
    ghost shown = { entry_values };

    fn from_row(_alloc: Global, row: &Row) -> Result<Entry, ReadFault> {
        if row.column_count() != 3 {
            return Err(ReadFault::Row);
        }
        let kind = kind_at(row, 0)?;
        let digest = digest_at(row, 1)?;
        let body = body_at(row, 2)?;
        Ok(Entry { kind, digest, body })
    }
}

impl FromRow for Digest {
    ghost shown = { digest_values };

    fn from_row(_alloc: Global, row: &Row) -> Result<Digest, ReadFault> {
        if row.column_count() != 1 {
            return Err(ReadFault::Row);
        }
        let digest = digest_at(row, 0)?;
        Ok(digest)
    }
}

impl FromRow for Component {
    ghost shown = { component_values };

    fn from_row(alloc: Global, row: &Row) -> Result<Component, ReadFault> {
        if row.column_count() != 2 {
            return Err(ReadFault::Row);
        }
        let name = component_name_at(alloc, row, 0)?;
        let generation = generation_at(row, 1)?;
        Ok(Component { name, generation })
    }
}
