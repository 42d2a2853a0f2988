//! The names of the desk's tables, and whether a store has them already.
ghost use Rattle.std.specs.Prelude.{◌≡◌};
ghost use Rattle.std.specs.List.{list_any};
ghost use Rattle.store_schema.specs.Names.{is_taken, takes_a_desk_name, takes_an_added_name};

use sqlite_schema::schema::Schema;

/// The names of the fifteen tables, in the order of their making.
const NAMES: [&str; 15] = [
    "desk",
    "people",
    "calls",
    "requests",
    "request_certificates",
    "request_components",
    "votes",
    "returns",
    "listed",
    "revoked_digests",
    "revoked_certificates",
    "components",
    "proposals",
    "proposal_items",
    "migrated",
];

/// The names of the three that version 2 adds.
const ADDED_NAMES: [&str; 3] = ["proposals", "proposal_items", "migrated"];

/// Whether a table, an index or a view has the name.
fn is_taken(schema: &Schema, name: &str) -> bool
    ensures { result ≡ is_taken schema.now name.now }
{
    let name = name.as_bytes();
    schema.table_named(name).is_some()
        || schema.index_named(name).is_some()
        || schema.view_named(name).is_some()
}

/// Whether one of the names is taken.
fn takes_one_of(schema: &Schema, names: &[&str]) -> bool
    ensures { result ≡ list_any (λ name. is_taken schema.now name.now) names.now }
{
    names.iter().any(|name| is_taken(schema, name))
}

/// Whether a table, an index or a view has one of the fifteen names, whatever the case of ASCII
/// letters.
pub fn takes_a_desk_name(schema: &Schema) -> bool
    ensures { result ≡ takes_a_desk_name schema.now }
{
    takes_one_of(schema, &NAMES)
}

/// Whether one has one of the three names that version 2 adds.
pub fn takes_an_added_name(schema: &Schema) -> bool
    ensures { result ≡ takes_an_added_name schema.now }
{
    takes_one_of(schema, &ADDED_NAMES)
}
