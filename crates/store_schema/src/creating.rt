//! The fifteen tables, and the functions that make them.
ghost use Rattle.std.specs.Prelude.{◌≡◌, IsTrue, OnOk, map};
ghost use Rattle.sqlite.specs.Held.{state};
ghost use Rattle.sqlite.specs.State.{HasCleanDisk};
ghost use Rattle.store_sql.specs.States.{CommitsNothing, Makes, Spares};
ghost use Rattle.store_schema.specs.Tables.{added_tables, defined, desk_schema, desk_tables, first_schema, first_tables, no_schema};

use sqlite::{Alter, Error, Transaction};
use store_sql::create_tables;
/// `CREATE TABLE` of each table of version 1, in the order of their making: desk, people, calls,
/// requests, request_certificates, request_components, votes, returns, listed, revoked_digests,
/// revoked_certificates, components.
pub const CREATE_TABLES: [&str; 12] = [
    "CREATE TABLE desk (id INTEGER PRIMARY KEY NOT NULL, mark TEXT NOT NULL, version INTEGER NOT NULL, owner BLOB NOT NULL, stamp INTEGER NOT NULL) STRICT",
    "CREATE TABLE people (name TEXT NOT NULL PRIMARY KEY, role TEXT NOT NULL, token BLOB NOT NULL UNIQUE) STRICT",
    "CREATE TABLE calls (no INTEGER PRIMARY KEY NOT NULL, caller TEXT NOT NULL, key TEXT NOT NULL, text TEXT NOT NULL, reply TEXT NOT NULL, UNIQUE (caller, key)) STRICT",
    "CREATE TABLE requests (no INTEGER PRIMARY KEY NOT NULL, submitter TEXT NOT NULL, title TEXT NOT NULL, length INTEGER NOT NULL, gap INTEGER NOT NULL, file BLOB NOT NULL, digest BLOB NOT NULL, signing BLOB NOT NULL, state TEXT NOT NULL) STRICT",
    "CREATE TABLE request_certificates (request INTEGER NOT NULL, digest BLOB NOT NULL, PRIMARY KEY (request, digest)) STRICT",
    "CREATE TABLE request_components (request INTEGER NOT NULL, place INTEGER NOT NULL, name TEXT NOT NULL, generation INTEGER NOT NULL, PRIMARY KEY (request, place)) STRICT",
    "CREATE TABLE votes (request INTEGER NOT NULL, reviewer TEXT NOT NULL, vote TEXT NOT NULL, note TEXT NOT NULL, PRIMARY KEY (request, reviewer)) STRICT",
    "CREATE TABLE returns (request INTEGER PRIMARY KEY NOT NULL, signer TEXT NOT NULL, length INTEGER NOT NULL, file BLOB NOT NULL, digest BLOB NOT NULL) STRICT",
    "CREATE TABLE listed (kind TEXT NOT NULL, digest BLOB NOT NULL, body BLOB NOT NULL, PRIMARY KEY (kind, digest)) STRICT",
    "CREATE TABLE revoked_digests (digest BLOB NOT NULL PRIMARY KEY) STRICT",
    "CREATE TABLE revoked_certificates (digest BLOB NOT NULL PRIMARY KEY) STRICT",
    "CREATE TABLE components (name TEXT NOT NULL PRIMARY KEY, generation INTEGER NOT NULL) STRICT",
];

/// `CREATE TABLE` of each table that version 2 adds: proposals, proposal_items, migrated.
pub const CREATE_ADDED_TABLES: [&str; 3] = [
    "CREATE TABLE proposals (no INTEGER PRIMARY KEY NOT NULL, officer TEXT NOT NULL, kind TEXT NOT NULL, stamp INTEGER NOT NULL, passed INTEGER NOT NULL, state TEXT NOT NULL) STRICT",
    "CREATE TABLE proposal_items (proposal INTEGER NOT NULL, place INTEGER NOT NULL, kind TEXT NOT NULL, digest BLOB NOT NULL, name TEXT NOT NULL, generation INTEGER NOT NULL, PRIMARY KEY (proposal, place)) STRICT",
    "CREATE TABLE migrated (id INTEGER PRIMARY KEY NOT NULL, calls INTEGER NOT NULL) STRICT",
];

/// Makes the twelve tables of version 1 in a store that has none.
fn make_first<S: Alter>(tx: &mut Transaction<'_, S>) -> Result<(), Error>
    ensures same_reference { tx.new.conn.ghost_name ≡ tx.old.conn.ghost_name }
    ensures value { HasCleanDisk (state S.Store tx.new.conn.now)
        → IsTrue (state S.Store tx.old.conn.now).in_transaction
        → OnOk result (Makes (state S.Store tx.old.conn.now)
        (state S.Store tx.new.conn.now) no_schema first_schema
        (map defined first_tables)) }
    ensures kept { CommitsNothing S.Store tx.old.conn.now tx.new.conn.now }
    ensures survives { Spares S.Store tx.old.conn.now tx.new.conn.now }
{
    create_tables(tx, &CREATE_TABLES)
}

/// Makes the three tables that version 2 adds, after those of version 1, whose rows stay.
pub fn make_added<S: Alter>(tx: &mut Transaction<'_, S>) -> Result<(), Error>
    ensures same_reference { tx.new.conn.ghost_name ≡ tx.old.conn.ghost_name }
    ensures value { HasCleanDisk (state S.Store tx.new.conn.now)
        → IsTrue (state S.Store tx.old.conn.now).in_transaction
        → OnOk result (Makes (state S.Store tx.old.conn.now)
        (state S.Store tx.new.conn.now) first_schema desk_schema
        (map defined added_tables)) }
    ensures kept { CommitsNothing S.Store tx.old.conn.now tx.new.conn.now }
    ensures survives { Spares S.Store tx.old.conn.now tx.new.conn.now }
{
    create_tables(tx, &CREATE_ADDED_TABLES)
}

/// Makes the fifteen tables in a store that has none.
pub fn make<S: Alter>(tx: &mut Transaction<'_, S>) -> Result<(), Error>
    ensures same_reference { tx.new.conn.ghost_name ≡ tx.old.conn.ghost_name }
    ensures value { HasCleanDisk (state S.Store tx.new.conn.now)
        → IsTrue (state S.Store tx.old.conn.now).in_transaction
        → OnOk result (Makes (state S.Store tx.old.conn.now)
        (state S.Store tx.new.conn.now) no_schema desk_schema
        (map defined desk_tables)) }
    ensures kept { CommitsNothing S.Store tx.old.conn.now tx.new.conn.now }
    ensures survives { Spares S.Store tx.old.conn.now tx.new.conn.now }
{
    make_first(tx)?;
    make_added(tx)?;
    Ok(())
}
