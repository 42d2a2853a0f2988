//! Laws of stores, whatever their tables.
ghost use Rattle.std.specs.Prelude.{IsTrue};
ghost use Rattle.sqlite.specs.Change.{created};
ghost use Rattle.sqlite.specs.Held.{state};
ghost use Rattle.store_sql.specs.Contents.{AreTablesOf, Contents};
ghost use Rattle.sqlite.specs.Schema.{Schema};
ghost use Rattle.sqlite.specs.Table.{Table};
ghost use Rattle.sqlite_catalog.specs.Change.{indexed};
ghost use Rattle.sqlite_schema.specs.declared.schema.Index.{Index};
ghost use Rattle.store_sql.specs.Layouts.{Fits, Layout, NamesNone};
ghost use Rattle.store_sql.specs.States.{Leaves, Shows};

use sqlite::{Alter, Connection};

/// Outside a transaction a stop leaves the tables of a layout that an open connection shows, with
/// their rows. Nothing is said of the rows of other tables.
pub fn stop_leaves_what_is_shown<S: Alter>(conn: &Connection<S>)
    ensures { (layout : Layout) (c : Contents) → Shows layout (state S.Store conn.now) c
        → IsTrue (state S.Store conn.now).is_open
        → Leaves (state S.Store conn.now) (λ db. AreTablesOf layout db c) }
{
    let _ = conn;
}

/// Where others may follow the tables of a layout, CREATE TABLE and CREATE INDEX leave a schema
/// that fits, if no foreign key of the new table names one of the layout's as its parent.
pub fn what_is_made_later_fits()
    ensures table { (layout : Layout) (schema : Schema) (t : Table) → IsTrue layout.leads
        → Fits layout schema → NamesNone layout.schema.tables t → Fits layout (created schema t) }
    ensures index { (layout : Layout) (schema : Schema) (t : Table) (i : Index)
        → IsTrue layout.leads → Fits layout schema → Fits layout (indexed schema t i) }
{}
