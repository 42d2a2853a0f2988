//! Laws of the rows.
ghost use Rattle.std.specs.List.{AllZip};
ghost use Rattle.desk_history.specs.Tables.{Tables};
ghost use Rattle.store_schema.specs.Tables.{desk_tables};
ghost use Rattle.store_schema.specs.rows.Columns.{HaveColumns};
ghost use Rattle.store_schema.specs.rows.Contents.{contents};
ghost use Rattle.store_schema.specs.rows.Worked as worked;
ghost use Rattle.store_schema.specs.rows.WorkedFirst as worked_first;

/// Each row has a value for each column of its table, of the column's kind, and no NULL except in
/// the place of a key that is the row id.
pub fn rows_have_their_columns()
    ensures { (t : Tables) → AllZip HaveColumns desk_tables (contents t) }
{}

/// The rows of a worked history are those that were written by hand.
pub fn worked_tables_are_rows()
    ensures { worked.HoldsDay }
{}

/// The rows of a worked history of one officer, of version 1 and of version 2, are those that were
/// written by hand.
pub fn first_tables_are_rows()
    ensures { worked_first.HoldsFirstDay }
{}
