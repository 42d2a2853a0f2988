//! The law of views, the clause of its function.
ghost use Rattle.desk_rules.specs.Shown.{WholeTablesShow};

/// A view that has all rows of the tables shows them for every call.
pub fn whole_tables_show()
    ensures { WholeTablesShow }
{}
