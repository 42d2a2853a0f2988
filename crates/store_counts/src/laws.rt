//! Counts of a history's tables.
ghost use Rattle.std.specs.Prelude.{ℕ, List};
ghost use Rattle.store_counts.specs.Counts.{CountHistory, CountTables};
ghost use Rattle.store_counts.specs.declared.numbers.Counts.{Counts};
ghost use Rattle.desk_history.specs.Calls.{History};
ghost use Rattle.desk_history.specs.Tables.{tables};

/// Counting the tables of a history gives the numbers of its report.
pub fn tables_count_their_history()
    ensures { (owner : List ℕ) (cs : History) (n : Counts) → CountTables n (tables owner cs)
        → CountHistory n cs }
{}
