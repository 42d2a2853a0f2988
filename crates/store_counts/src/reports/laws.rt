//! The report of the counts, which is the report of the history.
ghost use Rattle.std.specs.Prelude.{◌≡◌};
ghost use Rattle.store_counts.specs.Counts.{CountHistory};
ghost use Rattle.store_counts.specs.declared.numbers.Counts.{Counts};
ghost use Rattle.desk_exports.specs.Reports as exports;
ghost use Rattle.desk_history.specs.Calls.{History};
ghost use Rattle.store_counts.specs.reports.Reports.{report_of};

/// If the numbers are those of a history, their report is the history's.
pub fn report_is_the_history()
    ensures { (n : Counts) (cs : History) → CountHistory n cs
        → report_of n ≡ exports.report cs }
{}
