//! Laws of the definitions, one clause for each function.
ghost use Rattle.desk_history.specs.Laws as law;
ghost use Rattle.desk_history.specs.Shown.{SubmittersSeeOwn};

/// An image is allowed exactly if it isn't barred and is in db.
pub fn allows_exactly()
    ensures { law.AllowsExactly }
{}

/// An image that is barred stays barred.
pub fn what_is_barred_stays_barred()
    ensures { law.StaysBarred }
{}

/// The history after some steps of a run extends those before it.
pub fn runs_go_on()
    ensures { law.RunsGoOn }
{}

/// The legal histories are those that runs from an empty history leave.
pub fn legal_histories_are_runs()
    ensures { law.LegalIsRun }
{}

/// The listed rows are those of the listed entries.
pub fn listed_rows_are_listed()
    ensures { law.ListsListed }
{}

/// In a legal history a caller gives each key once.
pub fn keys_stand_once()
    ensures { law.KeysStandOnce }
{}

/// In the tables of a legal history no two rows have the same key.
pub fn rows_stand_once()
    ensures { law.RowsStandOnce }
{}

/// A series of lives leaves only legal histories.
pub fn series_are_legal()
    ensures { law.EndsAreLegal }
{}

/// Each call of a series that was answered Ok was answered at some history.
pub fn answers_have_histories()
    ensures { law.AnswersHaveHistories }
{}

/// Each history that a series leaves holds each call that was answered Ok, with its reply, and
/// extends the history of that time.
pub fn answers_are_kept()
    ensures { law.AnswersAreKept }
{}

/// A submitter's answer about requests is the same for all histories that have the same requests of
/// that submitter.
pub fn submitters_see_own()
    ensures { SubmittersSeeOwn }
{}
