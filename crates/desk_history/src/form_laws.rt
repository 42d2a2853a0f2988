//! Laws of histories whose calls are in their forms, one clause for each function.
ghost use Rattle.desk_history.specs.FormLaws as law;

/// Only the console calls by the name `console`.
pub fn callers_are_told()
    ensures { law.CallersAreTold }
{}

/// Each minute of a desk's history can be read back from the caller's name, the key and the reply's
/// text.
pub fn minutes_are_readable()
    ensures { law.MinutesAreReadable }
{}

/// Different callers of a desk's history have different names, and different replies different
/// texts.
pub fn minutes_differ()
    ensures { law.MinutesDiffer }
{}

/// In the tables of a desk's history no two rows of any table have the same key.
pub fn all_rows_stand_once()
    ensures { law.AllRowsStandOnce }
{}

/// The level's table never holds `sbat`.
pub fn level_has_no_sbat()
    ensures { law.LevelHasNoSbat }
{}

/// A series of lives leaves only histories of a desk, if each of its calls was in its forms.
pub fn series_leave_histories()
    ensures { law.EndsAreHistories }
{}

/// Each call of such a series that was answered Ok is in every history that the series leaves, with
/// its reply.
pub fn answered_calls_stand()
    ensures { law.AnsweredCallsStand }
{}

/// Any number of lives leave only histories that keep all that was answered Ok: each call with its
/// reply, the history of that time as a beginning, and each image barred that was barred then.
pub fn lives_keep_what_was_answered()
    ensures { law.LivesKeepAnswered }
{}
