//! Laws of minutes.
ghost use Rattle.desk_minutes.specs.Follows as follows;
ghost use Rattle.desk_minutes.specs.Growth as growth;
ghost use Rattle.desk_minutes.specs.Lines.{LinesDiffer};
ghost use Rattle.desk_minutes.specs.Worked as worked;

/// A text that begins with the line of a call begins with no other call's line: the line tells its
/// number, call and reply.
pub fn lines_differ()
    ensures { LinesDiffer }
{}

/// Minutes tell the history, but for the rules of its calls, which they don't name: as the minutes
/// tell it, a desk's history is a desk's with the same minutes, and all histories that have these
/// minutes are the same. Where no call that may come next has a line, the minutes of no history go
/// on so.
pub fn minutes_tell_history()
    ensures minuted { follows.MinutedIsHistory }
    ensures kept { follows.MinutedKeepsMinutes }
    ensures same { follows.MinutesTellHistory }
    ensures none { follows.NoNextNoHistory }
{}

/// Minutes tell the exports: all histories that have these minutes, whichever rules their calls
/// were accepted by, have the same exports.
pub fn minutes_tell_exports()
    ensures { follows.MinutesTellExports }
{}

/// Whole lines that a desk's minutes begin with, and so their first lines, however many, are the
/// minutes of an earlier history, from which the desk's goes on.
pub fn beginnings_follow()
    ensures whole { growth.BeginningsFollow }
    ensures first { growth.FirstLinesFollow }
{}

/// The exports grow as a history goes on, and as minutes go on, whichever rules their calls were
/// accepted by. What the later publishes has each entry of the earlier's dbx and of its form for
/// shim, where a certificate's body comes in the place of its digest once a call gave it; each name
/// of its level with no lower generation; and no lower stamp. Whoever reads both dbx, as the bytes
/// that they are, finds each entry of the earlier in the later.
pub fn exports_grow()
    ensures history { growth.HistoriesGrow }
    ensures minutes { growth.MinutesGrow }
    ensures read { growth.DbxReadGrows }
{}

/// Of worked histories, exports don't grow where a generation, a stamp or an entry falls; and the
/// body of a certificate replaces its digest in shim's form alone.
pub fn growth_is_written()
    ensures falls { worked.FallsAreNoGrowth }
    ensures bodies { worked.BodiesReplaceDigests }
{}
