//! Laws of runs over minutes: what they add to the series of a desk's lives.
ghost use Rattle.store_follow.specs.Living.{RecoversRuns, RunsBegin, RunsLiveOn, RunsMayStop};
ghost use Rattle.store_follow.specs.Living.{WrongRunsLiveOn};

use sqlite::{Alter, Connection};
use store_desk::Desk;

/// A run adds its lines to the series of the desk's lives, by the clauses of `follow`: each
/// followed line is a call that was answered Ok with its reply. If the run followed all lines, or
/// met a wrong one, the desk lives on; whatever its result, a stop leaves what these lives may
/// leave.
pub fn runs_make_lives<S: Alter>(old: &Desk<S>, new: &Desk<S>)
    ensures begin { RunsBegin S.Store old.now }
    ensures on { RunsLiveOn S.Store new.now }
    ensures wrong { WrongRunsLiveOn S.Store old.now new.now }
    ensures stop { RunsMayStop S.Store new.now.conn }
{
    let _ = old;
    let _ = new;
}

/// The same of a run that returned the connection.
pub fn refused_runs_make_lives<S: Alter>(conn: &Connection<S>)
    ensures { RunsMayStop S.Store conn.now }
{
    let _ = conn;
}

/// A desk that is opened after a run, wherever that was stopped, has the history of before, or one
/// that extends it by the next lines: no call that was acknowledged before the run is lost.
pub fn openings_recover_runs<S: Alter>(conn: &Connection<S>, desk: &Desk<S>)
    ensures { RecoversRuns S.Store conn.now desk.now }
{
    let _ = conn;
    let _ = desk;
}
