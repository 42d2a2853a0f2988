//! Laws of connections: what they add to a desk's life.
ghost use Rattle.http_net.specs.Living.{RunsAddEvents, TurnsAddEvents};

use desk_exports::AnswersCalls;

/// Connections that a desk serves one after another add events to its life, by the clause of
/// `serve`: each at most one, that of the call that its request asks for. A response that is a reply
/// is that of a call that was answered so. At most the last of the events was stopped; then a stop
/// leaves the history before that call or the one after it.
pub fn connections_add_events<D: AnswersCalls>(old: &D, new: &D)
    ensures run { RunsAddEvents D.shows D.clean D.failed D.leaves old.now new.now }
    ensures turns { TurnsAddEvents D.shows D.clean D.failed D.leaves old.now new.now }
{
    let _ = old;
    let _ = new;
}
