//! Laws of exchanges: what they add to a desk's life.
ghost use Rattle.http_exchange.specs.Living.{ExchangesAddEvents, FailedAddNone};

use desk_exports::AnswersCalls;

/// An exchange adds at most one event to its desk's life, by the clause of `serve_one`: that of the
/// call that the request asks for. A response that is a reply is that of a call that was answered
/// so. If the store failed, the call was stopped, and a stop leaves the history before it or the one
/// after it.
pub fn exchanges_add_events<D: AnswersCalls>(old: &D, new: &D)
    ensures one { ExchangesAddEvents D.shows D.clean D.failed D.leaves old.now new.now }
    ensures none { FailedAddNone D.shows D.clean D.failed D.leaves old.now new.now }
{
    let _ = old;
    let _ = new;
}
