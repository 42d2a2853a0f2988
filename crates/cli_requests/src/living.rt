//! Laws of requests: what they add to the life of a desk in a store.
ghost use Rattle.cli_requests.specs.Living.{ConnectionsMakeLives, RequestsMakeLives};

use sqlite::Alter;
use store_desk::Desk;

/// Requests add events to their desk's life, by the clauses of `serve` and of `serve_one`: each at
/// most that of the call that it asks for. A response that is a reply to a command is that of a call
/// that was answered so, and that each later opening therefore finds with its reply. Whatever the
/// last outcome, a stop leaves what the lives with these events may leave: at most the last call is
/// missing.
pub fn requests_make_lives<S: Alter>(old: &Desk<S>, new: &Desk<S>)
    ensures connections { ConnectionsMakeLives S.Store old.now new.now }
    ensures one { RequestsMakeLives S.Store old.now new.now }
{
    let _ = old;
    let _ = new;
}
