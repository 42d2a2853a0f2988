//! Peers that connect, one after another.
ghost use Rattle.std.specs.Prelude.{◌≡◌, IfNone, IfSome, Result};
ghost use Rattle.http_exchange.specs.Serving.{FailsFirst};
ghost use Rattle.http_exchange.specs.declared.served.HttpFault.{HttpFault as Fault};
ghost use Rattle.http_exchange.specs.declared.served.Served.{Served as Came};

use desk_exports::AnswersCalls;
use http_exchange::{HttpFault, Served};
use std::alloc::Global;

/// Where peers connect that a desk serves, one request each.
pub(crate) trait Peers<D: AnswersCalls> {
    /// What the next peer was served, of the desk before and after it.
    ghost serves: { Self → D → D → Result Came Fault → Type 0 };

    /// Serves one request of the next peer; `None` where no connection can be had.
    fn serve_next(&self, alloc: Global, desk: &mut D) -> Option<Result<Served, HttpFault>>
        ensures served { IfSome result (serves self.now desk.old desk.new) }
        ensures nobody { IfNone result (desk.new ≡ desk.old) }
        ensures before { D.clean desk.new → D.clean desk.old }
        ensures poisons { IfSome result (FailsFirst (D.failed desk.new)) }
        ensures closed { D.failed desk.old → desk.new ≡ desk.old };
}
