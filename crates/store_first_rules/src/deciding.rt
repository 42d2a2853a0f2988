//! The calls that the first rules accept.
ghost use Rattle.std.specs.Prelude.{◌≡◌, IfErr, IfNone, IfOk, IfSome};
ghost use Rattle.store_first_rules.specs.Acts.{Accepts, AcceptsNot};

use base::Refusal;
use desk_rules::{CallRef, Changes, View, decide_first};
use std::alloc::Global;

/// The reply to a call that the first rules accept, and its writes. `None`: it repeats a call, or
/// the rules refuse it. Takes memory.
///
/// `NoMemory`: memory was refused.
pub(crate) fn changes_if_accepted(
    alloc: Global,
    view: &View,
    call: &CallRef<'_>,
) -> Result<Option<Changes>, Refusal>
    ensures taken { IfOk result (λ given. IfSome given (Accepts view.now call.now)) }
    ensures other { IfOk result (λ given. IfNone given (AcceptsNot view.now call.now)) }
    ensures named { IfErr result (λ refusal. refusal ≡ Refusal.NoMemory) }
{
    match decide_first(alloc, view, call.caller, call.key, call.command) {
        Ok(changes) => {
            if changes.writes.is_empty() {
                return Ok(None);
            }
            Ok(Some(changes))
        }
        Err(refusal) => {
            if refusal == Refusal::NoMemory {
                return Err(refusal);
            }
            Ok(None)
        }
    }
}
