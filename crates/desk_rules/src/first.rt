//! Decisions by the first rules, by which one officer alone revokes and raises.
ghost use Rattle.std.specs.Prelude.{IfErr, IsTrue};
ghost use Rattle.desk_history.specs.Called.{called};
ghost use Rattle.desk_history.specs.DecisionRefusals.{may_answer};
ghost use Rattle.desk_rules.specs.First as spec;

use crate::call_ref::CallRef;
use crate::deciding::Rules;
use crate::view::{Changes, View};
use base::Refusal;
use desk_types::{Caller, Command, Key};
use std::alloc::Global;

/// The answer to a call by the first rules, and the rows that it writes, from the rows of the view:
/// what a command names to be revoked or raised is put into force at once. The refusals are those
/// of `decide`, in its order. `NoMemory` may come at any time. Takes memory for the rows that it
/// writes, and for the command's canonical text.
pub fn decide_first(
    alloc: Global,
    view: &View,
    caller: &Caller,
    key: &Key,
    command: &Command,
) -> Result<Changes, Refusal>
    ensures exact { spec.DecidesFirstCall view.now (called caller.now key.now command.now) result }
    ensures only { IfErr result (λ refusal. IsTrue (may_answer refusal)) }
{
    let call = CallRef {
        caller,
        key,
        command,
    };
    Rules::First.decide_call(alloc, view, &call)
}
