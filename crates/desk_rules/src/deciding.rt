//! Decisions over a view: the caller, the call's key, the caller's role, the command, and room for
//! its writes.
ghost use Rattle.std.specs.Prelude.{◌≡◌, ◌+◌, find, option_copied, IfErr, IsTrue, MatchResult};
ghost use Rattle.desk_history.specs.Called.{called};
ghost use Rattle.desk_history.specs.DecisionRefusals.{may_answer};
ghost use Rattle.desk_types.specs.Callers.{caller_name};
ghost use Rattle.desk_types.specs.CommandTexts.{text_of as canonical_text};
ghost use Rattle.desk_history.specs.Runs.{has_key};
ghost use Rattle.desk_rules.specs.DecisionSteps as steps;
ghost use Rattle.desk_rules.specs.Decisions as spec;
ghost use Rattle.desk_rules.specs.Ruled as ruled;

use crate::call_ref::CallRef;
use crate::decisions::{decide_own, decide_own_first, push};
use crate::room::has_room;
use crate::rows::minute;
use crate::view::{Changes, View};
use base::Refusal;
use desk_history::{CommandText, Minute, Write};
use desk_types::{Caller, Command, Key, command_text};
use std::alloc::Global;

impl View {
    /// The minute of the caller's earlier call with this key.
    fn earlier_minute(&self, call: &CallRef<'_>) -> Option<&Minute>
        ensures { option_copied result
            ≡ find (has_key (caller_name call.now.caller) call.now.key) self.now.calls.items }
    {
        let (caller, key) = (call.caller, call.key);
        let is_same = |row: &&Minute| caller.name() == row.caller.name()
            && key.as_str() == row.key.as_str();
        self.calls.iter().find(is_same)
    }
}

/// The canonical text of the command. Takes memory for it.
fn text_of(alloc: Global, command: &Command) -> Result<CommandText, Refusal>
    ensures { MatchResult result (λ text. text ≡ canonical_text command.now)
        (λ refusal. refusal ≡ Refusal.NoMemory) }
{
    Ok(CommandText::new(command_text(alloc, command)?))
}

/// The answer to a call with the key of this minute: its reply, if the command has the same text.
fn repeat(alloc: Global, minute: &Minute, text: &CommandText) -> Result<Changes, Refusal>
    ensures { steps.Repeats result minute.now text.now }
{
    if minute.text.as_str() != text.as_str() {
        return Err(Refusal::KeyReused);
    }
    Ok(Changes {
        reply: minute.reply.clone()?,
        writes: Vec::new(alloc),
    })
}

/// Puts the call's own row after the writes of its command, if there is room for all of them.
fn join(
    view: &View,
    own: Changes,
    call: &CallRef<'_>,
    text: CommandText,
) -> Result<Changes, Refusal>
    ensures { steps.AppendsCallRow result view.now own (record {
      number = view.now.sizes.calls + 1;
      caller = call.now.caller;
      key = call.now.key;
      text = text;
      reply = own.reply;
    }) }
{
    if !has_room(&view.sizes, &own.writes) {
        return Err(Refusal::Full);
    }
    let row = minute(view.sizes.calls + 1, call, text, &own.reply)?;
    let mut writes = own.writes;
    push(&mut writes, Write::Call(row))?;
    Ok(Changes {
        reply: own.reply,
        writes,
    })
}

/// The rules by which a call is decided.
#[derive(Clone, Copy)]
pub(crate) enum Rules {
    /// One officer alone revokes and raises.
    First,
    /// Another officer confirms.
    Second,
}

impl Rules {
    /// The answer by the command's own conditions, and the rows that it writes, without the call's
    /// own.
    fn decide_own(self, alloc: Global, view: &View, call: &CallRef<'_>) -> Result<Changes, Refusal>
        ensures exact { ruled.DecidesOwnBy (ruled.rules_of self) view.now call.now result }
        ensures only { IfErr result (λ refusal. IsTrue (may_answer refusal)) }
    {
        match self {
            Rules::First => decide_own_first(alloc, view, call.caller, call.command),
            Rules::Second => decide_own(alloc, view, call.caller, call.command),
        }
    }

    /// The answer to the call, and the rows that it writes.
    pub(crate) fn decide_call(
        self,
        alloc: Global,
        view: &View,
        call: &CallRef<'_>,
    ) -> Result<Changes, Refusal>
        ensures exact { ruled.DecidesBy (ruled.rules_of self) view.now call.now result }
        ensures only { IfErr result (λ refusal. IsTrue (may_answer refusal)) }
    {
        if !view.is_known(call.caller) {
            return Err(Refusal::UnknownCaller);
        }
        let text = text_of(alloc, call.command)?;
        if let Some(minute) = view.earlier_minute(call) {
            return repeat(alloc, minute, &text);
        }
        if !view.may_give(call.caller, call.command) {
            return Err(Refusal::NotYourRole);
        }
        let own = self.decide_own(alloc, view, call)?;
        join(view, own, call, text)
    }
}

/// The answer to a call, and the rows that it writes, from the rows of the view. `UnknownCaller`
/// comes first; then, for a key that the caller gave before, the reply given then or `KeyReused`;
/// then `NotYourRole`, the command's own conditions and `Full`. `NoMemory` may come at any time.
/// Takes memory for the rows that it writes, and for the command's canonical text.
pub fn decide(
    alloc: Global,
    view: &View,
    caller: &Caller,
    key: &Key,
    command: &Command,
) -> Result<Changes, Refusal>
    ensures exact { spec.DecidesCall view.now (called caller.now key.now command.now) result }
    ensures only { IfErr result (λ refusal. IsTrue (may_answer refusal)) }
{
    let call = CallRef {
        caller,
        key,
        command,
    };
    Rules::Second.decide_call(alloc, view, &call)
}
