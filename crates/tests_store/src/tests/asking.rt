//! Questions to a desk, read from lines, and its answers in words. Each function makes one call of
//! the desk: a proof that carries the contracts of several takes minutes.
use super::line::Line;
use super::parts::put_reading;
use super::telling::told;
use super::*;

/// Gives the desk one call.
pub(super) fn apply<S: Alter + Drop>(desk: &mut Desk<S>, call: &Call) -> Result<Reply, Refusal> {
    desk.apply(&call.caller, &call.key, &call.command)
}

/// The desk's view for a call.
fn viewed<S: Alter + Drop>(desk: &mut Desk<S>, call: &Call) -> Result<View, Refusal> {
    desk.view(&call.caller, &call.key, &call.command)
}

/// The decision on a call by this view.
fn decided_by(alloc: Global, view: &View, call: &Call) -> Result<Reply, Refusal> {
    Ok(decide(alloc, view, &call.caller, &call.key, &call.command)?.reply)
}

/// The decision on a call by the desk's view for it.
fn decided<S: Alter + Drop>(
    alloc: Global,
    desk: &mut Desk<S>,
    call: &Call,
) -> Result<Reply, Refusal> {
    decided_by(alloc, &viewed(desk, call)?, call)
}

/// The answer to a call, in words.
fn replied<S: Alter + Drop>(alloc: Global, desk: &mut Desk<S>, call: &Call) -> Option<String> {
    told(alloc, &apply(desk, call)).ok()
}

/// The decision on a call by the desk's view for it, in words.
fn foretold<S: Alter + Drop>(alloc: Global, desk: &mut Desk<S>, call: &Call) -> Option<String> {
    told(alloc, &decided(alloc, desk, call)).ok()
}

/// The answer that was decided, if the desk has given it, and `Reopen` if the view had failed.
/// Otherwise another text, which ends with the desk's answer.
fn agreed(alloc: Global, expected: String, answer: &str) -> Option<String> {
    let wanted = if expected.as_str() == "Store" {
        "Reopen"
    } else {
        expected.as_str()
    };
    if answer == wanted {
        return Some(expected);
    }
    let mut line = Line::new(alloc);
    line.put("not by the view:").ok()?;
    line.put(answer).ok()?;
    Some(line.text)
}

/// The answer to a call that is decided first by the desk's view for it.
fn both<S: Alter + Drop>(alloc: Global, desk: &mut Desk<S>, call: &Call) -> Option<String> {
    let expected = foretold(alloc, desk, call)?;
    if expected.as_str() == "NoMemory" {
        return Some(expected);
    }
    let answer = replied(alloc, desk, call)?;
    agreed(alloc, expected, answer.as_str())
}

/// The answer to a call.
pub(super) fn answered<S: Alter + Drop>(
    alloc: Global,
    desk: &mut Desk<S>,
    given: &str,
) -> Option<String> {
    let call = Words::new(alloc, given).call()?;
    replied(alloc, desk, &call)
}

/// The same for a call that is decided first by the desk's view for it.
fn asked<S: Alter + Drop>(alloc: Global, desk: &mut Desk<S>, given: &str) -> Option<String> {
    let call = Words::new(alloc, given).call()?;
    both(alloc, desk, &call)
}

/// Puts the text, if there is one.
fn put_told(line: &mut Line, told: Option<String>) -> Option<()> {
    line.put(told?.as_str()).ok()
}

/// Puts the answer to a line.
fn put_answer<S: Alter + Drop>(
    alloc: Global,
    desk: &mut Desk<S>,
    given: &str,
    line: &mut Line,
) -> Option<()> {
    let (verb, rest) = given.split_once(" ").unwrap_or((given, ""));
    let mut words = Words::new(alloc, rest);
    match verb {
        "alone" => put_told(line, answered(alloc, desk, rest)),
        "lists" | "requests" | "with" | "proposals" | "waits" | "changes" => {
            put_reading(desk, verb, &mut words, line)
        }
        _ => put_told(line, asked(alloc, desk, given)),
    }
}

/// The answer to a line.
pub(super) fn answer<S: Alter + Drop>(
    alloc: Global,
    desk: &mut Desk<S>,
    given: &str,
) -> Option<String> {
    let mut line = Line::new(alloc);
    put_answer(alloc, desk, given, &mut line)?;
    Some(line.text)
}
