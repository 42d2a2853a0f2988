//! Days of a desk in a store: lines of calls to it, and its expected answers.
use super::asking::answer;
use super::founding::{made, opened, run};
use super::scripts::{PARTS, PROPOSALS, REQUESTS, SEARCHES, SPOILT, WAITING};
use super::*;

/// A desk without calls.
fn new_desk(alloc: Global) -> Option<Memory> {
    made(alloc, Connection::open_in_memory(alloc).ok()?)
}

/// The desk, opened again, after this text in SQL was run on its store, unless the text is
/// `reopen`; and the store's answer.
fn again(alloc: Global, desk: Memory, text: &str) -> Option<(Memory, String)> {
    let mut conn = desk.release();
    let told = if text == "reopen" {
        String::new(alloc)
    } else {
        run(alloc, &mut conn, text)?
    };
    Some((opened(alloc, conn)?, told))
}

/// Whether the line is for the store under the desk.
fn is_for_store(given: &str) -> bool {
    let word = given.split_once(" ").map_or(given, |parts| parts.0);
    matches!(word, "reopen" | "UPDATE" | "INSERT")
}

/// The desk after a line, and its answer.
fn turn(alloc: Global, desk: Memory, given: &str) -> Option<(Memory, String)> {
    if is_for_store(given) {
        return again(alloc, desk, given);
    }
    let mut desk = desk;
    let told = answer(alloc, &mut desk, given)?;
    Some((desk, told))
}

/// The desk after the lines of a script, `GIVEN : ANSWER` or `GIVEN` alone.
fn played(rt: &impl Abort, alloc: Global, desk: Memory, script: &str) -> Result<Memory, Fail> {
    let mut desk = desk;
    for line in script.lines() {
        let (given, wanted) = line.split_once(" : ").unwrap_or((line, ""));
        let (next, told) = turn(alloc, desk, given).ok_or(line)?;
        desk = next;
        assert!(rt; told.as_str() == wanted, "{line}: {told}");
    }
    Ok(desk)
}

/// Plays the lines of a script on a new desk.
fn play(rt: &impl Abort, alloc: Global, script: &str) -> Result<(), Fail> {
    let desk = new_desk(alloc).ok_or("a desk")?;
    played(rt, alloc, desk, script)?;
    Ok(())
}

#[test]
fn a_day_of_requests(rt: HostRuntime) -> Result<(), Fail> {
    play(&rt, rt.alloc(), REQUESTS)
}

#[test]
fn a_day_of_proposals(rt: HostRuntime) -> Result<(), Fail> {
    play(&rt, rt.alloc(), PROPOSALS)
}

#[test]
fn a_day_of_waiting(rt: HostRuntime) -> Result<(), Fail> {
    play(&rt, rt.alloc(), WAITING)
}

#[test]
fn requests_are_found_by_each_digest(rt: HostRuntime) -> Result<(), Fail> {
    play(&rt, rt.alloc(), SEARCHES)
}

#[test]
fn a_thousand_requests_come_in_parts(rt: HostRuntime) -> Result<(), Fail> {
    play(&rt, rt.alloc(), PARTS)
}

#[test]
fn a_row_that_no_desk_writes_is_the_stores_failure(rt: HostRuntime) -> Result<(), Fail> {
    play(&rt, rt.alloc(), SPOILT)
}
