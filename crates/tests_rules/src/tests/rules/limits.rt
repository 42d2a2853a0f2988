//! The limits of a desk: the last call that fits, the first that doesn't, and that each other
//! refusal comes before Full.
use super::days::tell_decision;
use super::tables::{NONE, new_tables, write_all};
use super::*;

/// Calls, each on a desk whose tables have these sizes: how many tables are named, the name and the
/// size of each, and the call with its answer, as `WHO KEY VERB .. : ANSWER`.
const CALLS: &str = "\
1 people 999 console k add a signer 2 : added a
1 people 1000 console k add a signer 2 : Full
1 requests 99999 ann k submit s 1 1 0 0 : submitted 100000
1 requests 100000 ann k submit s 1 1 0 0 : Full
1 listed 9999 olga k list 1 : listed
1 listed 10000 olga k list 1 : Full
1 listed 10000 olga k unlist 1 : NotThere
4 proposals 99999 digests 100000 certificates 10000 components 10000 olga k revoke 1 : proposed 100000
4 proposals 99999 digests 100000 certificates 10000 components 10000 olga k import 2024010100 0 0 1 1 1 grub 1 : proposed 100000
1 proposals 100000 olga k revoke 1 : Full
1 proposals 100000 olga k revoke-certificate 1 : Full
1 proposals 100000 olga k raise grub 1 2024010100 : Full
1 proposals 100000 olga k import 2024010100 0 0 1 1 1 grub 1 : Full
2 proposals 100000 digests 99999 olga k confirm 1 : confirmed 1 1 0 0 0
1 digests 100000 olga k confirm 1 : Full
4 proposals 100000 certificates 9999 components 9999 calls 999999 olga k confirm 2 : confirmed 2 0 1 1 0
1 certificates 10000 olga k confirm 2 : Full
1 components 10000 olga k confirm 2 : Full
3 certificates 9999 components 9999 calls 999999 olga k confirm 3 : Full
3 certificates 9999 components 9999 calls 999999 olga k confirm 4 : Full
1 digests 100000 olga k confirm 10 : confirmed 10 0 0 0 0
1 proposals 100000 olga k drop 1 : dropped 1
2 proposals 100000 calls 999999 olga k explain 5 late : explained 5
1 calls 1000000 olga k explain 5 late : Full
1 calls 1000000 olga k explain 11 late : NoSuchProposal
1 calls 1000000 olga k revoke 1 : Full
1 calls 1000000 olga k confirm 1 : Full
1 calls 1000000 olga k drop 1 : Full
2 proposals 100000 calls 1000000 olga k revoke 9 : AlreadyRevoked
2 proposals 100000 calls 1000000 olga k raise peimage 3 2023010100 : NotHigher
2 proposals 100000 calls 1000000 olga k raise peimage 4 2022010101 : StampNotLater
2 digests 100000 calls 1000000 olga k confirm 5 : ProposalClosed
2 digests 100000 calls 1000000 otto k confirm 1 : OwnProposal
2 digests 100000 calls 1000000 olga k confirm 6 : AlreadyRevoked
2 components 10000 calls 1000000 olga k confirm 8 : NotHigher
2 components 10000 calls 1000000 olga k confirm 9 : StampNotLater
2 components 10000 calls 1000000 olga k drop 5 : ProposalClosed
";

/// The officers' calls before: otto proposed, and olga confirmed two of the proposals.
const BEFORE: &str = "\
otto q1 revoke 1
otto q2 import 2024010100 0 0 1 1 1 grub 1
otto q3 import 2024010100 0 0 2 1 2 1 grub 1
otto q4 import 2024010100 0 0 1 1 2 grub 1 shim 1
otto q5 revoke 9
otto q6 revoke 9
otto q7 raise peimage 3 2022010101
otto q8 raise peimage 2 2022010102
otto q9 import 2022010101 0 0 0 1 fwupd 1
otto q10 import 0 0 1 9 0 0
olga q1 confirm 5
olga q2 confirm 7
";

/// A person of this name and role.
fn person(alloc: Global, name: &[u8], role: Role) -> Result<Person, Fail> {
    Ok(Person {
        name: PersonName::parse(alloc, name)?,
        role,
        token: digest(1),
    })
}

/// Plays the call of the line.
fn play(alloc: Global, tables: &mut View, line: &str) -> Result<(), Fail> {
    let call = Words::new(alloc, line).call().ok_or("a call")?;
    let changes = decide(alloc, tables, &call.caller, &call.key, &call.command)?;
    write_all(alloc, tables, &changes.writes)
}

/// A desk with two officers and a submitter, after the officers' calls.
fn tables(alloc: Global) -> Result<View, Fail> {
    let mut tables = new_tables(alloc)?;
    tables.people.push(person(alloc, b"olga", Role::Officer)?)?;
    tables.people.push(person(alloc, b"otto", Role::Officer)?)?;
    tables.people.push(person(alloc, b"ann", Role::Submitter)?)?;
    for line in BEFORE.lines() {
        play(alloc, &mut tables, line)?;
    }
    Ok(tables)
}

/// Sets the size of the table of this name.
fn set_size(sizes: &mut Sizes, table: &str, size: u64) {
    match table {
        "people" => sizes.people = size,
        "requests" => sizes.requests = size,
        "listed" => sizes.listed = size,
        "digests" => sizes.revoked_digests = size,
        "certificates" => sizes.revoked_certificates = size,
        "components" => sizes.components = size,
        "proposals" => sizes.proposals = size,
        _ => sizes.calls = size,
    }
}

/// The sizes that the words begin with.
fn sizes(words: &mut Words) -> Result<Sizes, Fail> {
    let mut sizes = NONE;
    for _ in 0..words.number().ok_or("a count")? {
        let table = words.text().ok_or("a table")?;
        let size = words.number().ok_or("a size")?;
        set_size(&mut sizes, table, size);
    }
    Ok(sizes)
}

/// Appends the answer to the call in the words.
fn answer(
    alloc: Global,
    tables: &View,
    told: &mut String,
    words: &mut Words<'_>,
) -> Result<(), Fail> {
    let call = words.call().ok_or("a call")?;
    let decision = decide(alloc, tables, &call.caller, &call.key, &call.command);
    tell_decision(alloc, told, &decision)
}

/// Appends a line with the answer of a desk of the line's sizes.
fn answer_line(
    alloc: Global,
    tables: &mut View,
    told: &mut String,
    line: &str,
) -> Result<(), Fail> {
    let (given, _) = line.split_once(" : ").ok_or("an answer")?;
    let mut words = Words::new(alloc, given);
    tables.sizes = sizes(&mut words)?;
    told.push_str(given)?;
    told.push_str(" : ")?;
    answer(alloc, tables, told, &mut words)?;
    told.push('\n')?;
    Ok(())
}

#[test]
fn takes_what_a_desk_may_hold_and_no_more(rt: HostRuntime) -> Result<(), Fail> {
    let mut tables = tables(rt.alloc())?;
    let mut told = String::new(rt.alloc());
    for line in CALLS.lines() {
        answer_line(rt.alloc(), &mut tables, &mut told, line)?;
    }
    assert!(rt; told.as_str() == CALLS, "{told}");
    Ok(())
}
