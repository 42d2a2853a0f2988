//! Texts in their forms: calls that take memory get it, even for the longest.
use desk_types::{
    Caller, Command, Key, Note, PersonName, Reply, RequestNumber, Title, command_text, reply_text,
};
use std::alloc::{AllocError, Global};
use std::test::Fail;

/// Whether a name is accepted and copied, also as a caller's.
fn is_name(alloc: Global, text: &[u8]) -> Result<bool, Fail> {
    let name = PersonName::parse(alloc, text)?.clone()?;
    let is_taken = name.as_str().as_bytes() == text;
    let caller = Caller::Person(name).clone()?;
    Ok(is_taken && caller.to_person_name(alloc)?.as_str().as_bytes() == text)
}

/// Whether a key is accepted and copied.
fn is_key(alloc: Global, text: &[u8]) -> Result<bool, Fail> {
    let key = Key::parse(alloc, text)?.clone()?;
    Ok(key.as_str().as_bytes() == text)
}

/// Whether a title is accepted and copied.
fn is_title(alloc: Global, text: &[u8]) -> Result<bool, Fail> {
    let title = Title::parse(alloc, text)?.clone()?;
    Ok(title.as_str().as_bytes() == text)
}

/// Whether a note is accepted and copied.
fn is_note(alloc: Global, text: &[u8]) -> Result<bool, Fail> {
    let note = Note::parse(alloc, text)?.clone()?;
    Ok(note.as_str().as_bytes() == text)
}

#[test]
fn takes_the_shortest_and_the_longest_of_each_text(rt: HostRuntime) -> Result<(), Fail> {
    let alloc = rt.alloc();
    assert!(rt;
        is_name(alloc, b"a")? && is_name(alloc, &[b'z'; 32])?,
        "names"
    );
    assert!(rt; is_key(alloc, b"!")? && is_key(alloc, &[b'~'; 64])?, "keys");
    assert!(rt;
        is_title(alloc, b"x")? && is_title(alloc, &[b' '; 120])?,
        "titles"
    );
    assert!(rt;
        is_note(alloc, b"")? && is_note(alloc, &[b'~'; 200])?,
        "notes"
    );
    Ok(())
}

#[test]
fn names_the_console(rt: HostRuntime) -> Result<(), Fail> {
    let name = Caller::Console.to_person_name(rt.alloc())?;
    assert!(rt; name.as_str() == "console");
    Ok(())
}

/// The text of a withdrawal.
fn withdrawal(alloc: Global, request: RequestNumber) -> Result<String, AllocError> {
    command_text(alloc, &Command::Withdraw(request))
}

#[test]
fn writes_a_command(rt: HostRuntime) -> Result<(), Fail> {
    let request = RequestNumber::new(12).ok_or("a request's number")?;
    let text = withdrawal(rt.alloc(), request)?;
    assert!(rt; text.as_str() == "withdraw 12", "a withdrawal");
    Ok(())
}

/// Replies.
const REPLIES: &str = "\
added ann
submitted 1
reviewed 2 rejected
withdrawn 12
imported 18446744073709551615 0 10 2
listed";

/// Whether a reply is read, copied and written again.
fn is_reply(alloc: Global, text: &str) -> Result<bool, Fail> {
    let reply = Reply::parse(alloc, text.as_bytes())?.clone()?;
    Ok(reply_text(alloc, &reply)?.as_str() == text)
}

#[test]
fn reads_replies_back(rt: HostRuntime) -> Result<(), Fail> {
    for line in REPLIES.lines() {
        assert!(rt; is_reply(rt.alloc(), line)?, "{line}");
    }
    Ok(())
}

#[test]
fn reads_callers_back(rt: HostRuntime) -> Result<(), Fail> {
    assert!(rt; Caller::parse(rt.alloc(), b"console")?.name() == "console");
    assert!(rt; Caller::parse(rt.alloc(), b"ann")?.name() == "ann");
    Ok(())
}
