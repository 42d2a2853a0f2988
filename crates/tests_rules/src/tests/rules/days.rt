//! Days of a desk: calls with caller, key and command, and the answer, or an image and the desk's
//! verdict on it.
use super::tables::{new_tables, write_all};
use super::*;
use desk_types::{Call, Facts, Reply};
use std::fmt::Write as _;

/// The rules by which the calls of a day are decided.
#[derive(Clone, Copy)]
pub(super) enum Rules {
    First,
    Second,
}

/// Appends a reply's text, with `again` before one that writes nothing.
fn tell_reply(alloc: Global, told: &mut String, is_new: bool, reply: &Reply) -> Result<(), Fail> {
    if !is_new {
        told.push_str("again ")?;
    }
    told.push_str(reply_text(alloc, reply)?.as_str())?;
    Ok(())
}

/// Appends a decision: its reply, or a refusal's name.
pub(super) fn tell_decision(
    alloc: Global,
    told: &mut String,
    decision: &Result<Changes, Refusal>,
) -> Result<(), Fail> {
    match decision {
        Ok(changes) => tell_reply(alloc, told, !changes.writes.is_empty(), &changes.reply),
        Err(refusal) => tell_name(told, *refusal),
    }
}

/// Appends a refusal's name.
fn tell_name(told: &mut String, refusal: Refusal) -> Result<(), Fail> {
    Ok(told.push_str(refusal.name())?)
}

/// Appends a decision, and writes its rows.
fn record(
    alloc: Global,
    tables: &mut View,
    told: &mut String,
    decision: &Result<Changes, Refusal>,
) -> Result<(), Fail> {
    tell_decision(alloc, told, decision)?;
    match decision {
        Ok(changes) => write_all(alloc, tables, &changes.writes),
        Err(_) => Ok(()),
    }
}

/// The decision on a call by the rules.
fn decide_by(alloc: Global, rules: Rules, tables: &View, call: &Call) -> Result<Changes, Refusal> {
    match rules {
        Rules::First => decide_first(alloc, tables, &call.caller, &call.key, &call.command),
        Rules::Second => decide(alloc, tables, &call.caller, &call.key, &call.command),
    }
}

/// Gives one call.
fn ask(
    alloc: Global,
    rules: Rules,
    tables: &mut View,
    told: &mut String,
    given: &str,
) -> Result<(), Fail> {
    let call = Words::new(alloc, given).call().ok_or("a call")?;
    let decision = decide_by(alloc, rules, tables, &call);
    record(alloc, tables, told, &decision)
}

/// Appends the desk's verdict on these facts.
fn tell_verdict(tables: &View, told: &mut String, facts: &Facts) -> Result<(), Fail> {
    let verdict = verdict(&tables.lists, facts);
    write!(told, "{verdict:?}")?;
    Ok(())
}

/// Appends the desk's verdict on an image.
fn judge(alloc: Global, tables: &View, told: &mut String, given: &str) -> Result<(), Fail> {
    let facts = Words::new(alloc, given).facts().ok_or("facts")?;
    tell_verdict(tables, told, &facts)
}

/// Plays a line, `WHO KEY VERB .. : ANSWER` or `verdict IMAGE : VERDICT`, and appends it with the
/// actual answer.
fn play_line(
    alloc: Global,
    rules: Rules,
    tables: &mut View,
    told: &mut String,
    line: &str,
) -> Result<(), Fail> {
    let (given, _) = line.split_once(" : ").ok_or("an answer")?;
    told.push_str(given)?;
    told.push_str(" : ")?;
    match given.strip_prefix("verdict ") {
        Some(image) => judge(alloc, tables, told, image)?,
        None => ask(alloc, rules, tables, told, given)?,
    }
    told.push('\n')?;
    Ok(())
}

/// Plays the lines of a script on a new desk by the rules, and compares all answers.
pub(super) fn play(rt: &impl Abort, alloc: Global, rules: Rules, script: &str) -> Result<(), Fail> {
    let mut tables = new_tables(alloc)?;
    let mut told = String::new(alloc);
    for line in script.lines() {
        play_line(alloc, rules, &mut tables, &mut told, line)?;
    }
    assert!(rt; told.as_str() == script, "{told}");
    Ok(())
}

/// A desk with a submitter, three reviewers, a signer and two officers takes requests, reviews,
/// returns, listings and revocations. The certificate is 204; 160 is an image whose length needs no
/// padding, 162 one whose padded form is 163.
const REQUESTS: &str = "\
console p1 add ann submitter 1 : added ann
console p2 add rita reviewer 2 : added rita
console p3 add raul reviewer 3 : added raul
console p4 add rosa reviewer 4 : added rosa
console p5 add sid signer 5 : added sid
console p6 add olga officer 6 : added olga
console p7 add otto officer 7 : added otto
eve e1 list 1 : UnknownCaller
console e1 list 1 : NotYourRole
console e2 add console signer 9 : NameTaken
console e2 add ann signer 9 : NameTaken
console e2 add eve signer 6 : NameTaken
console e2 add eve officer 9 : added eve
console e2 add eve officer 9 : again added eve
console e2 add eve officer 8 : KeyReused
eve e1 add bob officer 8 : NotYourRole
eve e1 list 1 : listed
eve e1 submit shim 160 160 0 0 : KeyReused
eve e3 submit shim 160 160 0 0 : NotYourRole
olga e1 unlist 1 : unlisted
eve e1 list 1 : again listed
rita r1 yes 1 : NoSuchRequest
ann r1 submit shim 160 160 0 0 : submitted 1
ann r1 submit shim 160 160 0 0 : again submitted 1
ann r1 submit grub 160 160 0 0 : KeyReused
ann r2 submit shim 160 160 0 0 : submitted 2
rita r1 submit shim 160 160 0 0 : submitted 3
ann r3 yes 1 : NotYourRole
rita r2 yes 1 : reviewed 1 open
rita r3 yes 1 : AlreadyReviewed
rita r3 no 1 : AlreadyReviewed
rita r3 yes 3 : OwnRequest
raul r1 yes 1 : reviewed 1 approved
rosa r1 no 1 : WrongState
rosa r1 yes 2 : reviewed 2 open
raul r2 no 2 : reviewed 2 rejected
rita r3 yes 2 : WrongState
ann r3 withdraw 2 : WrongState
ann r3 withdraw 3 : NoSuchRequest
ann r3 withdraw 4 : NoSuchRequest
sid r1 withdraw 3 : NotYourRole
rita r3 withdraw 3 : withdrawn 3
rita r4 withdraw 3 : WrongState
raul r1 yes 1 : again reviewed 1 approved
sid b1 return 9 160 160 1 204 0 : NoSuchRequest
sid b1 return 2 160 160 1 204 0 : WrongState
sid b1 return 3 160 160 1 204 0 : WrongState
ann b1 return 1 160 160 1 204 0 : NotYourRole
sid b1 return 1 2 2 1 204 0 : DigestDiffers
sid b1 return 1 160 160 1 204 0 : NotListed
olga b1 list-certificate 204 : listed
olga b2 list-certificate 204 : AlreadyListed
verdict 160 160 1 204 0 : Allowed
verdict 160 160 0 0 : NotListed
sid b1 return 1 160 160 0 0 : NotListed
sid b1 return 1 160 160 1 204 0 : returned 1
sid b2 return 1 160 160 1 204 0 : WrongState
sid b1 return 1 160 160 1 204 0 : again returned 1
ann b1 withdraw 1 : WrongState
ann b2 submit pad 162 163 0 0 : submitted 4
rita b1 yes 4 : reviewed 4 open
rosa b1 yes 4 : reviewed 4 approved
ann b3 submit pad 162 163 0 0 : submitted 5
rita b2 yes 5 : reviewed 5 open
rosa b2 yes 5 : reviewed 5 approved
sid b2 return 4 162 162 1 204 0 : returned 4
sid b3 return 5 163 163 1 204 0 : returned 5
olga b3 revoke-certificate 204 : proposed 1
olga b3 revoke-certificate 204 : again proposed 1
verdict 160 160 1 204 0 : Allowed
olga c1 confirm 1 : OwnProposal
ann c1 confirm 1 : NotYourRole
console c1 drop 1 : NotYourRole
ann c1 explain 1 lost : NotYourRole
console c1 explain 1 lost : NotYourRole
olga x1 explain 1 lost : explained 1
otto e1 explain 1 stolen : explained 1
otto e2 explain 2 lost : NoSuchProposal
olga c1 confirm 1 : OwnProposal
otto c1 confirm 2 : NoSuchProposal
otto c1 confirm 1 : confirmed 1 0 1 0 0
otto c1 confirm 1 : again confirmed 1 0 1 0 0
otto c1 drop 1 : KeyReused
otto c2 confirm 1 : ProposalClosed
olga c1 drop 1 : ProposalClosed
olga b4 revoke-certificate 204 : AlreadyRevoked
verdict 160 160 1 204 0 : DbxCertificate
olga b4 unlist-certificate 204 : unlisted
olga b5 unlist-certificate 204 : NotThere
verdict 160 160 1 204 0 : DbxCertificate
ann b4 submit shim 160 160 1 204 0 : Revoked
olga b5 revoke 162 : proposed 2
olga b6 revoke 162 : proposed 3
ann b4 submit shim 162 163 0 0 : submitted 6
otto c2 confirm 2 : confirmed 2 1 0 0 0
otto c3 confirm 3 : AlreadyRevoked
olga c1 drop 3 : dropped 3
olga c1 drop 3 : again dropped 3
otto c3 confirm 3 : ProposalClosed
olga c2 confirm 3 : ProposalClosed
olga c2 drop 4 : NoSuchProposal
olga e2 explain 3 twice : explained 3
olga e2 explain 3 twice : again explained 3
olga e2 explain 3 again : KeyReused
otto e2 explain 2 found : explained 2
otto c3 confirm 3 : ProposalClosed
verdict 164 162 0 0 : DbxDigest
ann b5 submit shim 162 163 0 0 : Revoked
";

/// The level rises, and revocations are imported, each by a proposal and its Confirm.
const LEVELS: &str = "\
console p1 add ann submitter 1 : added ann
console p2 add rita reviewer 2 : added rita
console p3 add raul reviewer 3 : added raul
console p4 add sid signer 4 : added sid
console p5 add olga officer 5 : added olga
console p6 add otto officer 6 : added otto
olga v1 list 32 : listed
olga v2 list 32 : AlreadyListed
olga v2 unlist-certificate 32 : NotThere
olga v2 raise grub 3 2024010100 : proposed 1
verdict 32 32 0 1 grub 2 : Allowed
otto w1 confirm 1 : confirmed 1 0 0 1 0
olga v3 raise grub 2 2024010101 : NotHigher
olga v3 raise grub 3 2024010101 : NotHigher
olga v3 raise grub 4 2024010100 : StampNotLater
olga v3 raise sbat 2 2024010101 : NotHigher
verdict 32 32 0 1 grub 2 : Sbat(Below { place: 0, needs: Generation(3) })
verdict 32 32 0 2 sbat 1 grub 3 : Allowed
verdict 32 32 0 1 grub 4294967295 : Allowed
olga v4 raise shim 9 2024010101 : proposed 2
olga v5 raise shim 10 2024010102 : proposed 3
otto w2 confirm 3 : confirmed 3 0 0 1 0
otto w3 confirm 2 : NotHigher
olga v6 raise shim 9 2024010103 : NotHigher
verdict 32 32 0 1 shim 9 : Sbat(Below { place: 0, needs: Generation(10) })
verdict 32 32 0 1 shim 100 : Allowed
olga v5 raise shim 10 2024010102 : again proposed 3
olga v5 raise shim 11 2024010102 : KeyReused
sid v1 revoke 33 : NotYourRole
ann v1 submit shim 33 33 0 1 grub 2 : Revoked
ann v1 submit shim 33 33 0 1 grub 3 : submitted 1
rita v1 yes 1 : reviewed 1 open
raul v1 yes 1 : reviewed 1 approved
olga v6 import 0 1 1 170 1 187 0 : proposed 4
olga v7 import 0 1 1 170 1 187 0 : proposed 5
otto w3 confirm 4 : confirmed 4 1 1 0 1
otto w4 confirm 5 : confirmed 5 0 0 0 1
olga v8 import 0 0 2 171 171 0 2 grub 2 grub 3 : proposed 6
otto w5 confirm 6 : confirmed 6 1 0 0 0
olga v9 import 0 0 0 0 1 grub 4 : StampNotLater
olga v9 import 2024010102 0 0 0 1 grub 4 : StampNotLater
olga v9 import 2024010103 0 1 172 0 3 grub 4 peimage 2 grub 5 : proposed 7
olga v9 import 2024010103 0 1 172 0 3 grub 4 peimage 2 grub 5 : again proposed 7
olga v9 import 2024010104 0 1 172 0 3 grub 4 peimage 2 grub 5 : KeyReused
olga v10 raise grub 5 2024010104 : proposed 8
otto w6 confirm 7 : confirmed 7 1 0 2 0
otto w7 confirm 8 : NotHigher
olga v11 raise grub 5 2024010104 : NotHigher
verdict 32 32 0 2 peimage 2 grub 4 : Sbat(Below { place: 1, needs: Generation(5) })
verdict 171 34 0 0 : DbxDigest
verdict 32 32 1 187 0 : DbxCertificate
sid v2 return 1 33 33 0 1 grub 4 : Revoked
sid v2 return 1 33 33 0 1 grub 5 : NotListed
olga v11 import 2024010105 0 0 0 1 grub 9 : proposed 9
olga v12 raise shim 11 2024010106 : proposed 10
otto w7 confirm 10 : confirmed 10 0 0 1 0
otto w8 confirm 9 : StampNotLater
olga v13 list 33 : listed
sid v2 return 1 33 33 0 1 grub 5 : returned 1
";

#[test]
fn a_day_of_requests(rt: HostRuntime) -> Result<(), Fail> {
    play(&rt, rt.alloc(), Rules::Second, REQUESTS)
}

#[test]
fn a_day_of_levels(rt: HostRuntime) -> Result<(), Fail> {
    play(&rt, rt.alloc(), Rules::Second, LEVELS)
}
