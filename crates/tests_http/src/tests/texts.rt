//! Replies, requests, facts, proposals, impacts, people, verdicts, what waits and the number of
//! changes in JSON.
use base::Digest;
use desk_history::{
    BarredImage, Below, ProposalRow, Rule, ShownImpact, ShownPerson, Verdict, WhichFile,
};
use desk_types::{
    Carried, Confirmation, Counts, Digests, Facts, Import, ImportedComponents, Note, Outcome,
    PersonName, Proposal, ProposalKind, ProposalNumber, ProposalState, Reply, RequestNumber, Role,
    ShownRequest, ShownReturn, ShownVote, ShownVotes, State, Title, Vote,
};
use http_responses::{
    RequestsText, changes_json, facts_json, impact_json, people_json, person_json, proposal_json,
    proposals_json, reply_json, request_json, verdict_json, waiting_json,
};
use pe_image::Extent;
use sbat::{Component, ComponentName, Components, Generation, Stamp};
use std::alloc::Global;
use std::test::Fail;

fn component(alloc: Global, name: &str, generation: u32) -> Result<Component, Fail> {
    let generation = Generation::new(generation).ok_or("a generation")?;
    let name = ComponentName::parse(alloc, name.as_bytes())?;
    Ok(Component { name, generation })
}

/// Two certificates.
fn carried(alloc: Global) -> Result<Carried, Fail> {
    let mut digests = Vec::new(alloc);
    digests.push(Digest::from([2; 32]))?;
    digests.push(Digest::from([1; 32]))?;
    Ok(Carried::new(digests).ok_or("certificates")?)
}

/// Two components.
fn components(alloc: Global) -> Result<Components, Fail> {
    let mut components = Vec::new(alloc);
    components.push(component(alloc, "sbat", 1)?)?;
    components.push(component(alloc, "shim", 4)?)?;
    Ok(Components::new(components).ok_or("components")?)
}

/// An image with two certificates and two components.
fn facts(alloc: Global) -> Result<Facts, Fail> {
    let extent = Extent::new(1024, 0).ok_or("an extent")?;
    let carried = carried(alloc)?;
    let components = components(alloc)?;
    Ok(Facts {
        extent,
        file: Digest::from([0xff; 32]),
        digest: Digest::from([0xaa; 32]),
        signing: Digest::from([0xbb; 32]),
        carried,
        components,
    })
}

fn vote(alloc: Global, reviewer: &str, vote: Vote, note: &str) -> Result<ShownVote, Fail> {
    Ok(ShownVote {
        reviewer: PersonName::parse(alloc, reviewer.as_bytes())?,
        vote,
        note: Note::parse(alloc, note.as_bytes())?,
    })
}

/// A request with these votes and this returned file.
fn request(
    alloc: Global,
    number: RequestNumber,
    state: State,
    votes: ShownVotes,
    returned: Option<ShownReturn>,
) -> Result<ShownRequest, Fail> {
    let submitter = PersonName::parse(alloc, b"ann")?;
    let title = Title::parse(alloc, br#" a "b" \ ~"#)?;
    let facts = facts(alloc)?;
    Ok(ShownRequest {
        number,
        submitter,
        title,
        facts,
        state,
        votes,
        returned,
    })
}

/// A request with two votes, given as rita's and raul's.
const OPEN: &str =
    r#"{"carried":["0101010101010101010101010101010101010101010101010101010101010101","0202020202020202020202020202020202020202020202020202020202020202"],"components":[["sbat",1],["shim",4]],"digest":"aaaaaaaaaaaaaaaaaaaaaaaaaaaaaaaaaaaaaaaaaaaaaaaaaaaaaaaaaaaaaaaa","file":"ffffffffffffffffffffffffffffffffffffffffffffffffffffffffffffffff","gap":0,"length":1024,"number":999999,"returned":null,"signing":"bbbbbbbbbbbbbbbbbbbbbbbbbbbbbbbbbbbbbbbbbbbbbbbbbbbbbbbbbbbbbbbb","state":"open","submitter":"ann","title":" a \"b\" \\ ~","votes":[{"note":"no \"x\" \\ ~ ","reviewer":"raul","vote":"no"},{"note":"","reviewer":"rita","vote":"yes"}]}"#;

/// A request whose signed file was returned.
const SIGNED: &str =
    r#"{"carried":["0101010101010101010101010101010101010101010101010101010101010101","0202020202020202020202020202020202020202020202020202020202020202"],"components":[["sbat",1],["shim",4]],"digest":"aaaaaaaaaaaaaaaaaaaaaaaaaaaaaaaaaaaaaaaaaaaaaaaaaaaaaaaaaaaaaaaa","file":"ffffffffffffffffffffffffffffffffffffffffffffffffffffffffffffffff","gap":0,"length":1024,"number":1,"returned":"cccccccccccccccccccccccccccccccccccccccccccccccccccccccccccccccc","signing":"bbbbbbbbbbbbbbbbbbbbbbbbbbbbbbbbbbbbbbbbbbbbbbbbbbbbbbbbbbbbbbbb","state":"signed","submitter":"ann","title":" a \"b\" \\ ~","votes":[]}"#;

fn votes(alloc: Global) -> Result<ShownVotes, Fail> {
    let mut votes = Vec::new(alloc);
    votes.push(vote(alloc, "rita", Vote::Yes, "")?)?;
    votes.push(vote(alloc, "raul", Vote::No, r#"no "x" \ ~ "#)?)?;
    Ok(ShownVotes::new(votes))
}

fn open(alloc: Global) -> Result<ShownRequest, Fail> {
    let number = RequestNumber::new(999_999).ok_or("a number")?;
    request(alloc, number, State::Open, votes(alloc)?, None)
}

fn signed(alloc: Global) -> Result<ShownRequest, Fail> {
    let number = RequestNumber::new(1).ok_or("a number")?;
    let returned = ShownReturn {
        length: 2048,
        file: Digest::from([0xcc; 32]),
        digest: Digest::from([0xaa; 32]),
    };
    let none = ShownVotes::new(Vec::new(alloc));
    request(alloc, number, State::Signed, none, Some(returned))
}

/// Whether the request's text is this one.
fn is_request(alloc: Global, request: &ShownRequest, text: &str) -> Result<bool, Fail> {
    Ok(request_json(alloc, request)?.as_slice() == text.as_bytes())
}

/// Whether the text of a request with two votes is its own.
fn is_open(alloc: Global) -> Result<bool, Fail> {
    is_request(alloc, &open(alloc)?, OPEN)
}

/// Whether the text of a request with a return is its own.
fn is_signed(alloc: Global) -> Result<bool, Fail> {
    is_request(alloc, &signed(alloc)?, SIGNED)
}

#[test]
fn writes_a_request(rt: HostRuntime) -> Result<(), Fail> {
    assert!(rt; is_open(rt.alloc())?, "two votes");
    Ok(())
}

#[test]
fn writes_a_request_with_a_return(rt: HostRuntime) -> Result<(), Fail> {
    assert!(rt; is_signed(rt.alloc())?, "a return");
    Ok(())
}

/// The array of these requests, written one after another.
fn array_of(alloc: Global, requests: &[ShownRequest]) -> Result<Vec<u8>, Fail> {
    let mut text = RequestsText::new(alloc);
    for request in requests {
        text.push(request)?;
    }
    Ok(text.into_text()?)
}

/// The array of two requests.
fn array_of_two(alloc: Global) -> Result<Vec<u8>, Fail> {
    let mut two = Vec::new(alloc);
    two.push(open(alloc)?)?;
    two.push(signed(alloc)?)?;
    array_of(alloc, two.as_slice())
}

/// The text of that array.
fn text_of_two(alloc: Global) -> Result<String, Fail> {
    let mut text = String::new(alloc);
    for part in ["[", OPEN, ",", SIGNED, "]"] {
        text.push_str(part)?;
    }
    Ok(text)
}

/// Whether the array of two requests is its text.
fn is_text_of_two(alloc: Global) -> Result<bool, Fail> {
    let text = array_of_two(alloc)?;
    let wanted = text_of_two(alloc)?;
    Ok(text.as_slice() == wanted.as_bytes())
}

#[test]
fn writes_lists_of_requests(rt: HostRuntime) -> Result<(), Fail> {
    let none = array_of(rt.alloc(), &[])?;
    assert!(rt; none.as_slice() == b"[]".as_slice(), "none");
    assert!(rt; is_text_of_two(rt.alloc())?, "two requests");
    Ok(())
}

/// The array of this many requests whose signed files were returned.
fn many(alloc: Global, count: usize) -> Result<String, Fail> {
    let mut text = String::new(alloc);
    for index in 0..count {
        text.push_str(if index == 0 { "[" } else { "," })?;
        text.push_str(SIGNED)?;
    }
    text.push_str("]")?;
    Ok(text)
}

/// The array of so many times this request.
fn array_of_many(alloc: Global, request: &ShownRequest, count: usize) -> Result<Vec<u8>, Fail> {
    let mut text = RequestsText::new(alloc);
    for _ in 0..count {
        text.push(request)?;
    }
    Ok(text.into_text()?)
}

/// The array of this many requests whose signed files were returned.
fn array_of_signed(alloc: Global, count: usize) -> Result<Vec<u8>, Fail> {
    array_of_many(alloc, &signed(alloc)?, count)
}

/// Whether the array of this many requests is its text.
fn is_text_of_many(alloc: Global, count: usize) -> Result<bool, Fail> {
    let text = array_of_signed(alloc, count)?;
    let wanted = many(alloc, count)?;
    Ok(text.as_slice() == wanted.as_bytes())
}

#[test]
fn writes_hundreds_of_requests(rt: HostRuntime) -> Result<(), Fail> {
    assert!(rt; is_text_of_many(rt.alloc(), 300)?, "300 requests");
    Ok(())
}

/// Adds a proposal of that number and state.
fn put_proposal(
    alloc: Global,
    proposals: &mut Vec<Proposal>,
    number: u64,
    state: ProposalState,
) -> Result<(), Fail> {
    let digests = number;
    let number = ProposalNumber::new(number).ok_or("a number")?;
    let officer = PersonName::parse(alloc, b"olga")?;
    proposals.push(Proposal {
        number,
        officer,
        state,
        digests,
        certificates: 0,
        components: 1_000_000,
    })?;
    Ok(())
}

/// Three proposals.
const PROPOSALS: &str =
    r#"[{"certificates":0,"components":1000000,"digests":1,"number":1,"officer":"olga","state":"open"},{"certificates":0,"components":1000000,"digests":2,"number":2,"officer":"olga","state":"confirmed"},{"certificates":0,"components":1000000,"digests":999999,"number":999999,"officer":"olga","state":"dropped"}]"#;

/// Three proposals, one of each state.
fn proposals(alloc: Global) -> Result<Vec<Proposal>, Fail> {
    let mut proposals = Vec::new(alloc);
    put_proposal(alloc, &mut proposals, 1, ProposalState::Open)?;
    put_proposal(alloc, &mut proposals, 2, ProposalState::Confirmed)?;
    put_proposal(alloc, &mut proposals, 999_999, ProposalState::Dropped)?;
    Ok(proposals)
}

/// Whether the text of those proposals is their own.
fn are_proposals(alloc: Global) -> Result<bool, Fail> {
    let text = proposals_json(alloc, proposals(alloc)?.as_slice())?;
    Ok(text.as_slice() == PROPOSALS.as_bytes())
}

#[test]
fn writes_lists_of_proposals(rt: HostRuntime) -> Result<(), Fail> {
    let none = proposals_json(rt.alloc(), &[])?;
    assert!(rt; none.as_slice() == b"[]".as_slice(), "none");
    assert!(rt; are_proposals(rt.alloc())?, "each state");
    Ok(())
}

/// Whether the text of what waits is the signed request, twice, and those proposals.
fn is_waiting(alloc: Global) -> Result<bool, Fail> {
    let mut requests = RequestsText::new(alloc);
    let request = signed(alloc)?;
    requests.push(&request)?;
    requests.push(&request)?;
    let text = waiting_json(alloc, requests, proposals(alloc)?.as_slice())?;
    let wanted = format!(in alloc;
        "{{\"requests\":[{SIGNED},{SIGNED}],\"proposals\":{PROPOSALS}}}"
    )?;
    Ok(text.as_slice() == wanted.as_bytes())
}

#[test]
fn writes_what_waits(rt: HostRuntime) -> Result<(), Fail> {
    let nothing = b"{\"requests\":[],\"proposals\":[]}".as_slice();
    let none = waiting_json(rt.alloc(), RequestsText::new(rt.alloc()), &[])?;
    assert!(rt; none.as_slice() == nothing, "nothing");
    assert!(rt; is_waiting(rt.alloc())?, "requests and proposals");
    Ok(())
}

#[test]
fn writes_the_number_of_changes(rt: HostRuntime) -> Result<(), Fail> {
    let first = changes_json(rt.alloc(), 0)?;
    assert!(rt; first.as_slice() == b"{\"changes\":0}".as_slice(), "0");
    let last = changes_json(rt.alloc(), u64::MAX)?;
    let wanted = b"{\"changes\":18446744073709551615}".as_slice();
    assert!(rt; last.as_slice() == wanted, "the greatest");
    Ok(())
}

/// A proposal with all that it names, some of it twice.
const WHOLE: &str =
    r#"{"certificates":["cccccccccccccccccccccccccccccccccccccccccccccccccccccccccccccccc"],"components":[["shim",4],["grub",4294967295]],"digests":["bbbbbbbbbbbbbbbbbbbbbbbbbbbbbbbbbbbbbbbbbbbbbbbbbbbbbbbbbbbbbbbb","aaaaaaaaaaaaaaaaaaaaaaaaaaaaaaaaaaaaaaaaaaaaaaaaaaaaaaaaaaaaaaaa","bbbbbbbbbbbbbbbbbbbbbbbbbbbbbbbbbbbbbbbbbbbbbbbbbbbbbbbbbbbbbbbb"],"kind":"import","number":999999,"officer":"olga","passed":7,"stamp":2024010100,"state":"dropped","tag":"d1980952fd1b89edf22d7644c21b2715aaa789024484cdd1c0d72e776cc1e672"}"#;

/// Three digests, of which two are the same.
fn digests(alloc: Global) -> Result<Digests, Fail> {
    let mut digests = Vec::new(alloc);
    digests.push(Digest::from([0xbb; 32]))?;
    digests.push(Digest::from([0xaa; 32]))?;
    digests.push(Digest::from([0xbb; 32]))?;
    Ok(Digests::new(digests).ok_or("digests")?)
}

/// One certificate.
fn certificates(alloc: Global) -> Result<Digests, Fail> {
    let mut digests = Vec::new(alloc);
    digests.push(Digest::from([0xcc; 32]))?;
    Ok(Digests::new(digests).ok_or("certificates")?)
}

/// Two components.
fn raised(alloc: Global) -> Result<ImportedComponents, Fail> {
    let mut components = Vec::new(alloc);
    components.push(component(alloc, "shim", 4)?)?;
    components.push(component(alloc, "grub", u32::MAX)?)?;
    Ok(ImportedComponents::new(components).ok_or("components")?)
}

/// An import of them all.
fn import(alloc: Global) -> Result<Import, Fail> {
    let stamp = Stamp::new(2_024_010_100);
    let digests = digests(alloc)?;
    let certificates = certificates(alloc)?;
    let components = raised(alloc)?;
    Ok(Import::new(stamp, 7, digests, certificates, components).ok_or("an import")?)
}

/// The proposal of that import.
fn whole(alloc: Global) -> Result<ProposalRow, Fail> {
    let number = ProposalNumber::new(999_999).ok_or("a number")?;
    let named = import(alloc)?;
    let officer = PersonName::parse(alloc, b"olga")?;
    Ok(ProposalRow {
        number,
        officer,
        kind: ProposalKind::Import,
        named,
        state: ProposalState::Dropped,
    })
}

/// Whether the text of that proposal is its own.
fn is_whole(alloc: Global) -> Result<bool, Fail> {
    let text = proposal_json(alloc, &whole(alloc)?)?;
    Ok(text.as_slice() == WHOLE.as_bytes())
}

#[test]
fn writes_a_whole_proposal(rt: HostRuntime) -> Result<(), Fail> {
    assert!(rt; is_whole(rt.alloc())?, "an import");
    Ok(())
}

/// An impact with an image for each rule.
const IMPACT: &str =
    r#"{"adds":{"certificates":2,"components":3,"digests":1},"bars":[{"allowed":true,"by":{"verdict":"dbx-digest"},"file":"submitted","request":1,"state":"open","submitter":"ann","title":" a \"b\" \\ ~"},{"allowed":false,"by":{"verdict":"dbx-certificate"},"file":"returned","request":1,"state":"signed","submitter":"ann","title":" a \"b\" \\ ~"},{"allowed":false,"by":{"component":"shim","generation":4,"level":5,"verdict":"sbat"},"file":"submitted","request":999999,"state":"withdrawn","submitter":"ann","title":" a \"b\" \\ ~"}],"dbx":18446744073709551615,"proposal":999999}"#;

/// An impact without an image.
const NO_IMPACT: &str =
    r#"{"adds":{"certificates":0,"components":0,"digests":0},"bars":[],"dbx":0,"proposal":1}"#;

/// An image of ann's that this rule would bar.
fn barred(
    alloc: Global,
    number: u64,
    file: WhichFile,
    state: State,
    rule: Rule,
) -> Result<BarredImage, Fail> {
    let is_allowed = matches!(rule, Rule::Digest);
    Ok(BarredImage {
        request: RequestNumber::new(number).ok_or("a number")?,
        file,
        state,
        submitter: PersonName::parse(alloc, b"ann")?,
        title: Title::parse(alloc, br#" a "b" \ ~"#)?,
        is_allowed,
        rule,
    })
}

/// An image for each rule.
fn bars(alloc: Global) -> Result<Vec<BarredImage>, Fail> {
    let needed = Generation::new(5).ok_or("a generation")?;
    let below = Rule::Component(component(alloc, "shim", 4)?, needed);
    let mut bars = Vec::new(alloc);
    bars.push(barred(alloc, 1, WhichFile::Submitted, State::Open, Rule::Digest)?)?;
    bars.push(barred(
        alloc,
        1,
        WhichFile::Returned,
        State::Signed,
        Rule::Certificate,
    )?)?;
    bars.push(barred(
        alloc,
        999_999,
        WhichFile::Submitted,
        State::Withdrawn,
        below,
    )?)?;
    Ok(bars)
}

/// The impact with these images, of so many digests, certificates and components.
fn impact(bars: Vec<BarredImage>, added: [u64; 3], dbx: u64) -> ShownImpact {
    let [digests, certificates, components] = added;
    let passed = 9;
    ShownImpact {
        bars,
        adds: Counts {
            digests,
            certificates,
            components,
            passed,
        },
        dbx,
    }
}

/// Whether the impact of the proposal of this number is the text.
fn is_impact(alloc: Global, number: u64, shown: &ShownImpact, text: &str) -> Result<bool, Fail> {
    let number = ProposalNumber::new(number).ok_or("a number")?;
    Ok(impact_json(alloc, number, shown)?.as_slice() == text.as_bytes())
}

/// Whether the text of an impact with an image for each rule is its own.
fn is_impact_of_each(alloc: Global) -> Result<bool, Fail> {
    let shown = impact(bars(alloc)?, [1, 2, 3], u64::MAX);
    is_impact(alloc, 999_999, &shown, IMPACT)
}

/// Whether the text of an impact without an image is its own.
fn is_impact_of_none(alloc: Global) -> Result<bool, Fail> {
    let shown = impact(Vec::new(alloc), [0, 0, 0], 0);
    is_impact(alloc, 1, &shown, NO_IMPACT)
}

#[test]
fn writes_an_impact(rt: HostRuntime) -> Result<(), Fail> {
    assert!(rt; is_impact_of_each(rt.alloc())?, "each rule");
    assert!(rt; is_impact_of_none(rt.alloc())?, "no image");
    Ok(())
}

/// A person of each role.
const PEOPLE: &str =
    r#"[{"name":"ann","role":"submitter"},{"name":"otto","role":"officer"},{"name":"rita","role":"reviewer"},{"name":"sid","role":"signer"}]"#;

/// Adds a person of this name and role.
fn put_person(
    alloc: Global,
    people: &mut Vec<ShownPerson>,
    name: &str,
    role: Role,
) -> Result<(), Fail> {
    let name = PersonName::parse(alloc, name.as_bytes())?;
    people.push(ShownPerson { name, role })?;
    Ok(())
}

/// A person of each role.
fn people(alloc: Global) -> Result<Vec<ShownPerson>, Fail> {
    let mut people = Vec::new(alloc);
    put_person(alloc, &mut people, "ann", Role::Submitter)?;
    put_person(alloc, &mut people, "otto", Role::Officer)?;
    put_person(alloc, &mut people, "rita", Role::Reviewer)?;
    put_person(alloc, &mut people, "sid", Role::Signer)?;
    Ok(people)
}

/// Whether the text of those people is their own.
fn are_people(alloc: Global) -> Result<bool, Fail> {
    let text = people_json(alloc, people(alloc)?.as_slice())?;
    Ok(text.as_slice() == PEOPLE.as_bytes())
}

/// Whether the text of a person is that person's own.
fn is_person(alloc: Global) -> Result<bool, Fail> {
    let name = PersonName::parse(alloc, b"sid")?;
    let role = Role::Signer;
    let text = person_json(alloc, &ShownPerson { name, role })?;
    Ok(text.as_slice() == br#"{"name":"sid","role":"signer"}"#.as_slice())
}

#[test]
fn writes_people(rt: HostRuntime) -> Result<(), Fail> {
    let none = people_json(rt.alloc(), &[])?;
    assert!(rt; none.as_slice() == b"[]".as_slice(), "none");
    assert!(rt; are_people(rt.alloc())?, "each role");
    assert!(rt; is_person(rt.alloc())?, "one");
    Ok(())
}

/// The facts of an image with two certificates and two components.
const FACTS: &str =
    r#"{"carried":["0101010101010101010101010101010101010101010101010101010101010101","0202020202020202020202020202020202020202020202020202020202020202"],"components":[["sbat",1],["shim",4]],"digest":"aaaaaaaaaaaaaaaaaaaaaaaaaaaaaaaaaaaaaaaaaaaaaaaaaaaaaaaaaaaaaaaa","file":"ffffffffffffffffffffffffffffffffffffffffffffffffffffffffffffffff","gap":0,"length":1024,"signing":"bbbbbbbbbbbbbbbbbbbbbbbbbbbbbbbbbbbbbbbbbbbbbbbbbbbbbbbbbbbbbbbb"}"#;

/// Whether the text of the image's facts is their own.
fn are_facts(alloc: Global) -> Result<bool, Fail> {
    let text = facts_json(alloc, &facts(alloc)?)?;
    Ok(text.as_slice() == FACTS.as_bytes())
}

#[test]
fn writes_facts(rt: HostRuntime) -> Result<(), Fail> {
    assert!(rt; are_facts(rt.alloc())?, "with certificates and components");
    Ok(())
}

/// Replies, each after its name.
const REPLIES: &str = r#"submitted {"reply":"submitted","request":7}
reviewed {"reply":"reviewed","request":7,"state":"approved"}
withdrawn {"reply":"withdrawn","request":7}
returned {"reply":"returned","request":7}
listed {"reply":"listed"}
unlisted {"reply":"unlisted"}
revoked {"reply":"revoked"}
raised {"reply":"raised"}
imported {"certificates":2,"components":3,"digests":1,"passed":18446744073709551615,"reply":"imported"}
proposed {"proposal":9,"reply":"proposed"}
confirmed {"certificates":2,"components":3,"digests":1,"passed":18446744073709551615,"proposal":9,"reply":"confirmed"}
dropped {"proposal":9,"reply":"dropped"}
explained {"proposal":9,"reply":"explained"}
"#;

/// The reply of this name.
fn reply(name: &str, request: RequestNumber, proposal: ProposalNumber) -> Reply {
    let counts = Counts {
        digests: 1,
        certificates: 2,
        components: 3,
        passed: u64::MAX,
    };
    let state = State::Approved;
    match name {
        "submitted" => Reply::Submitted(request),
        "reviewed" => Reply::Reviewed(Outcome { request, state }),
        "withdrawn" => Reply::Withdrawn(request),
        "returned" => Reply::Returned(request),
        "listed" => Reply::Listed,
        "unlisted" => Reply::Unlisted,
        "revoked" => Reply::Revoked,
        "raised" => Reply::Raised,
        "proposed" => Reply::Proposed(proposal),
        "confirmed" => Reply::Confirmed(Confirmation { proposal, counts }),
        "dropped" => Reply::Dropped(proposal),
        "explained" => Reply::Explained(proposal),
        _ => Reply::Imported(counts),
    }
}

/// Whether the reply that the line names is its text.
fn is_reply(alloc: Global, line: &str) -> Result<bool, Fail> {
    let (name, wanted) = line.split_once(' ').ok_or("a name and a text")?;
    let request = RequestNumber::new(7).ok_or("a number")?;
    let proposal = ProposalNumber::new(9).ok_or("a number")?;
    let text = reply_json(alloc, &reply(name, request, proposal))?.ok_or("a text")?;
    Ok(text.as_slice() == wanted.as_bytes())
}

#[test]
fn writes_replies(rt: HostRuntime) -> Result<(), Fail> {
    for line in REPLIES.lines() {
        assert!(rt; is_reply(rt.alloc(), line)?, "{line}");
    }
    let added = Reply::Added(PersonName::parse(rt.alloc(), b"ann")?);
    assert!(rt;
        reply_json(rt.alloc(), &added)?.is_none(),
        "a person who was added"
    );
    Ok(())
}

/// Verdicts, each after its name.
const VERDICTS: &str = r#"digest {"verdict":"dbx-digest"}
certificate {"verdict":"dbx-certificate"}
listed {"verdict":"not-listed"}
sbat {"component":"shim","generation":4,"level":5,"verdict":"sbat"}
allowed {"verdict":"allowed"}
"#;

/// The verdict of this name.
fn verdict(name: &str, needs: Generation) -> Verdict {
    match name {
        "digest" => Verdict::DbxDigest,
        "certificate" => Verdict::DbxCertificate,
        "listed" => Verdict::NotListed,
        "sbat" => Verdict::Sbat(Below { place: 1, needs }),
        _ => Verdict::Allowed,
    }
}

/// Whether the verdict that the line names is its text.
fn is_verdict(alloc: Global, facts: &Facts, line: &str) -> Result<bool, Fail> {
    let (name, wanted) = line.split_once(' ').ok_or("a name and a text")?;
    let needs = Generation::new(5).ok_or("a generation")?;
    let text = verdict_json(alloc, verdict(name, needs), facts)?.ok_or("a text")?;
    Ok(text.as_slice() == wanted.as_bytes())
}

#[test]
fn writes_verdicts(rt: HostRuntime) -> Result<(), Fail> {
    let facts = facts(rt.alloc())?;
    for line in VERDICTS.lines() {
        assert!(rt; is_verdict(rt.alloc(), &facts, line)?, "{line}");
    }
    Ok(())
}
