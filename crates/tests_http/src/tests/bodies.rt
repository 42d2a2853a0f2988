//! JSON bodies.
use base::Digest;
use desk_types::{Ballot, Explanation, ListedKind, ProposalNumber, RequestNumber, Vote};
use http_requests::{
    BodyFault, read_digest, read_explanation, read_level, read_review, read_unlist,
};
use std::alloc::{AllocError, Global};

/// Bodies, each after its reader's name and the outcome.
const BODIES: &str = r#"review Ok {"note":"","vote":"yes"}
review Ok {"vote":"no","note":"no \"b\" \u0041"}
review Ok { "note" : "a" , "vote" : "no" }
review Ok {"note":"a","note":"b","vote":"no"}
review BadBody {"note":"a","vote":"no","x":1}
review BadBody {"note":"a","vote":"no"}x
review BadBody {"note":"a","vote":"No"}
review BadBody {"note":"a","vote":true}
review BadBody {"note":"a"}
review BadBody {"vote":"yes"}
review BadBody {"Note":"a","vote":"no"}
review BadBody {"note":"a\n","vote":"no"}
review BadBody {"note":"é","vote":"no"}
review BadBody {"note":null,"vote":"no"}
review BadBody ["a","no"]
review BadBody {"note":"a","vote":"no",}
review BadBody {'note':'a','vote':'no'}
digest Ok {"digest":"AAaaaaaaaaaaaaaaaaaaaaaaaaaaaaaaaaaaaaaaaaaaaaaaaaaaaaaaaaaaaaaa"}
digest BadBody {"digest":"aaaaaaaaaaaaaaaaaaaaaaaaaaaaaaaaaaaaaaaaaaaaaaaaaaaaaaaaaaaaaaa"}
digest BadBody {"digest":"gaaaaaaaaaaaaaaaaaaaaaaaaaaaaaaaaaaaaaaaaaaaaaaaaaaaaaaaaaaaaaaa"}
digest BadBody {"Digest":"aaaaaaaaaaaaaaaaaaaaaaaaaaaaaaaaaaaaaaaaaaaaaaaaaaaaaaaaaaaaaaaa"}
digest BadBody {"digest":"aaaaaaaaaaaaaaaaaaaaaaaaaaaaaaaaaaaaaaaaaaaaaaaaaaaaaaaaaaaaaaaa","kind":"digest"}
digest BadBody {"digest":170}
digest BadBody {}
digest BadBody "aaaaaaaaaaaaaaaaaaaaaaaaaaaaaaaaaaaaaaaaaaaaaaaaaaaaaaaaaaaaaaaa"
unlist Ok {"digest":"aaaaaaaaaaaaaaaaaaaaaaaaaaaaaaaaaaaaaaaaaaaaaaaaaaaaaaaaaaaaaaaa","kind":"digest"}
unlist Ok {"kind":"certificate","digest":"aaaaaaaaaaaaaaaaaaaaaaaaaaaaaaaaaaaaaaaaaaaaaaaaaaaaaaaaaaaaaaaa"}
unlist BadBody {"digest":"aaaaaaaaaaaaaaaaaaaaaaaaaaaaaaaaaaaaaaaaaaaaaaaaaaaaaaaaaaaaaaaa","kind":"hash"}
unlist BadBody {"digest":"aa","kind":"digest"}
unlist BadBody {"digest":"aaaaaaaaaaaaaaaaaaaaaaaaaaaaaaaaaaaaaaaaaaaaaaaaaaaaaaaaaaaaaaaa"}
level Ok {"component":"grub","generation":4294967295,"stamp":2024010100}
level BadBody {"component":"grub","generation":4294967296,"stamp":2024010100}
level BadBody {"component":"grub","generation":0,"stamp":2024010100}
level BadBody {"component":"grub","generation":1e3,"stamp":2024010100}
level BadBody {"component":"grub","generation":3.0,"stamp":2024010100}
level BadBody {"component":"grub","generation":03,"stamp":2024010100}
level BadBody {"component":"grub","generation":+3,"stamp":2024010100}
level BadBody {"component":"grub","generation":3,"stamp":-0}
level BadBody {"component":"grub","generation":-3,"stamp":2024010100}
level BadBody {"component":"grub","generation":"3","stamp":2024010100}
level BadBody {"component":"grub","generation":3,"stamp":999999999}
level BadBody {"component":"grub","generation":3,"stamp":10000000000}
level BadBody {"component":"grub","generation":3,"stamp":18446744073709551616}
level BadBody {"component":"a,b","generation":3,"stamp":2024010100}
level BadBody {"component":"","generation":3,"stamp":2024010100}
level BadBody {"component":"grub","generation":3}
level BadBody {"component":"grub","generation":3,"stamp":2024010100,"why":""}
explanation Ok {"text":"key of 2023 \u0041"}
explanation Ok {"text":"a","text":"b"}
explanation BadBody {"text":""}
explanation BadBody {"text":" lost"}
explanation BadBody {"text":"lost "}
explanation BadBody {"text":" "}
explanation BadBody {"text":"lost\n"}
explanation BadBody {"text":"é"}
explanation BadBody {"text":1}
explanation BadBody {"reason":"lost"}
explanation BadBody {"text":"lost","why":""}
explanation BadBody {}
explanation BadBody "lost"
"#;

/// The review of the first request in a body.
fn review(alloc: Global, body: &[u8]) -> Option<Result<Ballot, BodyFault>> {
    Some(read_review(alloc, RequestNumber::new(1)?, body))
}

/// The explanation of the first proposal in a body.
fn explanation(alloc: Global, body: &[u8]) -> Option<Result<Explanation, BodyFault>> {
    Some(read_explanation(alloc, ProposalNumber::new(1)?, body))
}

/// The outcome of the reader of this name: the name of the refusal, or `Ok`.
fn outcome(alloc: Global, reader: &str, body: &[u8]) -> &'static str {
    let fault = match reader {
        "review" => match review(alloc, body) {
            Some(read) => read.err(),
            None => return "no number",
        },
        "explanation" => match explanation(alloc, body) {
            Some(read) => read.err(),
            None => return "no number",
        },
        "digest" => read_digest(alloc, body).err(),
        "unlist" => read_unlist(alloc, body).err(),
        _ => read_level(alloc, body).err(),
    };
    match fault {
        Some(fault) => fault.refusal().name(),
        None => "Ok",
    }
}

/// Whether the line's body has the outcome that the line names.
fn is_told(alloc: Global, line: &str) -> Option<bool> {
    let (reader, case) = line.split_once(' ')?;
    let (name, body) = case.split_once(' ')?;
    Some(outcome(alloc, reader, body.as_bytes()) == name)
}

#[test]
fn takes_the_object_that_is_asked_for_alone(rt: HostRuntime) {
    for line in BODIES.lines() {
        assert!(rt; is_told(rt.alloc(), line) == Some(true), "{line}");
    }
    let no_text = b"{\"note\":\"\xff\",\"vote\":\"no\"}";
    assert!(rt;
        outcome(rt.alloc(), "review", no_text) == "BadBody",
        "no UTF-8"
    );
    let marked = b"\xef\xbb\xbf{\"note\":\"\",\"vote\":\"no\"}";
    assert!(rt;
        outcome(rt.alloc(), "review", marked) == "BadBody",
        "a byte order mark"
    );
}

/// Whether the last note of a review and its vote are read.
fn gives_a_review(alloc: Global) -> Option<bool> {
    let text = br#"{"note":"a","vote":"no","note":"b c"}"#;
    let review = review(alloc, text)?.ok()?;
    let is_first = Some(review.request) == RequestNumber::new(1);
    Some(is_first && review.note.as_str() == "b c" && review.vote == Vote::No)
}

/// Whether the digest and the kind of an entry are read.
fn gives_an_entry(alloc: Global) -> Option<bool> {
    let text =
        b"{\"kind\":\"certificate\",\"digest\":\"00AAaaaaaaaaaaaaaaaaaaaaaaaaaaaaaaaaaaaaaaaaaaaaaaaaaaaaaaaaaaaa\"}";
    let unlist = read_unlist(alloc, text).ok()?;
    let mut digest = [0xaa; 32];
    digest[0] = 0;
    Some(unlist.kind == ListedKind::Certificate && unlist.digest == Digest::from(digest))
}

/// Whether the digest of an entry is read by itself.
fn gives_a_digest(alloc: Global) -> Option<bool> {
    let text = br#"{"digest":"aaaaaaaaaaaaaaaaaaaaaaaaaaaaaaaaaaaaaaaaaaaaaaaaaaaaaaaaaaaaaaaa"}"#;
    Some(read_digest(alloc, text).ok()? == Digest::from([0xaa; 32]))
}

/// Whether the component, its generation and the stamp of a level are read.
fn gives_a_level(alloc: Global) -> Option<bool> {
    let text = br#"{"component":"grub","generation":3,"stamp":2024010100}"#;
    let raise = read_level(alloc, text).ok()?;
    let component = &raise.component;
    let is_component = component.name.as_str() == "grub" && component.generation.value() == 3;
    Some(is_component && raise.stamp.value() == 2_024_010_100)
}

/// Whether the proposal and the last reason of an explanation are read.
fn gives_an_explanation(alloc: Global) -> Option<bool> {
    let text = br#"{"text":"a","text":"b c"}"#;
    let explanation = explanation(alloc, text)?.ok()?;
    let is_first = Some(explanation.proposal) == ProposalNumber::new(1);
    Some(is_first && explanation.reason.as_str() == "b c")
}

/// The outcome of a reader of a body that has a text of this many bytes between these.
fn outcome_between(
    alloc: Global,
    reader: &str,
    ends: (&[u8], &[u8]),
    length: usize,
) -> Result<&'static str, AllocError> {
    let mut body = Vec::new(alloc);
    body.extend_from_slice(ends.0)?;
    for _ in 0..length {
        body.push(b'n')?;
    }
    body.extend_from_slice(ends.1)?;
    Ok(outcome(alloc, reader, body.as_slice()))
}

/// The refusal of a body for a component whose name has this many bytes, or `Ok`.
fn outcome_of_name(alloc: Global, length: usize) -> Result<&'static str, AllocError> {
    let ends = (
        br#"{"component":""#.as_slice(),
        br#"","generation":3,"stamp":2024010100}"#.as_slice(),
    );
    outcome_between(alloc, "level", ends, length)
}

/// The refusal of a body with a reason of this many bytes, or `Ok`.
fn outcome_of_reason(alloc: Global, length: usize) -> Result<&'static str, AllocError> {
    let ends = (br#"{"text":""#.as_slice(), br#""}"#.as_slice());
    outcome_between(alloc, "explanation", ends, length)
}

#[test]
fn takes_the_longest_names(rt: HostRuntime) {
    assert!(rt; outcome_of_name(rt.alloc(), 128) == Ok("Ok"), "128 bytes");
    assert!(rt;
        outcome_of_name(rt.alloc(), 129) == Ok("BadBody"),
        "129 bytes"
    );
}

#[test]
fn takes_the_longest_reasons(rt: HostRuntime) {
    assert!(rt; outcome_of_reason(rt.alloc(), 200) == Ok("Ok"), "200 bytes");
    assert!(rt;
        outcome_of_reason(rt.alloc(), 201) == Ok("BadBody"),
        "201 bytes"
    );
}

#[test]
fn gives_the_parts_of_bodies(rt: HostRuntime) {
    assert!(rt; gives_a_review(rt.alloc()) == Some(true), "a review");
    assert!(rt; gives_an_entry(rt.alloc()) == Some(true), "an entry");
    assert!(rt; gives_a_digest(rt.alloc()) == Some(true), "a digest");
    assert!(rt; gives_a_level(rt.alloc()) == Some(true), "a level");
    assert!(rt;
        gives_an_explanation(rt.alloc()) == Some(true),
        "an explanation"
    );
}
