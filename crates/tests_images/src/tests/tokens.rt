//! Tokens of people.
use super::{Call, check};
use base::InputFault;
use desk_inputs::{read_token, read_token_digest};
use std::alloc::Global;
use std::fmt::Write;
use std::test::Fail;
use testing::Slow;

/// Inputs in hexadecimal, and the SHA-256 that is kept of the token in them, by Python's hashlib.
/// The words before each name it.
const TOKENS: &str = "\
a line and more: 6f6c67612d746f6b656e2d3030303030310a6261640a = 6f1f158a7ab1c4fa1a119ba501e4f7131e1c4b6d96b8c75661ef487f20dc81f1
CR and LF: 6f6c67612d746f6b656e2d3030303030310d0a = 6f1f158a7ab1c4fa1a119ba501e4f7131e1c4b6d96b8c75661ef487f20dc81f1
no LF: 6f6c67612d746f6b656e2d303030303031 = 6f1f158a7ab1c4fa1a119ba501e4f7131e1c4b6d96b8c75661ef487f20dc81f1
no LF behind a CR: 6f6c67612d746f6b656e2d3030303030310d = none
two CR: 6f6c67612d746f6b656e2d3030303030310d0d0a = none
nothing:  = none
an empty line first: 0a6f6c67612d746f6b656e2d3030303030310a = none
15 bytes: 6f6c67612d746f6b656e2d303030300a = none
16 bytes: 6f6c67612d746f6b656e2d30303030300a = b8060fcb5e25247070c4b7b0d2c3845ac1c6fb044795f77af8919a73394dd54c
128 bytes: 7e7e7e7e7e7e7e7e7e7e7e7e7e7e7e7e7e7e7e7e7e7e7e7e7e7e7e7e7e7e7e7e7e7e7e7e7e7e7e7e7e7e7e7e7e7e7e7e7e7e7e7e7e7e7e7e7e7e7e7e7e7e7e7e7e7e7e7e7e7e7e7e7e7e7e7e7e7e7e7e7e7e7e7e7e7e7e7e7e7e7e7e7e7e7e7e7e7e7e7e7e7e7e7e7e7e7e7e7e7e7e7e7e7e7e7e7e7e7e7e7e7e7e7e7e7e7e7e0d0a = ccd84e9b9272a277a771aedb433ce98d4a7014356b7e1adb6ce182aa0580e875
129 bytes: 7e7e7e7e7e7e7e7e7e7e7e7e7e7e7e7e7e7e7e7e7e7e7e7e7e7e7e7e7e7e7e7e7e7e7e7e7e7e7e7e7e7e7e7e7e7e7e7e7e7e7e7e7e7e7e7e7e7e7e7e7e7e7e7e7e7e7e7e7e7e7e7e7e7e7e7e7e7e7e7e7e7e7e7e7e7e7e7e7e7e7e7e7e7e7e7e7e7e7e7e7e7e7e7e7e7e7e7e7e7e7e7e7e7e7e7e7e7e7e7e7e7e7e7e7e7e7e7e7e0a = none
130 bytes: 7e7e7e7e7e7e7e7e7e7e7e7e7e7e7e7e7e7e7e7e7e7e7e7e7e7e7e7e7e7e7e7e7e7e7e7e7e7e7e7e7e7e7e7e7e7e7e7e7e7e7e7e7e7e7e7e7e7e7e7e7e7e7e7e7e7e7e7e7e7e7e7e7e7e7e7e7e7e7e7e7e7e7e7e7e7e7e7e7e7e7e7e7e7e7e7e7e7e7e7e7e7e7e7e7e7e7e7e7e7e7e7e7e7e7e7e7e7e7e7e7e7e7e7e7e7e7e7e7e7e0a = TooLong
a space: 6f6c676120746f6b656e203030303030310a = none
a byte above 0x7E: 6f6c67612d746f6b656e2d30303030307f0a = none
";

/// Appends the SHA-256 that is kept of the token in an input.
pub fn of_token(alloc: Global, told: &mut String, input: &str) -> Result<(), Fail> {
    let (_, digits) = input.split_once(": ").ok_or("no name")?;
    let bytes = hex::decode(alloc, digits)?;
    match read_token(alloc, &mut bytes.as_slice()) {
        Ok(Some(token)) => write!(told, "{token}")?,
        Ok(None) => told.push_str("none")?,
        Err(fault) => told.push_str(fault.refusal().name())?,
    }
    Ok(())
}

#[test]
fn reads_the_token_in_the_first_line(rt: HostRuntime) -> Result<(), Fail> {
    check(&rt, rt.alloc(), Call::Token, TOKENS)
}

/// Inputs in hexadecimal, and the SHA-256 that they give, `aa` 32 times. The words before each name
/// it.
const GIVEN: &str = "\
alone: D = aa
no LF: E = aa
CR and LF: C = aa
as sha256sum writes it: S = aa
a long name: L = aa
63 digits: F = none
65 digits: G = none
66 digits: H = TooLong
a tab: T = TooLong
a space first: P = none
nothing: N = none
";

/// That input.
fn given_input<'a>(letter: &str) -> Option<&'a str> {
    match letter {
        "D" => Some("AaAaAaAaAaAaAaAaAaAaAaAaAaAaAaAaAaAaAaAaAaAaAaAaAaAaAaAaAaAaAaAa\nbad\n"),
        "E" => Some("aaaaaaaaaaaaaaaaaaaaaaaaaaaaaaaaaaaaaaaaaaaaaaaaaaaaaaaaaaaaaaaa"),
        "C" => Some("aaaaaaaaaaaaaaaaaaaaaaaaaaaaaaaaaaaaaaaaaaaaaaaaaaaaaaaaaaaaaaaa\r\n"),
        "S" => Some("aaaaaaaaaaaaaaaaaaaaaaaaaaaaaaaaaaaaaaaaaaaaaaaaaaaaaaaaaaaaaaaa  -\n"),
        "L" => Some(
            "aaaaaaaaaaaaaaaaaaaaaaaaaaaaaaaaaaaaaaaaaaaaaaaaaaaaaaaaaaaaaaaa  /home/olga/\
             a/path/of/more/bytes/than/any/token/may/have/with/its/line/end/0123456789/token\n",
        ),
        "F" => Some("aaaaaaaaaaaaaaaaaaaaaaaaaaaaaaaaaaaaaaaaaaaaaaaaaaaaaaaaaaaaaaa\n"),
        "G" => Some("aaaaaaaaaaaaaaaaaaaaaaaaaaaaaaaaaaaaaaaaaaaaaaaaaaaaaaaaaaaaaaaaa\n"),
        "H" => Some("aaaaaaaaaaaaaaaaaaaaaaaaaaaaaaaaaaaaaaaaaaaaaaaaaaaaaaaaaaaaaaaaaa\n"),
        "T" => Some("aaaaaaaaaaaaaaaaaaaaaaaaaaaaaaaaaaaaaaaaaaaaaaaaaaaaaaaaaaaaaaaa\t-\n"),
        "P" => Some(" aaaaaaaaaaaaaaaaaaaaaaaaaaaaaaaaaaaaaaaaaaaaaaaaaaaaaaaaaaaaaaaa\n"),
        "N" => Some(""),
        _ => None,
    }
}

/// Appends the SHA-256 of a token that an input gives, by its first two digits.
pub fn of_given(alloc: Global, told: &mut String, input: &str) -> Result<(), Fail> {
    let (_, letter) = input.split_once(": ").ok_or("no name")?;
    let mut bytes = given_input(letter).ok_or("no input")?.as_bytes();
    match read_token_digest(alloc, &mut bytes) {
        Ok(Some(token)) => {
            if token.as_bytes().iter().any(|byte| *byte != 0xaa) {
                return Ok(told.push_str("another")?);
            }
            told.push_str("aa")?;
        }
        Ok(None) => told.push_str("none")?,
        Err(fault) => told.push_str(fault.refusal().name())?,
    }
    Ok(())
}

#[test]
fn reads_the_sha256_that_the_first_line_gives(rt: HostRuntime) -> Result<(), Fail> {
    check(&rt, rt.alloc(), Call::Given, GIVEN)
}

#[test]
fn takes_the_first_line_and_no_byte_behind_it(rt: HostRuntime) -> Result<(), Fail> {
    let mut reader = Slow {
        rest: b"olga-token-000001\nsid",
        most: 50,
        calls: 0,
        fails_at: 0,
    };
    assert!(rt; read_token(rt.alloc(), &mut reader)?.is_some());
    assert!(rt; reader.rest == b"sid".as_slice());
    Ok(())
}

#[test]
fn tells_of_a_read_that_fails(rt: HostRuntime) {
    for fails_at in 1..18 {
        let mut reader = Slow {
            rest: b"olga-token-000001\n",
            most: 1,
            calls: 0,
            fails_at,
        };
        assert!(rt; read_token(rt.alloc(), &mut reader) == Err(InputFault::Read));
    }
}
