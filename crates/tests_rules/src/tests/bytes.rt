//! Lines, GUIDs, digests and DER elements.
use super::inputs::unbarred;
use super::{Call, check, narrow, refuse, tell_hex};
use base::{Digest, Element, Guid, InputFault, WriteFailed, element, parted, put, read_all, tbs};
use std::alloc::Global;
use std::fmt::Write;
use std::str;
use std::test::Fail;
use testing::Slow;

const LINES: &str = " = nothing
||\r| = nothing
one\r||two\r\r|three\r = 1 one;3 two\r;4 three\r;
a|\0b = 1 a;2 \0b;
";

/// Appends the number and the bytes of each line.
pub fn of_lines(alloc: Global, told: &mut String, input: &str) -> Result<(), Fail> {
    let bytes = unbarred(alloc, input)?;
    for line in parted(&bytes) {
        tell_line(told, line.number, line.text)?;
    }
    Ok(())
}

/// Appends a line's number and bytes.
fn tell_line(told: &mut String, number: u64, line: &[u8]) -> Result<(), Fail> {
    let text = str::from_utf8(line)?;
    write!(told, "{number} {text};")?;
    Ok(())
}

#[test]
fn numbers_the_lines_of_a_text(rt: HostRuntime) -> Result<(), Fail> {
    check(&rt, rt.alloc(), Call::Lines, LINES)
}

const GUIDS: &str = "\
c1c41626-504c-4092-aca9-41f936934328 = 2616c4c14c509240aca941f936934328 c1c41626-504c-4092-aca9-41f936934328
C1C41626-504C-4092-ACA9-41F936934328 = 2616c4c14c509240aca941f936934328 c1c41626-504c-4092-aca9-41f936934328
c1c41626-504c-4092-aca9-41f93693432 = no GUID
c1c41626-504c-4092-aca9-41f93693432g = no GUID
c1c41626x504c-4092-aca9-41f936934328 = no GUID
+1c41626-504c-4092-aca9-41f936934328 = no GUID
{c1c41626-504c-4092-aca9-41f93693432} = no GUID
";

/// Appends the bytes and the text of a GUID.
pub fn of_guid(alloc: Global, told: &mut String, input: &str) -> Result<(), Fail> {
    let Ok(guid) = Guid::parse(input) else {
        told.push_str("no GUID")?;
        return Ok(());
    };
    tell_hex(alloc, told, guid.as_bytes())?;
    told.push(' ')?;
    told.push_str(guid.text(alloc)?.as_str())?;
    Ok(())
}

#[test]
fn reads_and_writes_a_guid(rt: HostRuntime) -> Result<(), Fail> {
    check(&rt, rt.alloc(), Call::Guid, GUIDS)
}

const DIGESTS: &str = "\
00112233445566778899aAbBcCdDeEfF00112233445566778899AABBCCDDEEFF = \
00112233445566778899aabbccddeeff00112233445566778899aabbccddeeff
00112233445566778899aabbccddeeff00112233445566778899aabbccddeef = no digest
00112233445566778899aabbccddeeff00112233445566778899aabbccddeefff = no digest
00112233445566778899aabbccddeeff00112233445566778899aabbccddeefg = no digest
";

/// Appends the text of a digest.
pub fn of_digest(told: &mut String, input: &str) -> Result<(), Fail> {
    match Digest::parse(input.as_bytes()) {
        Ok(digest) => write!(told, "{digest}")?,
        Err(_) => told.push_str("no digest")?,
    }
    Ok(())
}

#[test]
fn reads_and_writes_a_digest(rt: HostRuntime) -> Result<(), Fail> {
    check(&rt, rt.alloc(), Call::Digest, DIGESTS)
}

/// Bytes in hexadecimal, and of the element at their front the tag, all of it, its content, and the
/// bytes after it.
const ELEMENTS: &str = "\
0500 = 5 0500..
3003020101 = 48 3003020101.020101.
0203010203ff00 = 2 0203010203.010203.ff00
a0013030 = 160 a00130.30.30
048105aabbccddee = 4 048105aabbccddee.aabbccddee.
04820001aa00 = 4 04820001aa.aa.00
0483000002aabb = 4 0483000002aabb.aabb.
0484000000000400 = 4 048400000000..0400
3084000000053003020101 = 48 3084000000053003020101.3003020101.
1e01ff1f = 30 1e01ff.ff.1f
0000 = 0 0000..
 = Der
30 = Der
1f00 = Der
ff00 = Der
3001 = Der
3080 = Der
30800000 = Der
3081 = Der
308201 = Der
3082000200 = Der
308400000006aabbccddee = Der
30843fffffff = Der
3084ffffffff = Der
30850000000005 = Der
30ff = Der
";

/// Appends the parts of the element at the front.
pub fn of_element(alloc: Global, told: &mut String, input: &str) -> Result<(), Fail> {
    let bytes = hex::decode(alloc, input)?;
    match element(&bytes) {
        Err(fault) => refuse(told, fault.refusal(), None),
        Ok((found, rest)) => tell_element(alloc, told, &found, rest),
    }
}

/// Appends an element's tag, all of it, its content, and the bytes after it.
fn tell_element(
    alloc: Global,
    told: &mut String,
    found: &Element<'_>,
    rest: &[u8],
) -> Result<(), Fail> {
    let tag = found.tag;
    write!(told, "{tag} ")?;
    tell_hex(alloc, told, found.whole)?;
    told.push('.')?;
    tell_hex(alloc, told, found.content)?;
    told.push('.')?;
    tell_hex(alloc, told, rest)
}

#[test]
fn reads_the_element_at_the_front(rt: HostRuntime) -> Result<(), Fail> {
    check(&rt, rt.alloc(), Call::Element, ELEMENTS)
}

const CERTIFICATES: &str = "\
30053003020101 = 3003020101
3081053003020101 = 3003020101
3084000000053003020101 = 3003020101
30023000 = 3000
3009308103020101ffffff = 308103020101
1f00 = Der
3000 = Der
3080 = Der
30850000000005 = Der
30843fffffff = Der
30023080 = Der
300530030201 = Der
3005300302010100 = Der
31053003020101 = Der
30053103020101 = Der
";

/// Appends the TBSCertificate.
pub fn of_tbs(alloc: Global, told: &mut String, input: &str) -> Result<(), Fail> {
    let bytes = hex::decode(alloc, input)?;
    match tbs(&bytes) {
        Err(fault) => refuse(told, fault.refusal(), None),
        Ok(found) => tell_hex(alloc, told, found),
    }
}

#[test]
fn gives_the_tbs_certificate(rt: HostRuntime) -> Result<(), Fail> {
    check(&rt, rt.alloc(), Call::Tbs, CERTIFICATES)
}

#[test]
fn puts_a_beginning_before_a_fault(rt: HostRuntime) {
    let mut writer = narrow(rt.alloc(), 2, 3);
    assert!(rt; put(b"abcde", &mut writer) == Err(WriteFailed));
    assert!(rt; writer.taken.as_slice() == b"abcd".as_slice());
    writer.most = 0;
    assert!(rt;
        put(b"e", &mut writer) == Err(WriteFailed),
        "no byte is taken"
    );
    writer.most = 9;
    assert!(rt; put(b"e", &mut writer) == Ok(()));
    assert!(rt; writer.taken.as_slice() == b"abcde".as_slice());
}

/// How many of these bytes are read, 9,999 in each call, where one call may fail.
fn count_read(alloc: Global, fails_at: u64, most: u32) -> Result<usize, InputFault> {
    let long = [7; 70_000];
    let mut reader = Slow {
        rest: &long,
        most: 9_999,
        calls: 0,
        fails_at,
    };
    Ok(read_all(alloc, &mut reader, most as usize)?.len())
}

#[test]
fn reads_an_input_up_to_a_limit(rt: HostRuntime) {
    assert!(rt; count_read(rt.alloc(), 0, 70_000) == Ok(70_000));
    assert!(rt; count_read(rt.alloc(), 4, 70_000) == Err(InputFault::Read));
    assert!(rt; count_read(rt.alloc(), 0, 69_999) == Err(InputFault::TooLong));
}
