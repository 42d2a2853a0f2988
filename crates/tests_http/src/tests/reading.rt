//! Heads and bodies from readers.
use base::{InputFault, Watch};
use http_requests::{HeadRead, read_body, read_head};
use std::alloc::{AllocError, Global};
use std::test::Fail;
use testing::{Slow, bytes_of};

/// A reader that gives one byte at a time, and fails once it has given this many.
fn slow(rest: &[u8], given: u64) -> Slow<'_> {
    Slow {
        rest,
        most: 1,
        calls: 0,
        fails_at: given.saturating_add(1),
    }
}

/// The outcome of reading a head.
#[derive(Clone, Copy, PartialEq, Eq)]
enum Read {
    Nothing,
    NoHead,
    Head,
    Failed,
    Other,
}

/// The outcome.
fn told(answer: &Result<HeadRead, InputFault>) -> Read {
    match answer {
        Ok(HeadRead::Nothing) => Read::Nothing,
        Ok(HeadRead::NoHead) => Read::NoHead,
        Ok(HeadRead::Head(_)) => Read::Head,
        Err(InputFault::Read) => Read::Failed,
        Err(_) => Read::Other,
    }
}

/// A head.
const HEAD: &str = "|POST /level HTTP/1.1|Desk-Key: k|Content-Length: 4||";

/// The head and a body.
const ALL: &str = "|POST /level HTTP/1.1|Desk-Key: k|Content-Length: 4||body";

/// Whether these bytes are the head that was read.
fn is_head(answer: &Result<HeadRead, InputFault>, head: &[u8]) -> bool {
    match answer {
        Ok(HeadRead::Head(found)) => found.as_bytes() == head,
        _ => false,
    }
}

#[test]
fn reads_a_head_alone(rt: HostRuntime) -> Result<(), Fail> {
    let head = bytes_of(rt.alloc(), HEAD)?;
    let all = bytes_of(rt.alloc(), ALL)?;
    let mut reader = slow(all.as_slice(), u64::MAX);
    let mut watch = Watch::new();
    let answer = read_head(rt.alloc(), &mut reader, &mut watch);
    assert!(rt; !watch.has_failed(), "no read failed");
    assert!(rt; is_head(&answer, head.as_slice()), "the head");
    assert!(rt; reader.rest == b"body".as_slice(), "what follows the head");
    Ok(())
}

/// The outcomes for these bytes: read whole, and by a reader that fails at their end.
fn read_cut(alloc: Global, mut bytes: &[u8]) -> (Read, Read) {
    let mut failing = slow(bytes, bytes.len() as u64);
    let failed = told(&read_head(alloc, &mut failing, &mut Watch::new()));
    (
        told(&read_head(alloc, &mut bytes, &mut Watch::new())),
        failed,
    )
}

#[test]
fn reads_no_head_where_one_is_cut(rt: HostRuntime) -> Result<(), Fail> {
    let head = bytes_of(rt.alloc(), HEAD)?;
    assert!(rt; read_cut(rt.alloc(), b"") == (Read::Nothing, Read::Failed));
    for count in 1..head.len() {
        let part = head.get(..count).unwrap_or(&[]);
        assert!(rt; read_cut(rt.alloc(), part) == (Read::NoHead, Read::Failed));
    }
    Ok(())
}

/// A head of this many bytes and fields, the first of them as long as needed.
fn head_of(alloc: Global, size: usize, fields: usize) -> Result<Vec<u8>, AllocError> {
    let mut bytes = Vec::new(alloc);
    bytes.extend_from_slice(b"GET /level HTTP/1.1\r\n")?;
    for _ in 1..fields {
        bytes.extend_from_slice(b"a:b\r\n")?;
    }
    bytes.extend_from_slice(b"a:")?;
    for _ in bytes.len()..size.saturating_sub(4) {
        bytes.push(b'b')?;
    }
    bytes.extend_from_slice(b"\r\n\r\n")?;
    Ok(bytes)
}

/// The outcome for a head of this many bytes and fields.
fn read_long(alloc: Global, size: usize, fields: usize) -> Result<Read, AllocError> {
    let bytes = head_of(alloc, size, fields)?;
    if bytes.len() != size {
        return Ok(Read::Other);
    }
    Ok(told(&read_head(alloc, &mut bytes.as_slice(), &mut Watch::new())))
}

#[test]
fn keeps_the_limits_of_heads(rt: HostRuntime) {
    assert!(rt; read_long(rt.alloc(), 1000, 64) == Ok(Read::Head));
    assert!(rt; read_long(rt.alloc(), 1000, 65) == Ok(Read::NoHead));
    assert!(rt; read_long(rt.alloc(), 16_384, 1) == Ok(Read::Head));
    assert!(rt; read_long(rt.alloc(), 16_385, 1) == Ok(Read::NoHead));
}

/// A body and the bytes after it.
const BODY: &[u8] = b"body and more";

/// Whether the body of this size is these bytes, read one at a time.
fn is_body(alloc: Global, size: usize, body: &[u8]) -> bool {
    match read_body(alloc, &mut slow(BODY, u64::MAX), &mut Watch::new(), size) {
        Ok(Some(bytes)) => bytes.as_slice() == body,
        _ => false,
    }
}

/// Whether a read of 14 bytes that fails after this many is reported.
fn tells_a_fault(alloc: Global, given: u64) -> bool {
    let mut watch = Watch::new();
    let answer = read_body(alloc, &mut slow(BODY, given), &mut watch, 14);
    matches!(answer, Err(InputFault::Read)) && watch.has_failed()
}

#[test]
fn reads_a_body_alone(rt: HostRuntime) {
    for size in 0..14 {
        let body = BODY.get(..size).unwrap_or(&[]);
        assert!(rt; is_body(rt.alloc(), size, body), "{size} bytes");
        assert!(rt; tells_a_fault(rt.alloc(), size as u64), "read {size}");
    }
    let mut short = BODY;
    let answer = read_body(rt.alloc(), &mut short, &mut Watch::new(), 14);
    assert!(rt; matches!(answer, Ok(None)), "cut short");
}
