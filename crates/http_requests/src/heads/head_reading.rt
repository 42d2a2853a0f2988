//! The head of a request, read byte by byte.
ghost use Rattle.std.specs.Prelude.{◌≡◌, ◌&&◌, IfErr, IfOk};
ghost use Rattle.base.specs.Watches.{HasCause};
ghost use Rattle.http_requests.specs.heads.Heads as spec;
ghost use Rattle.http_requests.specs.heads.Heads.{FindsOf, Looks, TakesByte};

use crate::heads::head_spans::HeadSpans;
use crate::{HeadRead, ParsedHead};
use base::{InputFault, ReadFailed, Watch};
use httparse::Status;
use httparse::spans::{EMPTY_HEADER_SPAN, parse_request};
use std::alloc::Global;
use std::io::Read;

/// The most bytes of a head, with the empty lines before it.
const MOST_BYTES: usize = 16_384;

/// The most fields of a head.
pub(crate) const MOST_FIELDS: usize = 64;

/// The bytes so far, as the beginning of a request.
enum Look {
    /// They begin with a head, which has these spans.
    Whole(HeadSpans),
    /// They don't begin with one.
    Open,
    /// They don't, whatever follows, or with one of too many fields.
    Never,
}

/// The next byte, or none at the input's end.
fn read_byte<R: Read>(reader: &mut R, watch: &mut Watch) -> Result<Option<u8>, InputFault>
    ensures taken { IfOk result (TakesByte (R.remaining reader.old) (R.remaining reader.new)) }
    ensures device { IfErr result (HasCause watch.new) }
{
    let mut byte = [0];
    match watch.read(reader, &mut byte) {
        Ok(0) => Ok(None),
        Ok(_) => Ok(Some(byte[0])),
        Err(ReadFailed) => Err(InputFault::Read),
    }
}

/// Looks for a head at the front.
fn examine(bytes: &[u8]) -> Look
    ensures { Looks bytes.now result }
{
    let mut fields = [EMPTY_HEADER_SPAN; MOST_FIELDS];
    match parse_request(bytes, &mut fields) {
        Ok(Status::Complete(request)) => Look::Whole(HeadSpans { request, fields }),
        Ok(Status::Partial) => Look::Open,
        Err(_) => Look::Never,
    }
}

/// Whether the bytes are CR and LF alone, with one byte more.
fn is_blank(blank: bool, byte: u8) -> bool
    ensures { result ≡ (blank && spec.is_line_break byte) }
{
    blank && (byte == b'\r' || byte == b'\n')
}

/// Whether the bytes end with an empty line.
fn ends_empty_line(bytes: &[u8]) -> bool
    ensures { result ≡ spec.ends_empty_line bytes.now }
{
    bytes.ends_with(b"\n\n".as_slice()) || bytes.ends_with(b"\n\r\n".as_slice())
}

/// Whether the bytes are looked at for a head: `blank` where they are CR and LF alone, `begun`
/// where they were looked at before.
fn may_end_head(bytes: &[u8], blank: bool, begun: bool) -> bool
    ensures { result ≡ spec.may_end_head blank begun bytes.now }
{
    if blank {
        false
    } else if begun {
        ends_empty_line(bytes)
    } else {
        bytes.ends_with(b"\n".as_slice())
    }
}

/// Reads the head of a request (RFC 9112, section 2.1, as `httparse` takes it) of at most 16,384
/// bytes and 64 fields. After a head the reader is at the first byte of the body. It is read byte
/// by byte, so a reader without a buffer is slow. The bytes so far are parsed at the end of the
/// first line that isn't empty, and at each empty line after it: a wrong first line is `NoHead` at
/// its end, a wrong field at the empty line. An interrupted read is a fault. Takes memory for the
/// head.
pub fn read_head<R: Read>(
    alloc: Global,
    reader: &mut R,
    watch: &mut Watch,
) -> Result<HeadRead, InputFault>
    ensures found { IfOk result (FindsOf (R.remaining reader.old) (R.remaining reader.new)) }
    ensures device { IfErr result (HasCause watch.new) }
{
    let mut taken = Vec::new(alloc);
    let mut blank = true;
    let mut begun = false;
    while taken.len() < MOST_BYTES {
        let Some(byte) = read_byte(reader, watch)? else {
            return Ok(if taken.is_empty() {
                HeadRead::Nothing
            } else {
                HeadRead::NoHead
            });
        };
        if taken.push(byte).is_err() {
            return Err(InputFault::NoMemory);
        }
        blank = is_blank(blank, byte);
        if may_end_head(taken.as_slice(), blank, begun) {
            begun = true;
            match examine(taken.as_slice()) {
                Look::Whole(spans) => return Ok(HeadRead::Head(ParsedHead::new(taken, spans))),
                Look::Open => {}
                Look::Never => return Ok(HeadRead::NoHead),
            }
        }
    }
    Ok(HeadRead::NoHead)
}
