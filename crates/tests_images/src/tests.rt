//! Scripts: on each line a call's input and its answer.
mod certificates;
mod digests;
mod failing;
mod layouts;
mod lines;
mod pieces;
mod tokens;
mod words;

use std::alloc::Global;
use std::process::Abort;
use std::str;
use std::test::Fail;
use testing::{Answers, answered};

/// The calls that scripts make.
#[derive(Clone, Copy)]
enum Call {
    Carried,
    Digests,
    Facts,
    Given,
    List,
    Parts,
    Ranges,
    Token,
    Words,
}

/// The headers of an EFI application: its optional header is at 88, SizeOfHeaders is 512.
const HEADERS: &str = "0:4d5a 60:40000000 64:50450000 68:6486 70:0100 148:00020000 156:0a00";

/// An optional header of PE32+ with 16 directories, and one section of 512 bytes at 512.
const PE32_PLUS: &str = "84:f000 88:0b02 196:10000000 328:2e74657874 344:0002000000020000";

/// The same for PE32.
const PE32: &str = "84:e000 88:0b01 180:10000000 312:2e74657874 328:0002000000020000";

/// The headers of PE32+ moved up by 65,382, so that CheckSum, 11223344, is at 65534 to 65538.
const MOVED: &str = "60:a6ff0000 64:00000000 68:0000 70:0000 84:0000 88:0000 148:00000000 156:0000 \
    196:00000000 328:0000000000 344:0000000000000000 65446:50450000 65450:6486 65452:0100 \
    65466:f000 65470:0b02 65530:00020100 65534:11223344 65538:0a00 65578:10000000 65710:2e74657874 \
    65726:0002000000020100";

/// Bytes of an image that tools sign.
const SIGNABLE: &str = "86:2e02 92:00020000 104:00100000 120:0010000000020000 144:00200000 \
    152:11223344 336:00020000 340:00100000 364:20000060";

/// A table of one entry, whose certificate is 30053003020101.
const TABLE: &str = "2b00000000020200302106092a864886f70d010702a014301202010131003000\
    a0073005300302010131000000000000";

/// Writes over the bytes from a place on, where there is room.
fn put(image: &mut [u8], at: usize, bytes: &[u8]) {
    if let Some(rest) = image.get_mut(at..) {
        if let Some(part) = rest.get_mut(..bytes.len()) {
            part.copy_from_slice(bytes);
        }
    }
}

/// Writes bytes over an image: words `PLACE:HEX`, in which `T` is the table.
fn change(alloc: Global, image: &mut [u8], words: &str) -> Result<(), Fail> {
    for word in words.split_whitespace() {
        let (place, digits) = word.split_once(':').ok_or("a word without a place")?;
        let digits = if digits == "T" { TABLE } else { digits };
        put(image, place.parse()?, &hex::decode(alloc, digits)?);
    }
    Ok(())
}

/// Writes the bytes of a form over zeros: `+` PE32+, `-` PE32, `*` PE32+ that tools sign, whose
/// bytes from 512 on count up to 250 again and again, `^` PE32+ whose headers are further up.
fn form(alloc: Global, bytes: &mut [u8], form: &str) -> Result<(), Fail> {
    if form == "*" {
        for at in 512..bytes.len() {
            bytes[at] = (at % 251) as u8;
        }
        change(alloc, bytes, SIGNABLE)?;
    }
    change(alloc, bytes, HEADERS)?;
    change(alloc, bytes, if form == "-" { PE32 } else { PE32_PLUS })?;
    if form == "^" {
        change(alloc, bytes, MOVED)?;
    }
    Ok(())
}

/// The image that the words describe: its length, its form, and changes.
fn image(alloc: Global, words: &str) -> Result<Vec<u8>, Fail> {
    let (length, words) = words.split_once(' ').ok_or("no length")?;
    let (kind, changes) = words.split_once(' ').unwrap_or((words, ""));
    let length: usize = length.parse()?;
    let mut bytes = vec![in alloc; 0; length]?;
    form(alloc, &mut bytes, kind)?;
    change(alloc, &mut bytes, changes)?;
    Ok(bytes)
}

/// Appends the lines that were written, each ended by a semicolon.
fn tell_lines(told: &mut String, out: &mut [u8]) -> Result<(), Fail> {
    for byte in out.iter_mut() {
        if *byte == b'\n' {
            *byte = b';';
        }
    }
    told.push_str(str::from_utf8(out)?)?;
    Ok(())
}

/// Appends bytes in hexadecimal.
fn tell_hex(alloc: Global, told: &mut String, bytes: &[u8]) -> Result<(), Fail> {
    told.push_str(hex::encode(alloc, bytes)?.as_str())?;
    Ok(())
}

impl Answers for Call {
    fn answer(&self, alloc: Global, told: &mut String, input: &str) -> Result<(), Fail> {
        match self {
            Call::Carried => certificates::of_carried(alloc, told, input),
            Call::Digests => digests::of_digests(alloc, told, input),
            Call::Facts => lines::of_facts(alloc, told, input),
            Call::List => lines::of_list(alloc, told, input),
            Call::Parts => layouts::of_parts(alloc, told, input),
            Call::Ranges => layouts::of_ranges(alloc, told, input),
            Call::Given => tokens::of_given(alloc, told, input),
            Call::Token => tokens::of_token(alloc, told, input),
            Call::Words => words::of_words(alloc, told, input),
        }
    }
}

/// Compares all answers of a script.
fn check(rt: &impl Abort, alloc: Global, call: Call, script: &str) -> Result<(), Fail> {
    let told = answered(alloc, &call, script)?;
    assert!(rt; told.as_str() == script, "{told}");
    Ok(())
}
