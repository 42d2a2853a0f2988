//! The bytes of an input of a script.
use std::alloc::{AllocError, Global};
use std::slice;
use std::test::Fail;

/// The bytes of a text in which `|` means a line feed.
pub fn unbarred(alloc: Global, text: &str) -> Result<Vec<u8>, AllocError> {
    let mut bytes = Vec::from_slice(alloc, text.as_bytes())?;
    for byte in bytes.iter_mut() {
        if *byte == b'|' {
            *byte = b'\n';
        }
    }
    Ok(bytes)
}

/// The meaning of a letter: `A`, `B` and `U` are digests, `U` that of `A` with digits of either
/// case, `T` has a digit too few and `L` one too many; `#` is the header of a CSV file, `|` a line
/// feed, `^` a carriage return, `~` the byte order mark EF BB BF.
fn meaning(letter: &u8) -> &[u8] {
    match *letter {
        b'A' => b"aaaaaaaaaaaaaaaaaaaaaaaaaaaaaaaaaaaaaaaaaaaaaaaaaaaaaaaaaaaaaaaa",
        b'B' => b"bbbbbbbbbbbbbbbbbbbbbbbbbbbbbbbbbbbbbbbbbbbbbbbbbbbbbbbbbbbbbbbb",
        b'U' => b"aAaAaAaAaAaAaAaAaAaAaAaAaAaAaAaAaAaAaAaAaAaAaAaAaAaAaAaAaAaAaAaA",
        b'T' => b"aaaaaaaaaaaaaaaaaaaaaaaaaaaaaaaaaaaaaaaaaaaaaaaaaaaaaaaaaaaaaaa",
        b'L' => b"aaaaaaaaaaaaaaaaaaaaaaaaaaaaaaaaaaaaaaaaaaaaaaaaaaaaaaaaaaaaaaaaa",
        b'#' => b"kind,value,generation",
        b'|' => b"\n",
        b'^' => b"\r",
        b'~' => b"\xef\xbb\xbf",
        _ => slice::from_ref(letter),
    }
}

/// The bytes that the letters of an input mean.
pub fn expanded(alloc: Global, input: &str) -> Result<Vec<u8>, AllocError> {
    let mut bytes = Vec::new(alloc);
    for letter in input.as_bytes() {
        bytes.extend_from_slice(meaning(letter))?;
    }
    Ok(bytes)
}

/// The digits that a word means: `G` a type of no kind and an owner, `S`, `X` and `D` the types of
/// SHA-256, X.509 and X.509 with SHA-256, `A` and `B` digests.
fn digits(word: &str) -> &str {
    match word.as_bytes() {
        b"G" => "33221100554477668899aabbccddeeff",
        b"S" => "2616c4c14c509240aca941f936934328",
        b"X" => "a159c0a5e494a74a87b5ab155c2bf072",
        b"D" => "92a4d23bc0967940b420fcf98ef103ed",
        b"A" => "aaaaaaaaaaaaaaaaaaaaaaaaaaaaaaaaaaaaaaaaaaaaaaaaaaaaaaaaaaaaaaaa",
        b"B" => "bbbbbbbbbbbbbbbbbbbbbbbbbbbbbbbbbbbbbbbbbbbbbbbbbbbbbbbbbbbbbbbb",
        _ => word,
    }
}

/// The bytes that hexadecimal words spell.
pub fn spelt(alloc: Global, input: &str) -> Result<Vec<u8>, Fail> {
    let mut bytes = Vec::new(alloc);
    for word in input.split_whitespace() {
        bytes.extend_from_slice(&hex::decode(alloc, digits(word))?)?;
    }
    Ok(bytes)
}
