//! The forms of the desk's texts.
ghost use Rattle.std.specs.Prelude.{◌≡◌, ◌∷◌, ◌++◌, IfNone, IfSome, MatchResult, false, not, position, string_bytes, true};
ghost use Rattle.std.specs.Char.{is_ascii_digit};
ghost use Rattle.std.specs.List.{list_all};
ghost use Rattle.desk_types.specs.Forms as spec;

use crate::TextFault;
use std::alloc::Global;
use std::str;

/// The most bytes of a person's name.
const LONGEST_NAME: usize = 32;

/// The most bytes of a key.
const LONGEST_KEY: usize = 64;

/// The most bytes of a title.
const LONGEST_TITLE: usize = 120;

/// The most bytes of a note.
const LONGEST_NOTE: usize = 200;

/// The most bytes of a reason.
const LONGEST_REASON: usize = 200;

/// The most digits of the number of a request or a proposal.
const MOST_DIGITS: usize = 6;

/// True if each byte is between `low` and `high`, inclusive.
fn are_between(text: &[u8], low: u8, high: u8) -> bool
    ensures { result ≡ list_all (spec.is_between low high) text.now }
{
    text.iter().all(|byte| low <= *byte && *byte <= high)
}

/// True for a byte that a person's name may have.
fn is_name_byte(byte: u8) -> bool
    ensures { result ≡ spec.is_name_byte byte }
{
    byte.is_ascii_lowercase() || byte.is_ascii_digit() || byte == b'-'
}

/// True if a person's name may have each of the bytes.
fn are_name_bytes(text: &[u8]) -> bool
    ensures { result ≡ list_all spec.is_name_byte text.now }
{
    text.iter().all(|byte| is_name_byte(*byte))
}

/// True if each byte is a decimal digit.
fn are_digits(text: &[u8]) -> bool
    ensures { result ≡ list_all is_ascii_digit text.now }
{
    text.iter().all(|byte| byte.is_ascii_digit())
}

/// True if the text is a person's name.
pub(crate) fn is_person_name(text: &[u8]) -> bool
    ensures { result ≡ spec.is_person_name text.now }
{
    if text.is_empty() || LONGEST_NAME < text.len() || !text[0].is_ascii_lowercase() {
        return false;
    }
    are_name_bytes(text)
}

/// True if the text is a key.
pub(crate) fn is_key(text: &[u8]) -> bool
    ensures { result ≡ spec.is_key text.now }
{
    if text.is_empty() || LONGEST_KEY < text.len() {
        return false;
    }
    are_between(text, 0x21, 0x7E)
}

/// True if the text is a title.
pub(crate) fn is_title(text: &[u8]) -> bool
    ensures { result ≡ spec.is_title text.now }
{
    if text.is_empty() || LONGEST_TITLE < text.len() {
        return false;
    }
    are_between(text, 0x20, 0x7E)
}

/// True if the text is a note.
pub(crate) fn is_note(text: &[u8]) -> bool
    ensures { result ≡ spec.is_note text.now }
{
    if LONGEST_NOTE < text.len() {
        return false;
    }
    are_between(text, 0x20, 0x7E)
}

/// True if the text is a reason.
pub(crate) fn is_reason(text: &[u8]) -> bool
    ensures { result ≡ spec.is_reason text.now }
{
    if text.is_empty() || LONGEST_REASON < text.len() {
        return false;
    }
    if text[0] == b' ' || text[text.len() - 1] == b' ' {
        return false;
    }
    are_between(text, 0x20, 0x7E)
}

/// True if the text is the decimal text of a number of 1 to 6 digits.
pub(crate) fn is_decimal(text: &[u8]) -> bool
    ensures { result ≡ spec.is_decimal text.now }
{
    if text.is_empty() || MOST_DIGITS < text.len() || text[0] == b'0' {
        return false;
    }
    are_digits(text)
}

/// True if the text is the decimal text of a number, without leading zeros.
pub(crate) fn is_numeral(text: &[u8]) -> bool
    ensures { result ≡ spec.is_numeral text.now }
{
    if text.is_empty() {
        return false;
    }
    if 1 < text.len() && text[0] == b'0' {
        return false;
    }
    are_digits(text)
}

/// The place of the first space.
fn first_space(text: &[u8]) -> Option<usize>
    ensures { result ≡ position spec.is_space text.now }
{
    text.iter().position(|byte| *byte == b' ')
}

/// The texts before and after the first space, if there is one.
pub(crate) fn parted_at_space(text: &[u8]) -> Option<(&[u8], &[u8])>
    ensures found { IfSome result (λ parts. (text.now ≡ parts.0.now ++ (32 ∷ parts.1.now))
        × (list_all (λ b. not (spec.is_space b)) parts.0.now ≡ true)) }
    ensures only { IfNone result (list_all (λ b. not (spec.is_space b)) text.now ≡ true) }
{
    let end = first_space(text)?;
    Some((&text[..end], &text[end + 1..]))
}

/// An owned copy of the text. Takes memory for it.
fn owned_text(alloc: Global, text: &[u8]) -> Result<String, TextFault>
    requires { list_all (spec.is_between 32 126) text.now ≡ true }
    ensures { MatchResult result (λ held. string_bytes held ≡ text.now)
        (λ fault. fault ≡ TextFault.NoMemory) }
{
    let Ok(text) = str::from_utf8(text) else {
        return Err(TextFault::Form);
    };
    String::from_str(alloc, text).map_err(|_| TextFault::NoMemory)
}

/// An owned copy of the text, if it has its form. Takes memory for it.
pub(crate) fn held_in_form(alloc: Global, has_form: bool, text: &[u8]) -> Result<String, TextFault>
    requires { has_form ≡ true → list_all (spec.is_between 32 126) text.now ≡ true }
    ensures found { has_form ≡ true → MatchResult result (λ held. string_bytes held ≡ text.now)
        (λ fault. fault ≡ TextFault.NoMemory) }
    ensures only { has_form ≡ false → result ≡ Err TextFault.Form }
{
    if has_form {
        owned_text(alloc, text)
    } else {
        Err(TextFault::Form)
    }
}
