//! The parts of a target.
ghost use Rattle.std.specs.Prelude.{◌≡◌, position};
ghost use Rattle.std.specs.List.{after_first, before_first};
ghost use Rattle.http_requests.specs.Targets as spec;

use sbat::{are_digits, decimal};

/// The place of the first slash.
fn slash(text: &[u8]) -> Option<usize>
    ensures { result ≡ position spec.is_slash text.now }
{
    text.iter().position(|byte| *byte == b'/')
}

/// What follows the first slash, or nothing.
fn after_slash(text: &[u8]) -> &[u8]
    ensures { result.now ≡ after_first spec.is_slash text.now }
{
    match slash(text) {
        Some(place) => &text[place + 1..],
        None => &[],
    }
}

/// The bytes before the first slash, or all.
fn before_slash(text: &[u8]) -> &[u8]
    ensures { result.now ≡ before_first spec.is_slash text.now }
{
    match slash(text) {
        Some(place) => &text[..place],
        None => text,
    }
}

/// The part of a target between its second slash and the third, or the end.
pub(crate) fn second_part(target: &[u8]) -> &[u8]
    ensures { result.now ≡ spec.second_part target.now }
{
    before_slash(after_slash(after_slash(target)))
}

/// The part of a target between its third slash and the fourth, or the end.
pub(crate) fn third_part(target: &[u8]) -> &[u8]
    ensures { result.now ≡ spec.third_part target.now }
{
    second_part(after_slash(target))
}

/// The number of a minute, or of the first entry of a part of a list, that 1 to 7 decimal digits
/// without a leading zero spell.
pub(crate) fn minute_number(text: &[u8]) -> Option<u64>
    ensures { result ≡ spec.minute_number text.now }
{
    if text.is_empty() || 7 < text.len() || text[0] == b'0' || !are_digits(text) {
        return None;
    }
    Some(decimal(text))
}
