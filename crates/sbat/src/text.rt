//! SBAT text and its lines.
ghost use Rattle.std.specs.Prelude.{◌≡◌, ◌==◌, position};
ghost use Rattle.sbat.specs.Texts as spec;

use base::{Parted, parted};

/// The byte order mark that UTF-8 text may begin with.
const MARK: [u8; 3] = [0xef, 0xbb, 0xbf];

/// The place of the first zero byte.
fn first_zero(text: &[u8]) -> Option<usize>
    ensures { result ≡ position (λ b. b == 0) text.now }
{
    text.iter().position(|b| *b == 0)
}

/// The bytes before the first zero byte, or all.
fn before_zero(text: &[u8]) -> &[u8]
    ensures { result.now ≡ spec.before_zero text.now }
{
    match first_zero(text) {
        Some(end) => &text[..end],
        None => text,
    }
}

/// The text without a byte order mark at its beginning.
fn without_mark(text: &[u8]) -> &[u8]
    ensures { result.now ≡ spec.without_mark text.now }
{
    match text.strip_prefix(&MARK) {
        Some(rest) => rest,
        None => text,
    }
}

/// The lines of SBAT text with their numbers from 1, as `base::parted` gives them: empty
/// lines are counted but not returned. The text ends before its first zero byte, and a byte order
/// mark EF BB BF at its beginning is dropped.
pub fn rows(text: &[u8]) -> Parted<'_>
    ensures { result ≡ spec.rows_of text.now }
{
    parted(without_mark(before_zero(text)))
}
