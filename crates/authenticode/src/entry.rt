//! Entries of a certificate table.
ghost use Rattle.std.specs.Prelude.{◌≡◌, ◌<◌, true, false, MatchOption, IfSome, length, drop};
ghost use Rattle.authenticode.specs.Table as spec;
ghost use Rattle.authenticode.specs.Table.{body_at, has_no_entry, next_at, type_at};

use base::{u16_at, u32_at};

/// WIN_CERT_TYPE_PKCS_SIGNED_DATA.
pub(crate) const SIGNED_DATA: u16 = 2;

/// An entry: its type, its body, and the bytes from the next entry on.
#[derive(Clone, Copy, Debug)]
pub(crate) struct Entry<'a> {
    pub(crate) kind: u16,
    pub(crate) body: &'a [u8],
    pub(crate) rest: &'a [u8],
}

/// Whether the entries end before these bytes: none is left, or zeros alone.
pub(crate) fn is_end(bytes: &[u8]) -> bool
    ensures { result ≡ spec.is_end bytes.now }
{
    for byte in bytes {
        if *byte != 0 {
            return false;
        }
    }
    true
}

/// The entry at the front.
pub(crate) fn next_entry(table: &[u8]) -> Option<Entry<'_>>
    ensures none { MatchOption result (has_no_entry table.now ≡ true)
        (λ _. has_no_entry table.now ≡ false) }
    ensures kind { IfSome result (λ e. e.kind ≡ type_at table.now) }
    ensures body { IfSome result (λ e. e.body.now ≡ body_at table.now) }
    ensures rest { IfSome result (λ e. e.rest.now ≡ drop (next_at table.now) table.now) }
    ensures shorter { IfSome result (λ e. length e.rest.now < length table.now) }
{
    if table.len() < 8 {
        return None;
    }
    let size = u32_at(table, 0) as usize;
    if size < 8 || table.len() < size {
        return None;
    }
    let kind = u16_at(table, 6);
    let next = table.len().min((size + 7) / 8 * 8);
    let (whole, _) = table.split_at(size);
    let (_, body) = whole.split_at(8);
    let (_, rest) = table.split_at(next);
    Some(Entry { kind, body, rest })
}
