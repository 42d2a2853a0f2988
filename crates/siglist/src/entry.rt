//! The entries of a list.
ghost use Rattle.std.specs.Prelude.{◌≡◌, ◌+◌, ◌*◌, ◌∷◌, ◌≤◌, ℕ, suc, List, length, take};
ghost use Rattle.std.specs.Iterator.{YieldsFirstBy, item_count};
ghost use Rattle.siglist.specs.SignatureLists as spec;
ghost use Rattle.siglist.specs.Steps.Reading.{entries_of};
ghost use Rattle.siglist.specs.EntryViews.{seen_entry};

use base::Guid;
use std::marker::Model;

/// An entry: its owner, and its body, a slice of the bytes that were read.
#[derive(Clone, Copy, Debug)]
pub struct Entry<'a> {
    pub owner: Guid,
    pub body: &'a [u8],
}

/// The GUID in the first 16 bytes.
pub(crate) fn first_guid(bytes: &[u8]) -> Guid
    requires { 16 ≤ length bytes.now }
    ensures { result ≡ take 16 bytes.now }
{
    let (front, _) = bytes.split_at(16);
    let mut stored = [0; 16];
    stored.copy_from_slice(front);
    Guid::from(stored)
}

/// The entry at the front, and the bytes after it.
fn first_entry(size: usize, bytes: &[u8]) -> (Entry<'_>, &[u8])
    requires least { 16 ≤ size }
    requires fits { size ≤ length bytes.now }
    ensures entry { (n : ℕ) → entries_of (suc n) size bytes.now
        ≡ seen_entry result.0 ∷ entries_of n size result.1.now }
    ensures rest { length result.1.now + size ≡ length bytes.now }
{
    let (front, rest) = bytes.split_at(size);
    let owner = first_guid(front);
    let (_, body) = front.split_at(16);
    (Entry { owner, body }, rest)
}

/// The entries of a list, borrowed. A contract sees the list of those that are left.
#[derive(Debug, Drop)]
pub struct Entries<'a> {
    count: usize,
    size: usize,
    rest: &'a [u8],
}

impl<'a> Model for Entries<'a> {
    ghost Value = { List spec.Entry };

    ghost view = { λ e. entries_of e.count e.size e.rest.now };

    ghost invariant = { λ e. (16 ≤ e.size) × (e.count * e.size ≤ length e.rest.now) };
}

impl<'a> Iterator for Entries<'a> {
    type Item = Entry<'a>;

    ghost next_gives = { YieldsFirstBy seen_entry (λ entries. entries) };

    ghost remaining = { item_count (λ entries. entries) };

    fn next(&mut self) -> Option<Entry<'a>> {
        if self.count == 0 {
            return None;
        }
        let (entry, rest) = first_entry(self.size, self.rest);
        self.count -= 1;
        self.rest = rest;
        Some(entry)
    }
}

impl<'a> Entries<'a> {
    /// The first `count` entries of `size` bytes.
    pub(crate) fn of(count: usize, size: usize, rest: &'a [u8]) -> Self
        requires least { 16 ≤ size }
        requires fits { count * size ≤ length rest.now }
        ensures { result ≡ entries_of count size rest.now }
    {
        Entries { count, size, rest }
    }
}
