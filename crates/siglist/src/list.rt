//! One list.
ghost use Rattle.std.specs.Prelude.{◌≡◌, ◌+◌, ◌*◌, ◌≤◌, None, length, drop};
ghost use Rattle.siglist.specs.Kinds as kinds;
ghost use Rattle.siglist.specs.SignatureLists.{Placed};
ghost use Rattle.siglist.specs.Heads.{size_at};
ghost use Rattle.siglist.specs.Steps.Reading.{entries_of, front_of, lack_at, list_with, placed};

use crate::entry::{Entries, first_guid};
use crate::kind::{Kind, kind_of};
use base::{Guid, u32_at};
use std::marker::Model;

/// A signature list (UEFI 2.10, section 32.4.1, EFI_SIGNATURE_LIST), borrowed from the bytes that
/// were read. A contract sees the list and its offset.
#[derive(Debug, Drop)]
pub struct SignatureList<'a> {
    offset: u64,
    guid: Guid,
    header: &'a [u8],
    entry_size: usize,
    count: usize,
    entries: &'a [u8],
}

impl<'a> Model for SignatureList<'a> {
    ghost Value = { Placed };

    ghost view = { λ l. placed l.offset (record {
      kind = l.guid;
      header = l.header.now;
      entry_size = l.entry_size;
      entries = entries_of l.count l.entry_size l.entries.now;
    }) };

    ghost invariant = { λ l.
        (16 ≤ l.entry_size) × (l.count * l.entry_size ≤ length l.entries.now) };
}

/// The list of these sizes at the front of the bytes, which begin at `offset`, and the bytes after
/// it.
fn cut(
    offset: u64,
    bytes: &[u8],
    size: usize,
    header_size: usize,
    entry_size: usize,
) -> (SignatureList<'_>, &[u8])
    requires room { 28 + header_size ≤ size }
    requires fits { size ≤ length bytes.now }
    requires least { 16 ≤ entry_size }
    ensures list { result.0 ≡ placed offset (list_with bytes.now size header_size entry_size) }
    ensures rest { result.1.now ≡ drop size bytes.now }
{
    let (_, rest) = bytes.split_at(size);
    let (_, after_head) = bytes.split_at(28);
    let (header, entries) = after_head.split_at(header_size);
    let list = SignatureList {
        offset,
        guid: first_guid(bytes),
        header,
        entry_size,
        count: (size - (28 + header_size)) / entry_size,
        entries,
    };
    (list, rest)
}

/// The list at the front of the bytes, which begin at `offset`, and the bytes after it.
pub(crate) fn front(offset: u64, bytes: &[u8]) -> (SignatureList<'_>, &[u8])
    requires { lack_at bytes.now ≡ None }
    ensures list { result.0 ≡ placed offset (front_of bytes.now) }
    ensures rest { result.1.now ≡ drop (size_at bytes.now) bytes.now }
{
    let size = u32_at(bytes, 16) as usize;
    let header_size = u32_at(bytes, 20) as usize;
    let entry_size = u32_at(bytes, 24) as usize;
    cut(offset, bytes, size, header_size, entry_size)
}

impl<'a> SignatureList<'a> {
    /// Where the list begins, in bytes from the input's start.
    pub fn offset(&self) -> u64
        ensures { result ≡ self.now.offset }
    {
        self.offset
    }

    /// The kind that its type, SignatureType, names.
    pub fn kind(&self) -> Kind
        ensures { result ≡ kinds.kind_of self.now.list.kind }
    {
        kind_of(self.guid)
    }

    /// The SignatureHeader: a slice of the input, empty for the three known kinds.
    pub fn header(&self) -> &'a [u8]
        ensures { result.now ≡ self.now.list.header }
    {
        self.header
    }

    /// The number of entries.
    pub fn count(&self) -> usize
        ensures { result ≡ length self.now.list.entries }
    {
        self.count
    }

    /// Its entries in their order.
    pub fn entries(&self) -> Entries<'a>
        ensures { result ≡ self.now.list.entries }
    {
        Entries::of(self.count, self.entry_size, self.entries)
    }
}
