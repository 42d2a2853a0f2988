//! Signature lists, read and written.
use super::inputs::spelt;
use super::{Call, check, is_beginning, narrow, refuse, tell_hex};
use base::{Digest, Guid, WriteFailed};
use siglist::{
    Entry, Kind, ListsFault, SignatureList, lists, sha256_entry, sha256_head, write_sha256,
    write_x509, write_x509_sha256, x509_sha256_entry, x509_sha256_head,
};
use std::alloc::Global;
use std::fmt::Write;
use std::test::Fail;
use testing::Narrow;

pub const OWNER: &str = "00112233-4455-6677-8899-aabbccddeeff";

/// The word of a kind.
fn word(kind: Kind) -> &'static str {
    match kind {
        Kind::Sha256 => "sha256",
        Kind::X509 => "x509",
        Kind::X509Sha256 => "x509_sha256",
        Kind::Other(_) => "other",
    }
}

/// Appends the first three bytes of an entry's owner, and its body.
fn tell_entry(alloc: Global, told: &mut String, entry: &Entry<'_>) -> Result<(), Fail> {
    told.push('[')?;
    tell_hex(alloc, told, &entry.owner.as_bytes()[..3])?;
    told.push(' ')?;
    tell_hex(alloc, told, entry.body)?;
    told.push(']')?;
    Ok(())
}

/// Appends a list's offset, kind, count, header and entries.
fn tell_list(alloc: Global, told: &mut String, list: &SignatureList<'_>) -> Result<(), Fail> {
    let offset = list.offset();
    let kind = word(list.kind());
    let count = list.count();
    write!(told, "{offset} {kind} {count} ")?;
    tell_hex(alloc, told, list.header())?;
    for entry in list.entries() {
        tell_entry(alloc, told, &entry)?;
    }
    told.push(';')?;
    Ok(())
}

/// Appends the lists in the bytes that the words spell.
pub fn of_lists(alloc: Global, told: &mut String, input: &str) -> Result<(), Fail> {
    let bytes = spelt(alloc, input)?;
    match lists(&bytes) {
        Ok(all) => {
            for list in all {
                tell_list(alloc, told, &list)?;
            }
            Ok(())
        }
        Err(fault) => refuse(told, fault.refusal(), Some(fault.place())),
    }
}

/// Lists of the least sizes, and bytes that aren't lists, each with the three sizes after its type.
const LISTS: &str = "\
G 1c000000 00000000 10000000 = 0 other 0 ;
G 1c000000 00000000 ffffffff = 0 other 0 ;
G 1d000000 01000000 10000000 00 = 0 other 0 00;
G 2c000000 00000000 10000000 G = 0 other 1 [332211 ];
G 2e000000 02000000 10000000 0708 G = 0 other 1 0708[332211 ];
X 1c000000 00000000 11000000 = 0 x509 0 ;
X 2e000000 00000000 12000000 G 3000 = 0 x509 1 [332211 3000];
D 1c000000 00000000 40000000 = 0 x509_sha256 0 ;
S 1c000000 00000000 30000000 = 0 sha256 0 ;
G 3c000000 00000000 10000000 G S = 0 other 2 [332211 ][2616c4 ];
G ffffffff 00000000 10000000 = List at 0
G 1c000000 e4ffffff 10000000 = List at 0
S 1c000000 e4ffffff 30000000 = List at 0
G 1b000000 00000000 10000000 = List at 0
G 1b000000 00000000 00000000 = List at 0
G 1c000000 01000000 10000000 00 = List at 0
G 1d000000 00000000 00000000 = List at 0
S 1d000000 01000000 30000000 00 = List at 0
X 1d000000 01000000 11000000 00 = List at 0
D 1d000000 01000000 40000000 00 = List at 0
S 1d000000 01000000 00000000 00 = List at 0
G 1c000000 00000000 00000000 = EntrySize at 0
G 1c000000 00000000 0f000000 = EntrySize at 0
S 1c000000 00000000 10000000 = EntrySize at 0
S 1c000000 00000000 31000000 = EntrySize at 0
X 1c000000 00000000 10000000 = EntrySize at 0
D 1c000000 00000000 30000000 = EntrySize at 0
D 1c000000 00000000 41000000 = EntrySize at 0
G 2d000000 00000000 10000000 G 00 = EntrySize at 0
G 1d000000 00000000 10000000 00 = EntrySize at 0
G 1c000000 00000000 10000000 G 1c000000 00000000 10000000 01 = List at 56
";

#[test]
fn reads_lists_by_their_sizes(rt: HostRuntime) -> Result<(), Fail> {
    check(&rt, rt.alloc(), Call::Lists, LISTS)
}

/// A SHA256 list of one digest, an X509_SHA256 list with a time, and a list of another type: 216
/// bytes.
const THREE: &str = "\
2616c4c14c509240aca941f9369343284c0000000000000030000000\
33221100554477668899aabbccddeeff\
aaaaaaaaaaaaaaaaaaaaaaaaaaaaaaaaaaaaaaaaaaaaaaaaaaaaaaaaaaaaaaaa\
92a4d23bc0967940b420fcf98ef103ed5c0000000000000040000000\
33221100554477668899aabbccddeeff\
bbbbbbbbbbbbbbbbbbbbbbbbbbbbbbbbbbbbbbbbbbbbbbbbbbbbbbbbbbbbbbbb\
e8070b16000000000000000000000000\
33221100554477668899aabbccddeeff300000000000000014000000\
33221100554477668899aabbccddeeff01020304";

/// The fault of its prefix of this length: the first lists end at 0, 76, 168 and 216.
fn fault_of(size: usize) -> Option<ListsFault> {
    match size {
        0 | 76 | 168 | 216 => None,
        1..76 => Some(ListsFault::List { offset: 0 }),
        77..168 => Some(ListsFault::List { offset: 76 }),
        _ => Some(ListsFault::List { offset: 168 }),
    }
}

#[test]
fn refuses_each_truncation_at_its_list(rt: HostRuntime) -> Result<(), Fail> {
    let bytes = hex::decode(rt.alloc(), THREE)?;
    for size in 0..217 {
        let fault = lists(bytes.get(..size).unwrap_or(&[])).err();
        assert!(rt; fault == fault_of(size), "{size}");
    }
    Ok(())
}

/// A SHA256 list of two digests, aa*32 and bb*32: 124 bytes.
pub const TWO: &str = "\
2616c4c14c509240aca941f9369343287c0000000000000030000000\
33221100554477668899aabbccddeeff\
aaaaaaaaaaaaaaaaaaaaaaaaaaaaaaaaaaaaaaaaaaaaaaaaaaaaaaaaaaaaaaaa\
33221100554477668899aabbccddeeff\
bbbbbbbbbbbbbbbbbbbbbbbbbbbbbbbbbbbbbbbbbbbbbbbbbbbbbbbbbbbbbbbb";

/// The fault of its prefix of this length.
fn fault_of_two(size: usize) -> Option<ListsFault> {
    match size {
        0 | 124 => None,
        _ => Some(ListsFault::List { offset: 0 }),
    }
}

#[test]
fn reads_no_beginning_of_a_list(rt: HostRuntime) -> Result<(), Fail> {
    let bytes = hex::decode(rt.alloc(), TWO)?;
    for size in 0..125 {
        let fault = lists(bytes.get(..size).unwrap_or(&[])).err();
        assert!(rt; fault == fault_of_two(size), "{size}");
    }
    Ok(())
}

/// The lists as they are written: two digests out of order, once plain and once with times of
/// zeros, and a certificate.
const WRITTEN: &str = "\
2616c4c14c509240aca941f9369343287c0000000000000030000000\
33221100554477668899aabbccddeeff\
0202020202020202020202020202020202020202020202020202020202020202\
33221100554477668899aabbccddeeff\
0101010101010101010101010101010101010101010101010101010101010101\
92a4d23bc0967940b420fcf98ef103ed9c0000000000000040000000\
33221100554477668899aabbccddeeff\
0202020202020202020202020202020202020202020202020202020202020202\
00000000000000000000000000000000\
33221100554477668899aabbccddeeff\
0101010101010101010101010101010101010101010101010101010101010101\
00000000000000000000000000000000\
a159c0a5e494a74a87b5ab155c2bf072330000000000000017000000\
33221100554477668899aabbccddeeff30053003020101";

/// The two digests, out of order.
fn digests() -> [Digest; 2] {
    [Digest::from([2; 32]), Digest::from([1; 32])]
}

/// Writes these lists.
fn write_all(owner: &Guid, writer: &mut Narrow) -> Result<(), WriteFailed> {
    let digests = digests();
    write_sha256(owner, &digests, writer)?;
    write_x509_sha256(owner, &digests, writer)?;
    write_x509(owner, b"\x30\x05\x30\x03\x02\x01\x01", writer)
}

#[test]
fn writes_lists_up_to_a_failed_write(rt: HostRuntime) -> Result<(), Fail> {
    let want = hex::decode(rt.alloc(), WRITTEN)?;
    let owner = Guid::parse(OWNER)?;
    let mut last = 0;
    for fails_at in 1..200 {
        let mut writer = narrow(rt.alloc(), 5, fails_at);
        let is_whole = write_all(&owner, &mut writer).is_ok();
        assert!(rt; is_beginning(&writer.taken, &want, is_whole));
        if !is_whole {
            last = fails_at;
        }
    }
    assert!(rt; 66 <= last && last < 199, "so many writes");
    Ok(())
}

/// Writes the first two lists part by part.
fn write_parts(owner: &Guid, taken: &mut Vec<u8>) -> Result<(), WriteFailed> {
    let [first, second] = digests();
    sha256_head(2, taken)?;
    sha256_entry(owner, &first, taken)?;
    sha256_entry(owner, &second, taken)?;
    x509_sha256_head(2, taken)?;
    x509_sha256_entry(owner, &first, taken)?;
    x509_sha256_entry(owner, &second, taken)
}

#[test]
fn writes_lists_part_by_part(rt: HostRuntime) -> Result<(), Fail> {
    let want = hex::decode(rt.alloc(), WRITTEN)?;
    let mut taken = Vec::new(rt.alloc());
    write_parts(&Guid::parse(OWNER)?, &mut taken)?;
    assert!(rt; taken.len() == 280 && want.starts_with(&taken));
    Ok(())
}
