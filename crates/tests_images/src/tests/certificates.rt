//! Certificates that a table carries.
use super::{Call, TABLE, check, tell_hex};
use authenticode::{CarriedFault, carried};
use base::Digest;
use sha2::{Digest as _, Sha256};
use std::alloc::{AllocError, Global};
use std::test::Fail;

/// Tables in hexadecimal, `T` for the one of one certificate, and the first four bytes of the
/// digests that they carry: the SHA-256 of 3003020101 and of 3003020102, as sha256sum gives them.
/// The words before each name it.
const CARRIED: &str = "\
no table:  = none
zeros alone: 000000000000000000 = none
one certificate: T = 1b65f68a
an entry of another type: 0900000000020100ff00000000000000 = none
an entry of another type before: 0900000000010300ff00000000000000 T = 1b65f68a
a certificate twice: T T = 1b65f68a
two certificates in descending order: 3000000000020200302606092a864886f70d010702a019301702010131003000a00e3005300302010230053003020101 = 1b65f68a 714f7108
the same in two entries: 2900000000020200301f06092a864886f70d010702a012301002010131003000a0073005300302010200000000000000 T = 1b65f68a 714f7108
an element with another tag beside it: 2c00000000020200302206092a864886f70d010702a015301302010131003000a00aa101ff3005300302010100000000 = 1b65f68a
no certificate in the set: 2200000000020200301806092a864886f70d010702a00b300902010131003000a000000000000000 = none
a body that ends behind the content: 2000000000020200301606092a864886f70d010702a009300702010131003000 = none
another tag in place of the certificates: 2300000000020200301906092a864886f70d010702a00c300a02010131003000a101ff0000000000 = none
opaque bytes behind each part: 2e00000000020200302206092a864886f70d010702a015301302010131003000a00930073003020101ffffffffff0000 = 1b65f68a
lengths that could be shorter: 330000000002020030812806092a864886f70d010702a0811a30811702810101318100308400000000a08107300530030201010000000000 = 1b65f68a
the length of an entry cuts its body: 2a00000000020200302106092a864886f70d010702a014301202010131003000a0073005300302010131000000000000 = Der
the length of an entry passes the end: 3100000000020200302106092a864886f70d010702a014301202010131003000a0073005300302010131000000000000 = Table
the length of an entry cuts its header: 0700000000020200302106092a864886f70d010702a014301202010131003000a0073005300302010131000000000000 = Table
no length, and a byte behind: 000000000000000001 = Table
a byte behind the last entry: T 01 = Table
the certificates pass their parent: 2b00000000020200302106092a864886f70d010702a014301202010131003000a0083005300302010131000000000000 = Der
a body whose length lies: 0e0000000002020030843fffffff0000 = Der
no body: 0800000000020200 = Der
a set in place of ContentInfo: 2900000000020200311f06092a864886f70d010702a012301002010131003000a0073005300302010100000000000000 = Der
no contentType: 1500000000020200300ba009300702010131003000000000 = Der
no digestAlgorithms: 2700000000020200301d06092a864886f70d010702a010300e0201013000a0073005300302010100 = Der
certificates that an element doesn't fill: 2a00000000020200302006092a864886f70d010702a013301102010131003000a0083005300302010130000000000000 = Der
a certificate without content: 2400000000020200301a06092a864886f70d010702a00d300b02010131003000a002300000000000 = Der
a certificate that begins with a set: 2600000000020200301c06092a864886f70d010702a00f300d02010131003000a004300231000000 = Der
a broken body before a broken header: 0900000000020200050000000000000001 = Der
a broken header before a broken body: 070000000000000009000000000202000500000000000000 = Table
";

/// Appends the first four bytes of each digest.
fn tell_digests(alloc: Global, told: &mut String, digests: &[Digest]) -> Result<(), Fail> {
    let mut before = "";
    for digest in digests {
        told.push_str(before)?;
        tell_hex(alloc, told, &digest.as_bytes()[..4])?;
        before = " ";
    }
    Ok(())
}

/// Appends the digests that a table carries.
fn tell_carried(alloc: Global, told: &mut String, table: &[u8]) -> Result<(), Fail> {
    let found = match carried(alloc, table) {
        Ok(found) => found,
        Err(fault) => return Ok(told.push_str(fault.refusal().name())?),
    };
    if found.is_empty() {
        return Ok(told.push_str("none")?);
    }
    tell_digests(alloc, told, &found)
}

/// Appends the digests that a table carries; the text before the colon is its name.
pub fn of_carried(alloc: Global, told: &mut String, input: &str) -> Result<(), Fail> {
    let (_, words) = input.split_once(':').ok_or("no name")?;
    let mut table = Vec::new(alloc);
    for word in words.split_whitespace() {
        let digits = if word == "T" { TABLE } else { word };
        table.extend_from_slice(&hex::decode(alloc, digits)?)?;
    }
    tell_carried(alloc, told, &table)
}

#[test]
fn gives_the_certificates_that_a_table_carries(rt: HostRuntime) -> Result<(), Fail> {
    check(&rt, rt.alloc(), Call::Carried, CARRIED)
}

/// The first certificate that a table carries.
fn first_of(alloc: Global, table: &[u8]) -> Result<Option<Digest>, CarriedFault> {
    Ok(carried(alloc, table)?.first().copied())
}

#[test]
fn takes_a_cut_table_only_where_the_entry_is_whole(rt: HostRuntime) -> Result<(), Fail> {
    let table = hex::decode(rt.alloc(), TABLE)?;
    let whole = first_of(rt.alloc(), &table);
    for size in 0..49 {
        let wanted = match size {
            0 => Ok(None),
            1..43 => Err(CarriedFault::Table),
            _ => whole,
        };
        assert!(rt; first_of(rt.alloc(), table.get(..size).unwrap_or(&[])) == wanted);
    }
    Ok(())
}

/// An element of a tag, with its length in four bytes and its content in two parts.
fn wrapped(alloc: Global, tag: u8, front: &[u8], rest: &[u8]) -> Result<Vec<u8>, AllocError> {
    let size = front.len().min(0xff) + rest.len().min(0xff_ffff);
    let mut element = Vec::new(alloc);
    element.extend_from_slice(&[tag, 0x84])?;
    element.extend_from_slice(&(size as u32).to_be_bytes())?;
    element.extend_from_slice(front)?;
    element.extend_from_slice(rest)?;
    Ok(element)
}

/// The body of an entry that carries this many certificates, no two of them alike.
fn body_of(alloc: Global, count: u8) -> Result<Vec<u8>, AllocError> {
    let mut row = Vec::new(alloc);
    for number in 0..count {
        row.extend_from_slice(&[0x30, 5, 0x30, 3, 2, 1, number])?;
    }
    let certificates = wrapped(alloc, 0xa0, b"", &row)?;
    let signed = wrapped(alloc, 0x30, b"\x02\x01\x01\x31\x00\x30\x00", &certificates)?;
    let content = wrapped(alloc, 0xa0, b"", &signed)?;
    wrapped(alloc, 0x30, b"\x06\x00", &content)
}

/// A table whose one entry carries this many certificates, with some bytes after it.
fn table_of(alloc: Global, count: u8, behind: &[u8]) -> Result<Vec<u8>, AllocError> {
    let body = body_of(alloc, count)?;
    let size = body.len().min(0xff_ffff) + 8;
    let mut table = Vec::new(alloc);
    table.extend_from_slice(&(size as u32).to_le_bytes())?;
    table.extend_from_slice(b"\x00\x02\x02\x00")?;
    table.extend_from_slice(&body)?;
    table.resize(size.next_multiple_of(8), 0)?;
    table.extend_from_slice(behind)?;
    Ok(table)
}

/// The SHA-256 of the 64 digests, sorted and joined, by sha256sum.
const JOINED: &str = "460f51759b16601ed216fbb877b089bc74c198d35a1fd4498284005b4697fc82";

/// The digest of digests, joined.
fn digest_of(digests: &[Digest]) -> Digest {
    let mut hasher = Sha256::new();
    for digest in digests {
        hasher.update(digest.as_bytes());
    }
    Digest::from(hasher.finalize())
}

#[test]
fn takes_64_different_certificates(rt: HostRuntime) -> Result<(), Fail> {
    let table = table_of(rt.alloc(), 64, &[])?;
    let found = carried(rt.alloc(), &table)?;
    assert!(rt; found.len() == 64);
    assert!(rt; digest_of(&found).text().as_slice() == JOINED.as_bytes());
    Ok(())
}

#[test]
fn takes_no_65_certificates(rt: HostRuntime) -> Result<(), Fail> {
    let long = table_of(rt.alloc(), 65, &[])?;
    assert!(rt; first_of(rt.alloc(), &long) == Err(CarriedFault::TooLong));
    let broken = table_of(rt.alloc(), 65, b"\x08\x00\x00\x00\x00\x02\x02\x00")?;
    assert!(rt; first_of(rt.alloc(), &broken) == Err(CarriedFault::Der));
    Ok(())
}
