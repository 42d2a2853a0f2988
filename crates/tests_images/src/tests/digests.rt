//! Digests of images.
use super::failing::takes_few_reads;
use super::{Call, check, image};
use authenticode::{digest, sums};
use base::{Digest, Watch};
use pe_image::{Pieces, Ranges, layout, ranges};
use sha2::{Digest as Hasher, Sha256};
use std::alloc::Global;
use std::fmt::Write;
use std::test::Fail;
use testing::Slow;

/// Images, their digests and those that a signature holds. The digests are those that pesign 0.112
/// computes; with the second section first, osslsigncode 2.9; and with four directories, Python's
/// hashlib for the ranges. The others are those in a signature by osslsigncode 2.9; with four
/// directories, with a table that isn't padded and with a gap, hashlib's for the ranges.
pub(super) const DIGESTS: &str = "\
1024 * = \
aca69e4a6a15817340b124c38fb7d691e63c6e9819cd08c8246acec4c0c2e7db aca69e4a6a15817340b124c38fb7d691e63c6e9819cd08c8246acec4c0c2e7db
1024 * 84:e000 88:0b01 180:10000000 196:00000000 312:2e74657874000000 328:0002000000020000 344:0000000000000000 = \
7f2f3a07eaf2c0d4ae757e20817ee9d6845e07b219f05f213162f08095578dbe 7f2f3a07eaf2c0d4ae757e20817ee9d6845e07b219f05f213162f08095578dbe
1536 * 70:0200 348:00040000 384:0002000000020000 = \
946af9ce87335ac23cba0be1f21da35bc8ae848fc928508688f3243c17843860 946af9ce87335ac23cba0be1f21da35bc8ae848fc928508688f3243c17843860
1024 * 196:04000000 232:0102030405060708 = \
13a1ca3a4382a7322b281573c690ec54dacc60162fc0f4fe6b78cd90b6dba6cd 13a1ca3a4382a7322b281573c690ec54dacc60162fc0f4fe6b78cd90b6dba6cd
1029 * = \
0c127eab76b4e7ce10d3c286fcb122aae75396f0bc6800eb2a9124c7c4e80ec4 2c58af52ba8ed0486c7a0a522168315c0bcb192f7dc1437deed291f1ac0a5932
1080 * 232:0804000030000000 1029:000000 1032:T = \
2c58af52ba8ed0486c7a0a522168315c0bcb192f7dc1437deed291f1ac0a5932 2c58af52ba8ed0486c7a0a522168315c0bcb192f7dc1437deed291f1ac0a5932
1077 * 232:0504000030000000 1029:T = \
0c127eab76b4e7ce10d3c286fcb122aae75396f0bc6800eb2a9124c7c4e80ec4 0c127eab76b4e7ce10d3c286fcb122aae75396f0bc6800eb2a9124c7c4e80ec4
1072 * 232:0004000030000000 1024:T = \
aca69e4a6a15817340b124c38fb7d691e63c6e9819cd08c8246acec4c0c2e7db aca69e4a6a15817340b124c38fb7d691e63c6e9819cd08c8246acec4c0c2e7db
2560 * 70:0200 384:0002000000080000 = \
718b280aedf43c161adb84c332229d2b4cbdb78dc3e1719d0fe38dc8f5c14352 718b280aedf43c161adb84c332229d2b4cbdb78dc3e1719d0fe38dc8f5c14352
66560 ^ 66048:a1a2a3 66559:ff = \
c5a06f0af3f971c08fbfcab7c2b2a3e903403255efa7ad422b1a754945d786f8 c5a06f0af3f971c08fbfcab7c2b2a3e903403255efa7ad422b1a754945d786f8
140000 * 70:0200 384:409c0000a0860100 = \
8bd47dfe50db36cc1ebc2c0938c79497ae979631408653e3afd48af8c9f58826 8bd47dfe50db36cc1ebc2c0938c79497ae979631408653e3afd48af8c9f58826
131077 * 344:00fe0100 = \
da352e5e8e09d6962501e4a7eb26b4207269ed2744576bb66658cbd963249c31 c917a7a9c52fd785fe356fca4ae8286b0bbbda04266aa9c7a6a2848795d02c86
";

/// The SHA-256 of the bytes at an image's ranges, joined.
fn digest_joined(alloc: Global, bytes: &[u8], spans: Ranges) -> Result<Digest, Fail> {
    let mut joined = Vec::new(alloc);
    for span in spans {
        let part = bytes.get(span.from as usize..span.to as usize);
        joined.extend_from_slice(part.ok_or("a range past the end")?)?;
    }
    Ok(Digest::from(Sha256::digest(&joined)))
}

/// Appends the digest of an image in pieces and that to be signed, if two calls agree on the first,
/// it is the hash of a whole list, and no piece is read more often than it may.
pub fn of_digests(alloc: Global, told: &mut String, input: &str) -> Result<(), Fail> {
    let bytes = image(alloc, input)?;
    let mut reader = Slow {
        rest: &bytes,
        most: 50_000,
        calls: 0,
        fails_at: 0,
    };
    let mut source = Pieces::take(alloc, &mut reader, &mut Watch::new(), u64::MAX)?;
    let places = layout(&mut source)?;
    let found = sums(&mut source, &places)?;
    let hashed = digest(&mut source, &places)?;
    if found.digest != hashed {
        return Ok(told.push_str("two calls differ")?);
    }
    if !takes_few_reads(&bytes)? {
        return Ok(told.push_str("a piece is read again")?);
    }
    let whole = Digest::from(Sha256::digest(&bytes));
    if found.file != whole || hashed != digest_joined(alloc, &bytes, ranges(&places))? {
        return Ok(told.push_str("a hash of a whole list differs")?);
    }
    write!(told, "{} {}", found.digest, found.signing)?;
    Ok(())
}

#[test]
fn gives_the_digests_of_images(rt: HostRuntime) -> Result<(), Fail> {
    check(&rt, rt.alloc(), Call::Digests, DIGESTS)
}
