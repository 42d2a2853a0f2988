//! Sources in pieces.
use super::image;
use base::Watch;
use pe_image::{Pieces, PiecesFault, Source};
use std::alloc::Global;
use std::test::Fail;
use testing::Slow;

/// The sizes that are read of 140,000 bytes: all of them, as many as three pieces have, the bytes
/// of a border, and none.
const MOST: [u64; 5] = [u64::MAX, 140_000, 131_072, 65_537, 0];

/// Whether as many bytes are taken, and no more of the reader.
fn takes(alloc: Global, bytes: &[u8], most: u64) -> Result<bool, Fail> {
    let mut reader = Slow {
        rest: bytes,
        most: 50_000,
        calls: 0,
        fails_at: 0,
    };
    let mut pieces = Pieces::take(alloc, &mut reader, &mut Watch::new(), most)?;
    let (given, left) = bytes.split_at(most.min(bytes.len() as u64) as usize);
    Ok(reader.rest == left && gives(alloc, &mut pieces, given)?)
}

/// Whether the pieces are these bytes.
fn gives(alloc: Global, pieces: &mut Pieces, bytes: &[u8]) -> Result<bool, Fail> {
    if pieces.len() != bytes.len() as u64 {
        return Ok(false);
    }
    let mut copy = vec![in alloc; 0; bytes.len()]?;
    pieces.read_at(0, &mut copy)?;
    Ok(copy.as_slice() == bytes)
}

#[test]
fn takes_as_many_bytes_as_are_asked_for(rt: HostRuntime) -> Result<(), Fail> {
    let bytes = image(rt.alloc(), "140000 *")?;
    for most in MOST {
        assert!(rt; takes(rt.alloc(), &bytes, most)?, "{most}");
    }
    Ok(())
}

#[test]
fn tells_of_each_read_of_a_reader_that_fails(rt: HostRuntime) {
    let bytes = [7; 70_000];
    for fails_at in 1..8 {
        let mut reader = Slow {
            rest: &bytes,
            most: 30_000,
            calls: 0,
            fails_at,
        };
        let fault = Pieces::take(rt.alloc(), &mut reader, &mut Watch::new(), 100_000).err();
        let wanted = if fails_at < 6 {
            Some(PiecesFault::Read)
        } else {
            None
        };
        assert!(rt; fault == wanted);
    }
}
