//! Bytes that a peer sends after its request, read and dropped.
ghost use Rattle.std.specs.Prelude.{◌≡◌, ℕ, List, ◌≤◌, length};
ghost use Rattle.std.specs.Io.KnownBytes.{Consumes};

use crate::Waits;
use crate::allowance::time_left;
use std::io::Read;
use std::time::{Clock, Instant};

/// How long what a peer still sends is read off, in seconds.
const SECONDS: u64 = 2;

/// The most bytes of it that are read: a mebibyte.
const MOST: usize = 1_048_576;

/// The most bytes of one read.
const PIECE: usize = 8192;

/// Reads a piece, in what is left of the time that began at an instant. 0 where nothing is left,
/// where the input has ended, and where a call fails.
fn read_piece<C: Clock, R: Read + Waits>(
    clock: &C,
    begun: Instant,
    reader: &mut R,
    piece: &mut [u8],
) -> usize
    ensures bound { result ≤ length piece.old }
    ensures bytes { (bs : List ℕ) × Consumes (R.remaining reader.old) (R.remaining reader.new) bs
        × (length bs ≡ result) }
{
    let Ok(now) = Instant::now(clock) else {
        return 0;
    };
    let Some(left) = time_left(begun, SECONDS, now) else {
        return 0;
    };
    if reader.bound_reads(left).is_err() {
        return 0;
    }
    reader.read(piece).unwrap_or(0)
}

/// Reads what a peer still sends, and drops it, until the peer ends its side: for two seconds at
/// most, and a mebibyte.
pub fn read_off<C: Clock, R: Read + Waits>(clock: &C, reader: &mut R)
    ensures { (bs : List ℕ) × Consumes (R.remaining reader.old) (R.remaining reader.new) bs
        × (length bs ≤ 1048576) }
{
    let Ok(begun) = Instant::now(clock) else {
        return;
    };
    let mut piece = [0; PIECE];
    let mut rest = MOST;
    while rest > 0 {
        let room = rest.min(PIECE);
        let count = read_piece(clock, begun, reader, &mut piece[..room]);
        if count == 0 {
            return;
        }
        rest -= count;
    }
}
