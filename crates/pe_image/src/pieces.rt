//! A source in memory, kept in pieces.
ghost use Rattle.std.specs.Prelude.{◌≡◌, ◌≢◌, ◌+◌, ◌*◌, ◌<◌, ◌≤◌, ◌++◌, ℕ, List, All, Err, length, slice_range, IfOk, IsErrOf, OnOk, OnErr};
ghost use Rattle.std.specs.Io.KnownBytes.{Consumes, IsAtEnd};
ghost use Rattle.std.specs.List.{flat_map};
ghost use Rattle.base.specs.Watches.{HasFailed};
ghost use Rattle.pe_image.specs.Pieces.{refusal_of};
ghost use Rattle.pe_image.specs.Sources.{HaveRisen, OnlyReads};
ghost use Rattle.pe_image.specs.declared.pieces.TheConstants.{PIECE};

use crate::source::Source;
use base::{InputFault, ReadFailed, Refusal, Watch, read_up_to};
use std::alloc::Global;
use std::io::Read;
use std::marker::Model;
use thiserror::Error;

/// The size of a piece in bytes.
pub const PIECE: usize = 65_536;

/// Why an input wasn't read into pieces.
#[derive(Clone, Copy, Debug, PartialEq, Eq, Error)]
pub enum PiecesFault {
    /// The reader failed or was interrupted.
    #[error("a read failed")]
    Read,
    /// Memory was refused.
    #[error("memory was refused")]
    NoMemory,
}

impl PiecesFault {
    /// Its row in the table of refusals.
    pub fn refusal(self) -> Refusal
        ensures { result ≡ refusal_of self }
    {
        match self {
            PiecesFault::Read => Refusal::Read,
            PiecesFault::NoMemory => Refusal::NoMemory,
        }
    }
}

/// Bytes in memory, in vectors of 65,536 bytes and a last one of fewer. A contract sees the list of
/// all bytes.
#[derive(Drop)]
pub struct Pieces {
    full: Vec<Vec<u8>>,
    last: Vec<u8>,
    size: u64,
}

impl Model for Pieces {
    ghost Value = { List ℕ };

    ghost view = { λ p. flat_map (λ piece. piece.items) p.full.items ++ p.last.items };

    ghost invariant = { λ p. (All (λ piece. length piece.items ≡ PIECE) p.full.items)
        × (length p.last.items < PIECE)
        × (p.size ≡ PIECE * length p.full.items + length p.last.items) };
}

/// Reads `most` bytes, or fewer if the input ends.
fn read_piece<R: Read>(
    alloc: Global,
    reader: &mut R,
    watch: &mut Watch,
    most: usize,
) -> Result<Vec<u8>, PiecesFault>
    ensures ok { IfOk result (λ piece.
        Consumes (R.remaining reader.old) (R.remaining reader.new) piece.items) }
    ensures bound { IfOk result (λ piece. length piece.items ≤ most) }
    ensures end { IfOk result (λ piece. length piece.items < most
        → IsAtEnd (R.remaining reader.new)) }

    ensures device { IsErrOf result PiecesFault.Read → HasFailed watch.new }
    ensures steady { result ≢ Err PiecesFault.Read → watch.new ≡ watch.old }
{
    match read_up_to(alloc, reader, watch, most) {
        Ok(piece) => Ok(piece),
        Err(InputFault::Read) => Err(PiecesFault::Read),
        Err(InputFault::NoMemory) => Err(PiecesFault::NoMemory),
        Err(InputFault::TooLong) => unreachable!(),
    }
}

impl Pieces {
    /// Reads until `most` bytes have come or the input ends, and no byte after them. An interrupted
    /// read is a fault and isn't retried; no read follows a failed one. Takes memory for what it
    /// reads, in pieces of 65,536 bytes.
    ///
    /// `Read`: the reader failed, or a read of this watch had failed before. `NoMemory`: memory was
    /// refused; no read failed.
    pub fn take<R: Read>(
        alloc: Global,
        reader: &mut R,
        watch: &mut Watch,
        most: u64,
    ) -> Result<Pieces, PiecesFault>
        ensures whole { IfOk result (λ bytes.
            Consumes (R.remaining reader.old) (R.remaining reader.new) bytes) }
        ensures bound { IfOk result (λ bytes. length bytes ≤ most) }
        ensures end { IfOk result (λ bytes. length bytes < most
            → IsAtEnd (R.remaining reader.new)) }

        ensures device { IsErrOf result PiecesFault.Read → HasFailed watch.new }
        ensures steady { result ≢ Err PiecesFault.Read → watch.new ≡ watch.old }
    {
        let mut full: Vec<Vec<u8>> = Vec::new(alloc);
        let mut size = 0;
        loop {
            let room = (most - size).min(PIECE as u64) as usize;
            let piece = read_piece(alloc, reader, watch, room)?;
            size += piece.len() as u64;
            if piece.len() < PIECE {
                return Ok(Pieces {
                    full,
                    last: piece,
                    size,
                });
            }
            if full.push(piece).is_err() {
                return Err(PiecesFault::NoMemory);
            }
        }
    }

    /// The bytes from an offset to the end of its piece.
    fn rest_of_piece(&self, at: u64) -> &[u8]
        requires { at < length self.now }
        ensures some { 0 < length result.now }
        ensures exact { result.now ≡ slice_range self.now at (at + length result.now) }
    {
        let index = (at / PIECE as u64) as usize;
        let from = (at % PIECE as u64) as usize;
        if index < self.full.len() {
            &self.full[index][from..]
        } else {
            &self.last[from..]
        }
    }
}

impl Source for Pieces {
    ghost content = { λ bytes. bytes };

    ghost failures = { λ _. 0 };

    fn len(&self) -> u64 {
        self.size
    }

    fn failures(&self) -> u64 {
        0
    }

    fn read_at(&mut self, at: u64, out: &mut [u8]) -> Result<(), ReadFailed>
        requires { at + length out.old ≤ length self.old }
        ensures always { result ≡ Ok tt }
        ensures ok { OnOk result (out.new ≡ slice_range self.old at (at + length out.old)) }

        ensures device { OnErr result (HaveRisen 0 0) }
        ensures steady { OnOk result (◌≡◌ {A = ℕ} 0 0) }

        ensures reads { OnlyReads (λ bytes. bytes) (λ _. 0) self.old self.new }
    {
        let end = self.len();
        prove!(at <= end);
        let mut done = 0;
        while done < out.len() {
            let rest = self.rest_of_piece(at + done as u64);
            let count = rest.len().min(out.len() - done);
            out[done..done + count].copy_from_slice(&rest[..count]);
            done += count;
        }
        Ok(())
    }
}
