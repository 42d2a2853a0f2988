//! All hashes of an image in one pass over its file.
ghost use Rattle.std.specs.Prelude.{◌≡◌, ◌+◌, ◌<◌, ◌^◌, ◌++◌, ℕ, List, length, slice_range, IfOk, OnErr};
ghost use Rattle.sha2.specs.Hashers.{Holds256};
ghost use Rattle.sha2.specs.Sha256.{sha256};
ghost use Rattle.pe_image.specs.Passes.{first_pass_of};
ghost use Rattle.pe_image.specs.Places.{IsLayoutOf};
ghost use Rattle.pe_image.specs.Sources.{HaveRisen, OnlyReads};
ghost use Rattle.pe_image.specs.Spans.{bytes_at};
ghost use Rattle.authenticode.specs.Hashing.{bytes_between, image_digest, signed_digest};

use crate::hashing::{feed_ranges, pad};
use crate::image_sums::Sums;
use base::Digest;
use pe_image::{Layout, PIECE, ReadFailed, Source, first_pass, second_pass};
use sha2::{Digest as Hasher, Sha256};

/// Adds the bytes that a piece of the file, from an offset on, shares with the ranges of the first
/// pass.
fn feed_piece(hasher: &mut Sha256, layout: &Layout, at: u64, piece: &[u8])
    requires { at + length piece.now < 2 ^ 64 }
    ensures { (f m : List ℕ) → piece.now ≡ slice_range f at (at + length piece.now)
        → Holds256 hasher.old m → Holds256 hasher.new
        (m ++ bytes_between f at (at + length piece.now) (first_pass_of layout.now)) }
{
    let end = at + piece.len() as u64;
    for span in first_pass(layout) {
        let begin = span.from.max(at);
        let stop = span.to.min(end);
        if begin < stop {
            hasher.update(&piece[(begin - at) as usize..(stop - at) as usize]);
        }
    }
}

/// Two running hashes: one of the file, one of the ranges.
struct Running {
    file: Sha256,
    ranges: Sha256,
}

/// The hashes of the file and of the ranges of the first pass, reading each piece once.
fn hash_pieces<S: Source>(source: &mut S, layout: &Layout) -> Result<Running, ReadFailed>
    requires { IsLayoutOf (S.content source.old) layout.now }
    ensures file { IfOk result (λ running. Holds256 running.file (S.content source.old)) }
    ensures ranges { IfOk result (λ running. Holds256 running.ranges
        (bytes_at (S.content source.old) (first_pass_of layout.now))) }

    ensures device { OnErr result (HaveRisen (S.failures source.old) (S.failures source.new)) }

    ensures reads { OnlyReads S.content S.failures source.old source.new }
{
    let mut file = Sha256::new();
    let mut ranges = Sha256::new();
    let mut piece = [0; PIECE];
    let end = source.len();
    let mut at = 0;
    while at < end {
        let size = (end - at).min(PIECE as u64) as usize;
        source.read_at(at, &mut piece[..size])?;
        file.update(&piece[..size]);
        feed_piece(&mut ranges, layout, at, &piece[..size]);
        at += size as u64;
    }
    Ok(Running { file, ranges })
}

/// The SHA-256 of a file, its Authenticode digest and the digest that a signature of it holds. The
/// layout must be that of the source. Each piece of 65,536 bytes is read once, and if there is a
/// gap the last range once more. No memory is taken.
pub fn sums<S: Source>(source: &mut S, layout: &Layout) -> Result<Sums, ReadFailed>
    requires { IsLayoutOf (S.content source.old) layout.now }
    ensures file { IfOk result (λ sums. sums.file ≡ sha256 (S.content source.old)) }
    ensures digest { IfOk result (λ sums. sums.digest ≡ image_digest (S.content source.old)) }
    ensures signing { IfOk result (λ sums. sums.signing ≡ signed_digest (S.content source.old)) }

    // A fault is returned only if the source's failure count rose or was already at its maximum.
    ensures device { OnErr result (HaveRisen (S.failures source.old) (S.failures source.new)) }

    ensures reads { OnlyReads S.content S.failures source.old source.new }
{
    let Running {
        file,
        ranges: mut plain,
    } = hash_pieces(source, layout)?;
    feed_ranges(source, second_pass(layout), &mut plain)?;
    let Ok(mut padded) = plain.clone() else {
        unreachable!()
    };
    pad(&mut padded, layout, source.len());
    Ok(Sums {
        file: Digest::from(file.finalize()),
        digest: Digest::from(plain.finalize()),
        signing: Digest::from(padded.finalize()),
    })
}
