//! The digests of an image.
ghost use Rattle.std.specs.Prelude.{◌≡◌, ◌<◌, ◌≤◌, ◌++◌, ℕ, List, All, length, slice_range, IfOk, OnErr, OnOk};
ghost use Rattle.sha2.specs.Hashers.{Holds256};
ghost use Rattle.pe_image.specs.Hashed.{hashed_bytes};
ghost use Rattle.pe_image.specs.Places.{IsLayoutOf, places_of};
ghost use Rattle.pe_image.specs.Sources.{HaveRisen, OnlyReads};
ghost use Rattle.pe_image.specs.Spans.{EndWithin, bytes_at};
ghost use Rattle.authenticode.specs.Hashing.{image_digest, padding_of, signed_bytes};

use base::Digest;
use pe_image::{Layout, PIECE, Ranges, ReadFailed, Source, Span, ranges, table};
use sha2::{Digest as Hasher, Sha256};

/// Adds the bytes of a span to a hasher's message, piece by piece, as the source keeps them.
fn feed<S: Source>(source: &mut S, span: Span, hasher: &mut Sha256) -> Result<(), ReadFailed>
    requires order { span.from ≤ span.to }
    requires within { span.to ≤ length (S.content source.old) }
    ensures ok { OnOk result ((m : List ℕ) → Holds256 hasher.old m
        → Holds256 hasher.new (m ++ slice_range (S.content source.old) span.from span.to)) }

    ensures device { OnErr result (HaveRisen (S.failures source.old) (S.failures source.new)) }

    ensures reads { OnlyReads S.content S.failures source.old source.new }
{
    let mut piece = [0; PIECE];
    let mut at = span.from;
    while at < span.to {
        let left = PIECE as u64 - at % PIECE as u64;
        let size = (span.to - at).min(left) as usize;
        source.read_at(at, &mut piece[..size])?;
        hasher.update(&piece[..size]);
        at += size as u64;
    }
    Ok(())
}

/// Adds the bytes at ranges to a hasher's message.
pub(crate) fn feed_ranges<S: Source>(
    source: &mut S,
    ranges: Ranges,
    hasher: &mut Sha256,
) -> Result<(), ReadFailed>
    requires full { All (λ s. s.from < s.to) ranges }
    requires within { EndWithin (length (S.content source.old)) ranges }
    ensures ok { OnOk result ((m : List ℕ) → Holds256 hasher.old m
        → Holds256 hasher.new (m ++ bytes_at (S.content source.old) ranges)) }

    ensures device { OnErr result (HaveRisen (S.failures source.old) (S.failures source.new)) }

    ensures reads { OnlyReads S.content S.failures source.old source.new }
{
    for span in ranges {
        feed(source, span, hasher)?;
    }
    Ok(())
}

/// The number of bytes that a length lacks to a multiple of 8.
fn padding_size(length: u64) -> usize
    ensures value { result ≡ padding_of length }
    ensures few { result < 8 }
{
    ((8 - length % 8) % 8) as usize
}

/// If the image has no certificate table, adds the zero bytes that a signature of it covers.
pub(crate) fn pad(hasher: &mut Sha256, layout: &Layout, size: u64)
    ensures { (f : List ℕ) → layout.now ≡ places_of f → size ≡ length f
        → Holds256 hasher.old (hashed_bytes f) → Holds256 hasher.new (signed_bytes f) }
{
    if table(layout).is_none() {
        hasher.update(&[0; 8][..padding_size(size)]);
    }
}

/// The Authenticode SHA-256 digest of an image. The layout must be that of the source. Each range
/// is read once, in pieces of at most 65,536 bytes; no memory is taken.
pub fn digest<S: Source>(source: &mut S, layout: &Layout) -> Result<Digest, ReadFailed>
    requires { IsLayoutOf (S.content source.old) layout.now }
    ensures exact { IfOk result (λ digest. digest ≡ image_digest (S.content source.old)) }

    // A fault is returned only if the source's failure count rose or was already at its maximum.
    ensures device { OnErr result (HaveRisen (S.failures source.old) (S.failures source.new)) }

    ensures reads { OnlyReads S.content S.failures source.old source.new }
{
    let mut hasher = Sha256::new();
    feed_ranges(source, ranges(layout), &mut hasher)?;
    Ok(Digest::from(hasher.finalize()))
}
