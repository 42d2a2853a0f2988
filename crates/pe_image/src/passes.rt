//! The ranges of an image, in passes over the file.
ghost use Rattle.std.specs.Prelude.{◌≡◌, ◌<◌, ◌++◌, ℕ, List, All, length};
ghost use Rattle.pe_image.specs.Hashed.{hashed_bytes};
ghost use Rattle.pe_image.specs.Passes.{first_pass_of, second_pass_of};
ghost use Rattle.pe_image.specs.Places.{IsLayoutOf, places_of};
ghost use Rattle.pe_image.specs.Spans.{StandBetween, bytes_at};

use crate::listing::ranges;
use crate::places::{Layout, gap};
use crate::span_list::Ranges;

/// The ranges that one pass over the file reads in order: all of them, or, if there is a gap, all
/// but the last, which begins before the sections end.
pub fn first_pass(layout: &Layout) -> Ranges
    ensures exact { result ≡ first_pass_of layout.now }
    ensures full { All (λ s. s.from < s.to) result }
    ensures ascending { (f : List ℕ) → IsLayoutOf f layout.now
        → StandBetween 0 (length f) result }
{
    let all = ranges(layout);
    if gap(layout) == 0 {
        all
    } else {
        all.but_last()
    }
}

/// The ranges left for a second pass: the last one if there is a gap, otherwise none. Takes no
/// memory.
pub fn second_pass(layout: &Layout) -> Ranges
    ensures exact { result ≡ second_pass_of layout.now }
    ensures full { All (λ s. s.from < s.to) result }

    // For a file with this layout, the slices at the ranges of both passes, joined, are its hashed
    // bytes.
    ensures joined { (f : List ℕ) → layout.now ≡ places_of f
        → bytes_at f (first_pass_of layout.now) ++ bytes_at f result ≡ hashed_bytes f }
{
    let all = ranges(layout);
    if gap(layout) == 0 {
        all.none()
    } else {
        all.last_only()
    }
}
