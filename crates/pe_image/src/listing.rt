//! The ranges of an image that are hashed.
ghost use Rattle.std.specs.Prelude.{◌≡◌, ◌+◌, ◌<◌, ◌≤◌, ◌++◌, ℕ, List, All, length, take};
ghost use Rattle.pe_image.specs.Spans.{nonempty, bytes_at};
ghost use Rattle.pe_image.specs.Places.{around, places_of, spans_of};
ghost use Rattle.pe_image.specs.Hashed.{hashed_bytes};

use crate::places::Layout;
use crate::span::Span;
use crate::span_list::{Ranges, push};

/// Puts the spans around CheckSum and the entry, and returns how many there are.
fn push_headers(spans: &mut [Span], checksum: Span, directory: Option<Span>, end: u64) -> usize
    requires { 3 ≤ length spans.old }
    ensures few { result ≤ 3 }
    ensures spans { take result spans.new ≡ nonempty (around checksum directory end) }
{
    let first = push(spans, 0, Span::new(0, checksum.from));
    match directory {
        None => push(spans, first, Span::new(checksum.to, end)),
        Some(entry) => {
            let second = push(spans, first, Span::new(checksum.to, entry.from));
            push(spans, second, Span::new(entry.to, end))
        }
    }
}

/// Puts the sections after the first `count` spans, and returns how many there are then.
fn push_sections(spans: &mut [Span], count: usize, sections: &[Span]) -> usize
    requires { count + length sections.now ≤ length spans.old }
    ensures few { result ≤ count + length sections.now }
    ensures spans { take result spans.new ≡ take count spans.old ++ nonempty sections.now }
{
    let mut end = count;
    for section in sections {
        end = push(spans, end, *section);
    }
    end
}

/// The spans of an image that Authenticode hashes, in that order. Spans that touch aren't joined.
/// Takes no memory.
pub fn ranges(layout: &Layout) -> Ranges
    ensures exact { result ≡ spans_of layout.now }
    ensures few { length result ≤ 100 }
    ensures full { All (λ s. s.from < s.to) result }

    // For a file with this layout, the slices at these ranges, joined, are its hashed bytes.
    ensures joined { (f : List ℕ) → layout.now ≡ places_of f → bytes_at f result ≡ hashed_bytes f }
{
    let mut spans = [Span::EMPTY; 100];
    let headers = push_headers(
        &mut spans,
        layout.checksum,
        layout.certificate_directory,
        layout.headers_end,
    );
    let sections = push_sections(&mut spans, headers, layout.sections.as_slice());
    let rest = Span::new(layout.sum_of_bytes_hashed, layout.image_end);
    let end = push(&mut spans, sections, rest);
    Ranges::of(spans, end)
}
