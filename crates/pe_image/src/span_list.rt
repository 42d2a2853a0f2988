//! The ranges of a file that are hashed.
ghost use Rattle.std.specs.Prelude.{◌≡◌, ◌+◌, ◌-◌, ◌<◌, ◌≤◌, ◌++◌, ◌∷◌, List, [], length, take, drop};
ghost use Rattle.std.specs.Iterator.{YieldsFirst, item_count};
ghost use Rattle.pe_image.specs.Spans.{nonempty};
ghost use Rattle.pe_image.specs.declared.span.Span.{Span};

use crate::span::Span;
use std::marker::Model;

/// Spans of a file, in the order in which they are hashed. A contract sees the list of
/// those that are left.
#[derive(Debug, Drop)]
pub struct Ranges {
    spans: [Span; 100],
    next: usize,
    end: usize,
}

impl Model for Ranges {
    ghost Value = { List Span };

    ghost view = { λ r. drop r.next (take r.end r.spans) };

    ghost invariant = { λ r. (r.next ≤ r.end) × (r.end ≤ 100) × (length r.spans ≡ 100) };
}

impl Iterator for Ranges {
    type Item = Span;

    ghost next_gives = { YieldsFirst (λ spans. spans) };

    ghost remaining = { item_count (λ spans. spans) };

    fn next(&mut self) -> Option<Span> {
        if self.next == self.end {
            return None;
        }
        let span = self.spans[self.next];
        self.next += 1;
        Some(span)
    }
}

/// Puts a span after the first `count`, unless it is empty, and returns how many there are then.
pub(crate) fn push(spans: &mut [Span], count: usize, span: Span) -> usize
    requires { count < length spans.old }
    ensures more { result ≤ count + 1 }
    ensures spans { take result spans.new ≡ take count spans.old ++ nonempty (span ∷ []) }
{
    if span.from < span.to {
        spans[count] = span;
        count + 1
    } else {
        count
    }
}

impl Ranges {
    /// The first `end` spans.
    pub(crate) fn of(spans: [Span; 100], end: usize) -> Self
        requires { end ≤ 100 }
        ensures { result ≡ take end spans }
    {
        Ranges {
            spans,
            next: 0,
            end,
        }
    }

    /// All but the last.
    pub(crate) fn but_last(self) -> Self
        ensures { result ≡ take (length self - 1) self }
    {
        Ranges {
            end: self.end.saturating_sub(1).max(self.next),
            ..self
        }
    }

    /// The last alone.
    pub(crate) fn last_only(self) -> Self
        ensures { result ≡ drop (length self - 1) self }
    {
        Ranges {
            next: self.end.saturating_sub(1).max(self.next),
            ..self
        }
    }

    /// None of them.
    pub(crate) fn none(self) -> Self
        ensures { result ≡ drop (length self) self }
    {
        Ranges {
            next: self.end,
            ..self
        }
    }
}
