//! Places in a file.
ghost use Rattle.std.specs.Prelude.{◌≡◌};
ghost use Rattle.pe_image.specs.Spans.{span};

/// A half-open span of a file: the bytes from `from` up to but not including `to`. Offsets count
/// bytes from the file's beginning.
#[derive(Clone, Copy, Debug, PartialEq, Eq)]
pub struct Span {
    pub from: u64,
    pub to: u64,
}

impl Span {
    /// No byte, at the beginning.
    pub(crate) const EMPTY: Span = Span { from: 0, to: 0 };

    /// The bytes from one offset up to another.
    pub(crate) fn new(from: u64, to: u64) -> Span
        ensures { result ≡ span from to }
    {
        Span { from, to }
    }
}
