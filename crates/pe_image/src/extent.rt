//! Lengths of an image's file.
ghost use Rattle.std.specs.Prelude.{◌≡◌, ◌⊎◌, ◌<◌, ◌≤◌, MatchOption};
ghost use Rattle.pe_image.specs.Extents.{Lengths};
ghost use Rattle.base.specs.Limits.{longest_image};

use base::LONGEST_IMAGE;
use std::marker::Model;

/// The length of an image's file in bytes, at most `LONGEST_IMAGE`, and of its gap: the bytes
/// before the sections' end that are in no header and in no section.
#[derive(Clone, Copy, Debug, PartialEq, Eq)]
pub struct Extent {
    length: u64,
    gap: u64,
}

impl Model for Extent {
    ghost Value = { Lengths };

    ghost view = { λ e. record { length = e.length; gap = e.gap } };

    ghost invariant = { λ e. (e.gap ≤ e.length) × (e.length ≤ longest_image) };

    ghost inverse = { λ lengths. record { length = lengths.length; gap = lengths.gap } };
}

impl Extent {
    /// The lengths of a file of at most `LONGEST_IMAGE` bytes and of its gap, which is no longer
    /// than the file.
    pub(crate) fn of(length: u64, gap: u64) -> Extent
        requires inside { gap ≤ length }
        requires few { length ≤ longest_image }
        ensures { result ≡ record { length = length; gap = gap } }
    {
        Extent { length, gap }
    }

    /// Both lengths, or `None` if the gap is longer than the file, or the file longer than
    /// `LONGEST_IMAGE`.
    pub fn new(length: u64, gap: u64) -> Option<Extent>
        ensures { MatchOption result ((length < gap) ⊎ (longest_image < length))
            (λ extent. extent ≡ record { length = length; gap = gap }) }
    {
        if length < gap {
            return None;
        }
        if LONGEST_IMAGE < length {
            return None;
        }
        Some(Extent::of(length, gap))
    }

    /// The file's length in bytes.
    pub fn length(self) -> u64
        ensures value { result ≡ self.length }
        ensures limit { result ≤ longest_image }
    {
        self.length
    }

    /// The count of bytes in no header and in no section, at most the length of the file.
    pub fn gap(self) -> u64
        ensures value { result ≡ self.gap }
        ensures limit { result ≤ self.length }
    {
        self.gap
    }
}
