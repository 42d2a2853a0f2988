//! Texts as numbered lines.
ghost use Rattle.std.specs.Prelude.{◌≡◌};
ghost use Rattle.base.specs.Lines as spec;

use crate::line::Parted;

/// The lines of a text with their numbers from 1. Each LF ends a line and drops one CR before it.
/// Empty lines are counted but not returned.
pub fn parted(text: &[u8]) -> Parted<'_>
    ensures { result ≡ spec.parted text.now }
{
    Parted::of(text)
}
