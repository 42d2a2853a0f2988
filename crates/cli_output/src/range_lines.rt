//! The lines of an image's ranges.
ghost use Rattle.std.specs.Prelude.{◌≡◌, ◌≢◌, ◌⊎◌, IfErr, OnErr, OnOk, flat_map};
ghost use Rattle.std.specs.Io.KnownBytes.{Appends, Keeps};
ghost use Rattle.base.specs.Output.{AppendsBeginning};
ghost use Rattle.base.specs.declared.refusal.Refusal.TheVariants as refusals;
ghost use Rattle.pe_image.specs.Checks.{IsLaid};
ghost use Rattle.pe_image.specs.Places.{places_of};
ghost use Rattle.pe_image.specs.Sources.{OnlyReads};
ghost use Rattle.cli_output.specs.Faults.{row_of};
ghost use Rattle.cli_output.specs.Listings.{IsUnlaid, gap_line, range_line, ranges_lines};

use crate::fault::Fault;
use base::{WriteFailed, put_each};
use itoa::Buffer;
use pe_image::{Layout, Ranges, Source, Span, gap, layout, ranges};
use std::io::Write;

/// Writes the line of a range.
#[tactic(auto, unfolding(crate::specs::Listings::range_line))]
fn put_range<W: Write>(span: Span, writer: &mut W) -> Result<(), WriteFailed>
    ensures ok { OnOk result (Appends (W.contents writer.old) (W.contents writer.new)
        (range_line span)) }
    ensures err { OnErr result (AppendsBeginning (W.contents writer.old) (W.contents writer.new)
        (range_line span)) }
{
    let mut digits = Buffer::new();
    let from = digits.format(span.from).as_bytes();
    let mut digits = Buffer::new();
    let to = digits.format(span.to).as_bytes();
    put_each(&[from, b"-", to, b"\n"], writer)
}

/// Writes a line for each range.
fn put_ranges<W: Write>(spans: Ranges, writer: &mut W) -> Result<(), WriteFailed>
    ensures ok { OnOk result (Appends (W.contents writer.old) (W.contents writer.new)
        (flat_map range_line spans)) }
    ensures err { OnErr result (AppendsBeginning (W.contents writer.old) (W.contents writer.new)
        (flat_map range_line spans)) }
{
    for span in spans {
        put_range(span, writer)?;
    }
    Ok(())
}

/// Writes the line of a gap.
#[tactic(auto, unfolding(crate::specs::Listings::gap_line))]
fn put_gap<W: Write>(gap: u64, writer: &mut W) -> Result<(), WriteFailed>
    ensures ok { OnOk result (Appends (W.contents writer.old) (W.contents writer.new)
        (gap_line gap)) }
    ensures err { OnErr result (AppendsBeginning (W.contents writer.old) (W.contents writer.new)
        (gap_line gap)) }
{
    let mut digits = Buffer::new();
    let gap = digits.format(gap).as_bytes();
    put_each(&[b"gap ", gap, b"\n"], writer)
}

/// Writes the lines of an image of this layout.
fn put_places<W: Write>(places: &Layout, writer: &mut W) -> Result<(), WriteFailed>
    ensures ok { OnOk result (Appends (W.contents writer.old) (W.contents writer.new)
        (ranges_lines places.now)) }
    ensures err { OnErr result (AppendsBeginning (W.contents writer.old) (W.contents writer.new)
        (ranges_lines places.now)) }
{
    put_ranges(ranges(places), writer)?;
    put_gap(gap(places), writer)
}

/// Writes a line `FROM-TO` for each range of the image that Authenticode hashes, half-open, in
/// order, and then `gap N`. Nothing is written for an image that is refused.
pub fn print_ranges<S: Source, W: Write>(source: &mut S, writer: &mut W) -> Result<(), Fault>
    ensures ok { OnOk result (Appends (W.contents writer.old) (W.contents writer.new)
        (ranges_lines (places_of (S.content source.old)))) }
    ensures laid { OnOk result (IsLaid (S.content source.old)) }

    ensures err { OnErr result (AppendsBeginning (W.contents writer.old) (W.contents writer.new)
        (ranges_lines (places_of (S.content source.old)))) }
    ensures first { IfErr result (λ fault. fault ≡ row_of refusals.Write ⊎ IsUnlaid
        (S.content source.old) (S.failures source.old) (S.failures source.new) fault) }
    ensures refused { IfErr result (λ fault. fault ≢ row_of refusals.Write
        → Keeps (W.contents writer.old) (W.contents writer.new)) }

    ensures reads { OnlyReads S.content S.failures source.old source.new }
{
    let places = layout(source)?;
    put_places(&places, writer)?;
    Ok(())
}
