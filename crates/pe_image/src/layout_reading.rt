//! The reading of a layout.
ghost use Rattle.std.specs.Prelude.{◌≡◌, ◌+◌, ◌<◌, ◌^◌, length, sum_by, IfOk, IfErr};
ghost use Rattle.pe_image.specs.Spans.{reach, size_of};
ghost use Rattle.pe_image.specs.Places.{end_by, IsLayoutOf};
ghost use Rattle.pe_image.specs.Checks.{checks, IsRefused};
ghost use Rattle.pe_image.specs.Sources.{OnlyReads};

use crate::certificates::read_table;
use crate::extent::Extent;
use crate::fault::LayoutFault;
use crate::field::{CHECKSUM, CHECKSUM_SIZE};
use crate::front::read_front;
use crate::header::{Header, read_headers};
use crate::places::Layout;
use crate::sbat::find_text;
use crate::sections::place_sections;
use crate::source::Source;
use crate::span::Span;
use crate::spans::{greatest_end, total_size};

/// The number of bytes of the headers and the sections, and the offset where they end.
#[derive(Clone, Copy, Debug)]
struct Measured {
    size: u64,
    end: u64,
}

/// The measure of the sections and the headers before them.
fn measure(sections: &[Span], headers_end: u64) -> Measured
    requires { headers_end + sum_by size_of sections.now < 2 ^ 64 }
    ensures size { result.size ≡ headers_end + sum_by size_of sections.now }
    ensures end { result.end ≡ reach headers_end sections.now }
{
    let size = headers_end + total_size(sections);
    Measured {
        size,
        end: greatest_end(sections, headers_end),
    }
}

/// Where the hashed bytes end, for the table and the length of the file.
fn end_of(table: Option<Span>, length: u64) -> u64
    ensures { result ≡ end_by table length }
{
    match table {
        Some(table) => table.from,
        None => length,
    }
}

/// The layout of an image. Only its headers are read, and no memory is taken.
///
/// The fault is that of the first check that fails (`checks`, specs/Checks.antt), or `Read` if a
/// read failed.
pub fn layout<S: Source>(source: &mut S) -> Result<Layout, LayoutFault>
    ensures exact { IfOk result (λ places. IsLayoutOf (S.content source.old) places) }

    // Read is returned only if the source's failure count rose or was already at its maximum.
    ensures first { IfErr result (IsRefused (checks (S.content source.old))
        (S.failures source.old) (S.failures source.new)) }

    ensures reads { OnlyReads S.content S.failures source.old source.new }
{
    let front = read_front(source)?;
    let begin = front.directories.sections_begin;
    let count = front.extent.count;
    let headers_end = front.extent.headers_end;
    let mut headers = [Header::EMPTY; 96];
    read_headers(source, begin, count, &mut headers)?;
    let length = source.len();
    let sections = place_sections(&headers[..count], headers_end, length)?;
    let measured = measure(sections.as_slice(), headers_end);
    let directory = front.directories.certificate_directory;
    let table = read_table(source, directory, measured.end)?;
    let sbat = find_text(&headers[..count])?;
    let checksum = front.pe_signature + CHECKSUM;
    let gap = measured.end.saturating_sub(measured.size);
    Ok(Layout {
        checksum: Span::new(checksum, checksum + CHECKSUM_SIZE),
        certificate_directory: directory,
        headers_end,
        sections,
        sum_of_bytes_hashed: measured.size,
        image_end: end_of(table, length),
        extent: Extent::of(length, gap),
        table,
        sbat,
    })
}
