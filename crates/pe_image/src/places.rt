//! The layout of an image.
ghost use Rattle.std.specs.Prelude.{◌≡◌};
ghost use Rattle.pe_image.specs.Places.{Places};

use crate::extent::Extent;
use crate::sections::Sections;
use crate::span::Span;
use std::marker::Model;

/// The places of an image's parts. A contract sees all of them.
#[derive(Debug, Drop)]
pub struct Layout {
    pub(crate) checksum: Span,
    pub(crate) certificate_directory: Option<Span>,
    pub(crate) headers_end: u64,
    pub(crate) sections: Sections,
    pub(crate) sum_of_bytes_hashed: u64,
    pub(crate) image_end: u64,
    pub(crate) extent: Extent,
    pub(crate) table: Option<Span>,
    pub(crate) sbat: Option<Span>,
}

impl Model for Layout {
    ghost Value = { Places };

    ghost view = { λ l. record {
      checksum = l.checksum;
      certificate_directory = l.certificate_directory;
      headers_end = l.headers_end;
      sections = l.sections;
      sum_of_bytes_hashed = l.sum_of_bytes_hashed;
      image_end = l.image_end;
      length = l.extent.length;
      gap = l.extent.gap;
      table = l.table;
      sbat = l.sbat;
    } };
}

/// The length of the file, and of its gap.
pub fn lengths(layout: &Layout) -> Extent
    ensures { result ≡ record { length = layout.now.length; gap = layout.now.gap } }
{
    layout.extent
}

/// The number of bytes before the sections' end that are in no header and in no section.
pub fn gap(layout: &Layout) -> u64
    ensures { result ≡ layout.now.gap }
{
    layout.extent.gap()
}

/// The span of the certificate table, if the image has one.
pub fn table(layout: &Layout) -> Option<Span>
    ensures { result ≡ layout.now.table }
{
    layout.table
}

/// The span of the text of the section `.sbat`, if it has any bytes.
pub fn sbat_range(layout: &Layout) -> Option<Span>
    ensures { result ≡ layout.now.sbat }
{
    layout.sbat
}
