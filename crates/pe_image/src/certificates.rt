//! The certificate table.
ghost use Rattle.std.specs.Prelude.{◌≡◌, ◌+◌, ◌≤◌, length, None, OnOk, IfOk, IfErr, IfSome};
ghost use Rattle.pe_image.specs.Image.{sections_end};
ghost use Rattle.pe_image.specs.Checks.{first_of, table_checks, IsRefused};
ghost use Rattle.pe_image.specs.Places.{certificate_directory_of, table_of};
ghost use Rattle.pe_image.specs.Sources.{OnlyReads};

use crate::fault::LayoutFault;
use crate::number::read_u32;
use crate::source::Source;
use crate::span::Span;

/// The most bytes that the table may have.
const LONGEST_TABLE: u64 = 1_048_576;

/// The span of the certificate table, for its entry and the end of the sections.
pub(crate) fn read_table<S: Source>(
    source: &mut S,
    directory: Option<Span>,
    end: u64,
) -> Result<Option<Span>, LayoutFault>
    requires entry { directory ≡ certificate_directory_of (S.content source.old) }
    requires within { IfSome directory (λ e. e.from + 8 ≤ length (S.content source.old)) }
    requires end { end ≡ sections_end (S.content source.old) }

    ensures ok { OnOk result (first_of (table_checks (S.content source.old)) ≡ None) }
    ensures exact { IfOk result (λ table. table ≡ table_of (S.content source.old)) }

    ensures err { IfErr result (IsRefused (table_checks (S.content source.old))
        (S.failures source.old) (S.failures source.new)) }

    ensures reads { OnlyReads S.content S.failures source.old source.new }
{
    let length = source.len();
    let Some(entry) = directory else {
        return Ok(None);
    };
    let from = u64::from(read_u32(source, entry.from)?);
    let size = u64::from(read_u32(source, entry.from + 4)?);
    if size == 0 {
        return Ok(None);
    }
    if from + size != length || from < end {
        return Err(LayoutFault::Table);
    }
    if LONGEST_TABLE < size {
        return Err(LayoutFault::TooLong);
    }
    Ok(Some(Span::new(from, from + size)))
}
