//! The section `.sbat`.
ghost use Rattle.std.specs.Prelude.{◌≡◌, Some, None, OnOk, IfOk, IfErr};
ghost use Rattle.pe_image.specs.Checks.{first_of, sbat_checks};
ghost use Rattle.pe_image.specs.Sbat.{is_sbat, text_size, text_at, sbat_count, sbat_section};

use crate::fault::LayoutFault;
use crate::header::Header;
use crate::span::Span;

/// The most bytes that the text may have.
const LONGEST_TEXT: u64 = 65536;

/// Whether the section has the name `.sbat`.
fn has_name(header: &Header) -> bool
    ensures { result ≡ is_sbat header.now }
{
    header.name == *b".sbat\0\0\0"
}

/// The number of sections named `.sbat`.
#[tactic(auto, unfolding(crate::specs::Sbat::sbat_count))]
fn count_named(headers: &[Header]) -> usize
    ensures { result ≡ sbat_count headers.now }
{
    headers.iter().filter(|h| has_name(h)).count()
}

/// The first section with the name `.sbat`.
#[tactic(auto, unfolding(crate::specs::Sbat::sbat_section))]
fn first_named(headers: &[Header]) -> Option<Header>
    ensures { result ≡ sbat_section headers.now }
{
    for header in headers {
        if has_name(header) {
            return Some(*header);
        }
    }
    None
}

/// The number of bytes of a section that are text.
fn size_of_text(header: Header) -> u32
    ensures { result ≡ text_size header }
{
    if header.virtual_size == 0 {
        header.size_of_raw_data
    } else {
        header.virtual_size.min(header.size_of_raw_data)
    }
}

/// The span of the text of the section `.sbat`.
pub(crate) fn find_text(headers: &[Header]) -> Result<Option<Span>, LayoutFault>
    ensures ok { OnOk result (first_of (sbat_checks headers.now) ≡ None) }
    ensures exact { IfOk result (λ text. text ≡ text_at (sbat_section headers.now)) }

    ensures err { IfErr result (λ fault. first_of (sbat_checks headers.now) ≡ Some fault) }
{
    if 1 < count_named(headers) {
        return Err(LayoutFault::TwoSbat);
    }
    let Some(header) = first_named(headers) else {
        return Ok(None);
    };
    let size = u64::from(size_of_text(header));
    if size == 0 {
        return Ok(None);
    }
    if LONGEST_TEXT < size {
        return Err(LayoutFault::TooLong);
    }
    let from = u64::from(header.pointer_to_raw_data);
    Ok(Some(Span::new(from, from + size)))
}
