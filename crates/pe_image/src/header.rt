//! The section table.
ghost use Rattle.std.specs.Prelude.{◌≡◌, ◌+◌, ◌*◌, ◌<◌, ◌^◌, ◌≤◌, length, take, OnOk, OnErr, IfOk};
ghost use Rattle.pe_image.specs.Sources.{HaveRisen, OnlyReads};
ghost use Rattle.pe_image.specs.Headers.{header_at};
ghost use Rattle.pe_image.specs.Image.{headers, number_of_sections, sections_begin};

use crate::field::SECTION_HEADER_SIZE;
use crate::source::Source;
use base::{ReadFailed, u32_at};

/// The fields of a section header.
#[derive(Clone, Copy, Debug)]
pub(crate) struct Header {
    pub(crate) name: [u8; 8],
    pub(crate) virtual_size: u32,
    pub(crate) size_of_raw_data: u32,
    pub(crate) pointer_to_raw_data: u32,
}

impl Header {
    /// A header of zeros.
    pub(crate) const EMPTY: Header = Header {
        name: [0; 8],
        virtual_size: 0,
        size_of_raw_data: 0,
        pointer_to_raw_data: 0,
    };
}

/// The section header at an offset.
#[tactic(auto, unfolding(crate::specs::Headers::header_at))]
fn read_header<S: Source>(source: &mut S, at: u64) -> Result<Header, ReadFailed>
    requires { at + 40 ≤ length (S.content source.old) }
    ensures ok { IfOk result (λ h. h ≡ header_at (S.content source.old) at) }

    ensures device { OnErr result (HaveRisen (S.failures source.old) (S.failures source.new)) }

    ensures reads { OnlyReads S.content S.failures source.old source.new }
{
    let mut bytes = [0; 40];
    source.read_at(at, &mut bytes)?;
    let mut name = [0; 8];
    name.copy_from_slice(&bytes[..8]);
    Ok(Header {
        name,
        virtual_size: u32_at(&bytes, 8),
        size_of_raw_data: u32_at(&bytes, 16),
        pointer_to_raw_data: u32_at(&bytes, 20),
    })
}

/// Reads the section table, which begins at `begin`, into the first `count` headers.
pub(crate) fn read_headers<S: Source>(
    source: &mut S,
    begin: u64,
    count: usize,
    table: &mut [Header],
) -> Result<(), ReadFailed>
    requires begin { begin ≡ sections_begin (S.content source.old) }
    requires count { count ≡ number_of_sections (S.content source.old) }
    requires room { count ≤ length table.old }
    requires within { begin + 40 * count ≤ length (S.content source.old) }
    requires small { begin + 40 * count < 2 ^ 64 }

    ensures ok { OnOk result (take count table.new ≡ headers (S.content source.old)) }

    ensures device { OnErr result (HaveRisen (S.failures source.old) (S.failures source.new)) }

    ensures reads { OnlyReads S.content S.failures source.old source.new }
{
    for i in 0..count {
        table[i] = read_header(source, begin + SECTION_HEADER_SIZE * i as u64)?;
    }
    Ok(())
}
