//! The optional header.
ghost use Rattle.std.specs.Prelude.{◌≡◌, None, OnOk, IfOk, IfErr};
ghost use Rattle.pe_image.specs.Checks.{first_of, magic_checks, size_checks, header_checks, IsRefused};
ghost use Rattle.pe_image.specs.Sources.{OnlyReads};
ghost use Rattle.pe_image.specs.Steps.Front.{IsStart, IsFixedSize, AreDirectories, IsHeaderExtent};

use crate::fault::LayoutFault;
use crate::field::{
    CERTIFICATE_ENTRY, CERTIFICATE_INDEX, ENTRY_SIZE, NUMBER_OF_SECTIONS, OPTIONAL_HEADER,
    PE32_PLUS_SIZE, PE32_SIZE, SECTION_HEADER_SIZE, SIZE_OF_HEADERS, SIZE_OF_OPTIONAL_HEADER,
    SUBSYSTEM,
};
use crate::number::{read_u16, read_u32};
use crate::source::Source;
use crate::span::Span;

/// Magic of PE32.
const PE32: u16 = 0x10b;

/// Magic of PE32+.
const PE32_PLUS: u16 = 0x20b;

/// The first of EFI's subsystems.
const EFI_APPLICATION: u16 = 10;

/// The last of EFI's subsystems.
const EFI_ROM: u16 = 13;

/// The most sections that an image may have.
const MOST_SECTIONS: u16 = 96;

/// The size of the optional header without its directories. `pe_signature` is the signature's
/// offset.
pub(crate) fn read_fixed_size<S: Source>(
    source: &mut S,
    pe_signature: u64,
) -> Result<u64, LayoutFault>
    requires { IsStart (S.content source.old) pe_signature }

    ensures ok { OnOk result (first_of (magic_checks (S.content source.old)) ≡ None) }
    ensures exact { IfOk result (λ size. IsFixedSize (S.content source.old) size) }

    ensures err { IfErr result (IsRefused (magic_checks (S.content source.old))
        (S.failures source.old) (S.failures source.new)) }

    ensures reads { OnlyReads S.content S.failures source.old source.new }
{
    if source.len() < pe_signature + OPTIONAL_HEADER + 2 {
        return Err(LayoutFault::Magic);
    }
    match read_u16(source, pe_signature + OPTIONAL_HEADER)? {
        PE32 => Ok(PE32_SIZE),
        PE32_PLUS => Ok(PE32_PLUS_SIZE),
        _ => Err(LayoutFault::Magic),
    }
}

/// Where the section table begins, and the entry of the certificate table.
#[derive(Clone, Copy, Debug)]
pub(crate) struct Directories {
    pub(crate) sections_begin: u64,
    pub(crate) certificate_directory: Option<Span>,
}

/// The directories, from the offset of the PE signature and the size that `read_fixed_size`
/// returned.
pub(crate) fn read_directories<S: Source>(
    source: &mut S,
    pe_signature: u64,
    fixed: u64,
) -> Result<Directories, LayoutFault>
    requires start { IsStart (S.content source.old) pe_signature }
    requires fixed { IsFixedSize (S.content source.old) fixed }

    ensures ok { OnOk result (first_of (size_checks (S.content source.old)) ≡ None) }
    ensures exact { IfOk result (λ found. AreDirectories (S.content source.old) found) }

    ensures err { IfErr result (IsRefused (size_checks (S.content source.old))
        (S.failures source.old) (S.failures source.new)) }

    ensures reads { OnlyReads S.content S.failures source.old source.new }
{
    let length = source.len();
    let size = u64::from(read_u16(source, pe_signature + SIZE_OF_OPTIONAL_HEADER)?);
    let optional = pe_signature + OPTIONAL_HEADER;
    let sections_begin = optional + size;
    if size < fixed || length < sections_begin {
        return Err(LayoutFault::Headers);
    }
    // NumberOfRvaAndSizes is the last u32 before the data directories.
    let number = read_u32(source, optional + (fixed - 4))?;
    if number <= CERTIFICATE_INDEX {
        return Ok(Directories {
            sections_begin,
            certificate_directory: None,
        });
    }
    if size < fixed + CERTIFICATE_ENTRY + ENTRY_SIZE {
        return Err(LayoutFault::Headers);
    }
    let entry = optional + (fixed + CERTIFICATE_ENTRY);
    Ok(Directories {
        sections_begin,
        certificate_directory: Some(Span::new(entry, entry + ENTRY_SIZE)),
    })
}

/// The number of sections, and the offset where the headers end.
#[derive(Clone, Copy, Debug)]
pub(crate) struct HeaderExtent {
    pub(crate) count: usize,
    pub(crate) headers_end: u64,
}

/// The extent of the headers, from the offset of the PE signature and the result of
/// `read_directories`.
pub(crate) fn read_extent<S: Source>(
    source: &mut S,
    pe_signature: u64,
    directories: Directories,
) -> Result<HeaderExtent, LayoutFault>
    requires start { IsStart (S.content source.old) pe_signature }
    requires directories { AreDirectories (S.content source.old) directories }

    ensures ok { OnOk result (first_of (header_checks (S.content source.old)) ≡ None) }
    ensures exact { IfOk result (λ extent. IsHeaderExtent (S.content source.old) extent) }

    ensures err { IfErr result (IsRefused (header_checks (S.content source.old))
        (S.failures source.old) (S.failures source.new)) }

    ensures reads { OnlyReads S.content S.failures source.old source.new }
{
    let length = source.len();
    let subsystem = read_u16(source, pe_signature + SUBSYSTEM)?;
    if subsystem < EFI_APPLICATION || EFI_ROM < subsystem {
        return Err(LayoutFault::NotEfi);
    }
    let count = read_u16(source, pe_signature + NUMBER_OF_SECTIONS)?;
    if MOST_SECTIONS < count {
        return Err(LayoutFault::Sections);
    }
    let headers_end = u64::from(read_u32(source, pe_signature + SIZE_OF_HEADERS)?);
    let table_end = directories.sections_begin + SECTION_HEADER_SIZE * u64::from(count);
    if headers_end < table_end || length < headers_end {
        return Err(LayoutFault::Headers);
    }
    Ok(HeaderExtent {
        count: usize::from(count),
        headers_end,
    })
}
