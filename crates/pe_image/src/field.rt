//! Offsets of the fields that a layout needs (PE/COFF), from the signature unless a comment says
//! otherwise.

/// The size of the MS-DOS header.
pub(crate) const DOS_HEADER_SIZE: u64 = 64;

/// The place of the signature's offset, from the file's beginning.
pub(crate) const PE_SIGNATURE_OFFSET: u64 = 0x3c;

/// NumberOfSections, a u16.
pub(crate) const NUMBER_OF_SECTIONS: u64 = 6;

/// SizeOfOptionalHeader, a u16.
pub(crate) const SIZE_OF_OPTIONAL_HEADER: u64 = 20;

/// The optional header, which begins with Magic, a u16.
pub(crate) const OPTIONAL_HEADER: u64 = 24;

/// SizeOfHeaders, a u32.
pub(crate) const SIZE_OF_HEADERS: u64 = OPTIONAL_HEADER + 60;

/// CheckSum, a u32.
pub(crate) const CHECKSUM: u64 = OPTIONAL_HEADER + 64;

/// The size of CheckSum.
pub(crate) const CHECKSUM_SIZE: u64 = 4;

/// Subsystem, a u16.
pub(crate) const SUBSYSTEM: u64 = OPTIONAL_HEADER + 68;

/// The size of the optional header of PE32 without its data directories.
pub(crate) const PE32_SIZE: u64 = 96;

/// The same for PE32+.
pub(crate) const PE32_PLUS_SIZE: u64 = 112;

/// The index of the certificate table's entry among the data directories.
pub(crate) const CERTIFICATE_INDEX: u32 = 4;

/// That entry, from the beginning of the data directories.
pub(crate) const CERTIFICATE_ENTRY: u64 = 32;

/// The size of an entry of the data directories.
pub(crate) const ENTRY_SIZE: u64 = 8;

/// The size of a section header.
pub(crate) const SECTION_HEADER_SIZE: u64 = 40;
