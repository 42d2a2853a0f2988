//! The beginning of an image.
ghost use Rattle.std.specs.Prelude.{◌≡◌, None, OnOk, IfOk, IfErr};
ghost use Rattle.pe_image.specs.Checks.{first_of, start_checks, IsRefused};
ghost use Rattle.pe_image.specs.Sources.{OnlyReads};
ghost use Rattle.pe_image.specs.Steps.Front.{IsStart};

use crate::fault::LayoutFault;
use crate::field::{DOS_HEADER_SIZE, OPTIONAL_HEADER, PE_SIGNATURE_OFFSET};
use crate::number::{read_u16, read_u32};
use crate::source::Source;
use base::LONGEST_IMAGE;

/// `MZ`, little-endian.
const MZ: u16 = 0x5a4d;

/// `PE`, 0, 0, little-endian.
const PE: u32 = 0x4550;

/// The offset of the PE signature.
pub(crate) fn read_start<S: Source>(source: &mut S) -> Result<u64, LayoutFault>
    ensures ok { OnOk result (first_of (start_checks (S.content source.old)) ≡ None) }
    ensures exact { IfOk result (λ offset. IsStart (S.content source.old) offset) }

    ensures err { IfErr result (IsRefused (start_checks (S.content source.old))
        (S.failures source.old) (S.failures source.new)) }

    ensures reads { OnlyReads S.content S.failures source.old source.new }
{
    let length = source.len();
    if LONGEST_IMAGE < length {
        return Err(LayoutFault::TooLong);
    }
    if length < DOS_HEADER_SIZE {
        return Err(LayoutFault::Short);
    }
    if read_u16(source, 0)? != MZ {
        return Err(LayoutFault::NoMz);
    }
    let pe_signature = u64::from(read_u32(source, PE_SIGNATURE_OFFSET)?);
    if length < pe_signature + OPTIONAL_HEADER {
        return Err(LayoutFault::Short);
    }
    if read_u32(source, pe_signature)? != PE {
        return Err(LayoutFault::NoPe);
    }
    Ok(pe_signature)
}
