//! Headers before the section table.
ghost use Rattle.std.specs.Prelude.{◌≡◌, None, OnOk, IfOk, IfErr};
ghost use Rattle.pe_image.specs.Checks.{first_of, front_checks, IsRefused};
ghost use Rattle.pe_image.specs.Sources.{OnlyReads};
ghost use Rattle.pe_image.specs.Steps.Front.{IsFront};

use crate::fault::LayoutFault;
use crate::optional::{Directories, HeaderExtent, read_directories, read_extent, read_fixed_size};
use crate::source::Source;
use crate::start::read_start;

/// The offset of the PE signature, and the values of the headers.
#[derive(Clone, Copy, Debug)]
pub(crate) struct Front {
    pub(crate) pe_signature: u64,
    pub(crate) directories: Directories,
    pub(crate) extent: HeaderExtent,
}

/// The headers before the sections.
pub(crate) fn read_front<S: Source>(source: &mut S) -> Result<Front, LayoutFault>
    ensures ok { OnOk result (first_of (front_checks (S.content source.old)) ≡ None) }
    ensures exact { IfOk result (λ front. IsFront (S.content source.old) front) }

    ensures err { IfErr result (IsRefused (front_checks (S.content source.old))
        (S.failures source.old) (S.failures source.new)) }

    ensures reads { OnlyReads S.content S.failures source.old source.new }
{
    let pe_signature = read_start(source)?;
    let fixed = read_fixed_size(source, pe_signature)?;
    let directories = read_directories(source, pe_signature, fixed)?;
    let extent = read_extent(source, pe_signature, directories)?;
    Ok(Front {
        pe_signature,
        directories,
        extent,
    })
}
