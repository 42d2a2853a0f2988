//! Facts of an image.
ghost use Rattle.std.specs.Prelude.{IfOk, IfErr};
ghost use Rattle.pe_image.specs.Places.{IsLayoutOf};
ghost use Rattle.pe_image.specs.Sources.{OnlyReads};
ghost use Rattle.authenticode.specs.Carried.{IsCarried};
ghost use Rattle.sbat.specs.Refusals.{IsComponents};
ghost use Rattle.desk_inputs.specs.ImageFacts.{HasCarried, IsFactsOf, IsFirstFault};
ghost use Rattle.desk_inputs.specs.ImageFacts.{sbat_bytes, table_bytes};

use crate::fault::FactsFault;
use crate::part::read_part;
use authenticode::{carried, sums};
use desk_types::{Carried, Facts};
use pe_image::{Layout, Source, layout, lengths, sbat_range, table};
use sbat::{Components, components};
use std::alloc::Global;

/// The certificates that an image with this layout carries.
fn read_carried<S: Source>(
    alloc: Global,
    source: &mut S,
    layout: &Layout,
) -> Result<Carried, FactsFault>
    requires { IsLayoutOf (S.content source.old) layout.now }
    ensures exact { IfOk result (IsCarried (table_bytes (S.content source.old))) }

    ensures first { IfErr result (IsFirstFault (S.content source.old)
        (S.failures source.old) (S.failures source.new)) }

    ensures reads { OnlyReads S.content S.failures source.old source.new }
{
    let bytes = read_part(alloc, source, table(layout))?;
    let digests = carried(alloc, &bytes)?;
    Ok(Carried::of(digests))
}

/// The components of an image with this layout. Its certificates are right.
fn read_components<S: Source>(
    alloc: Global,
    source: &mut S,
    layout: &Layout,
) -> Result<Components, FactsFault>
    requires laid { IsLayoutOf (S.content source.old) layout.now }
    requires carries { HasCarried (S.content source.old) }
    ensures exact { IfOk result (IsComponents (sbat_bytes (S.content source.old))) }

    ensures first { IfErr result (IsFirstFault (S.content source.old)
        (S.failures source.old) (S.failures source.new)) }

    ensures reads { OnlyReads S.content S.failures source.old source.new }
{
    let text = read_part(alloc, source, sbat_range(layout))?;
    Ok(components(alloc, &text)?)
}

/// The facts of an image that the desk keeps. Each piece of 65,536 bytes of the source is read
/// once, and if there is a gap the last range once more; so are the headers, the certificate table
/// and the text of `.sbat`. Takes memory for the table, for the text, and for the facts in them.
///
/// Of several faults the layout's comes first, then that of the certificates, then that of the
/// components. Read, and Layout with Read, are returned only if the source's failure count rose or
/// was already at its maximum. NoMemory, also within Carried and Components, may come before any
/// other fault but the layout's: memory was refused.
pub fn facts<S: Source>(alloc: Global, source: &mut S) -> Result<Facts, FactsFault>
    ensures exact { IfOk result (IsFactsOf (S.content source.old)) }

    ensures first { IfErr result (IsFirstFault (S.content source.old)
        (S.failures source.old) (S.failures source.new)) }

    ensures reads { OnlyReads S.content S.failures source.old source.new }
{
    let layout = layout(source)?;
    let hashes = sums(source, &layout)?;
    let carried = read_carried(alloc, source, &layout)?;
    let components = read_components(alloc, source, &layout)?;
    Ok(Facts {
        extent: lengths(&layout),
        file: hashes.file,
        digest: hashes.digest,
        signing: hashes.signing,
        carried,
        components,
    })
}
