//! A part of a source, in memory.
ghost use Rattle.std.specs.Prelude.{◌≡◌, length, IfOk, IfErr, IfSome};
ghost use Rattle.pe_image.specs.Sources.{OnlyReads};
ghost use Rattle.pe_image.specs.Spans.{IsWithin};
ghost use Rattle.desk_inputs.specs.Parts.{IsPartFault, part_of, read_failed};

use pe_image::{ReadFailed, Source, Span};
use std::alloc::Global;

/// Why a part couldn't be read into memory.
#[derive(Clone, Copy, Debug, PartialEq, Eq)]
pub enum PartFault {
    Read,
    NoMemory,
}

impl From<ReadFailed> for PartFault {
    ghost from_gives = { λ _ fault. fault ≡ read_failed };

    fn from(_: ReadFailed) -> PartFault {
        PartFault::Read
    }
}

/// The bytes of a span, or none if there is no span. Takes memory for them.
///
/// `Read`: the read failed; the source's failure count rose, or was already at its maximum.
/// `NoMemory`: memory was refused.
pub fn read_part<S: Source>(
    alloc: Global,
    source: &mut S,
    places: Option<Span>,
) -> Result<Vec<u8>, PartFault>
    requires { IfSome places (IsWithin (length (S.content source.old))) }
    ensures exact { IfOk result (λ bytes. bytes.items ≡ part_of (S.content source.old) places) }

    ensures first { IfErr result (IsPartFault (S.failures source.old) (S.failures source.new)) }

    ensures reads { OnlyReads S.content S.failures source.old source.new }
{
    let Some(span) = places else {
        return Ok(Vec::new(alloc));
    };
    let size = (span.to - span.from) as usize;
    let Ok(mut bytes) = vec![in alloc; 0u8; size] else {
        return Err(PartFault::NoMemory);
    };
    source.read_at(span.from, &mut bytes)?;
    Ok(bytes)
}
