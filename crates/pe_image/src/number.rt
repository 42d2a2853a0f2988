//! Little-endian numbers in a source.
ghost use Rattle.std.specs.Prelude.{◌≡◌, ◌+◌, ◌≤◌, length, slice_range, OnErr, IfOk};
ghost use Rattle.base.specs.Numbers.{u16_at, u32_at};
ghost use Rattle.pe_image.specs.Sources.{HaveRisen, OnlyReads};

use crate::source::Source;
use base::{ReadFailed, u16_at, u32_at};

/// The bytes from an offset on, as many as the array has.
fn read_array<S: Source, const N: usize>(source: &mut S, at: u64) -> Result<[u8; N], ReadFailed>
    requires { at + N ≤ length (S.content source.old) }
    ensures ok { IfOk result (λ bytes. bytes ≡ slice_range (S.content source.old) at (at + N)) }

    ensures device { OnErr result (HaveRisen (S.failures source.old) (S.failures source.new)) }

    ensures reads { OnlyReads S.content S.failures source.old source.new }
{
    let mut bytes = [0; N];
    source.read_at(at, &mut bytes)?;
    Ok(bytes)
}

/// The number in the two bytes from an offset on.
pub(crate) fn read_u16<S: Source>(source: &mut S, at: u64) -> Result<u16, ReadFailed>
    requires { at + 2 ≤ length (S.content source.old) }
    ensures ok { IfOk result (λ n. n ≡ u16_at (S.content source.old) at) }

    ensures device { OnErr result (HaveRisen (S.failures source.old) (S.failures source.new)) }

    ensures reads { OnlyReads S.content S.failures source.old source.new }
{
    let bytes: [u8; 2] = read_array(source, at)?;
    Ok(u16_at(&bytes, 0))
}

/// The number in the four bytes from an offset on.
pub(crate) fn read_u32<S: Source>(source: &mut S, at: u64) -> Result<u32, ReadFailed>
    requires { at + 4 ≤ length (S.content source.old) }
    ensures ok { IfOk result (λ n. n ≡ u32_at (S.content source.old) at) }

    ensures device { OnErr result (HaveRisen (S.failures source.old) (S.failures source.new)) }

    ensures reads { OnlyReads S.content S.failures source.old source.new }
{
    let bytes: [u8; 4] = read_array(source, at)?;
    Ok(u32_at(&bytes, 0))
}
