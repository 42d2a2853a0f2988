//! Digests put in order.
ghost use Rattle.std.specs.Prelude.{◌≤◌, vec_len};
ghost use Rattle.base.specs.Digests.{IsArranged};

use crate::Digest;

/// Puts digests in ascending order and drops repeats. Takes no memory; the time is that of sorting.
pub fn arrange(digests: &mut Vec<Digest>)
    ensures arranged { IsArranged digests.old.items digests.new.items }
    ensures fewer { vec_len digests.new ≤ vec_len digests.old }
{
    digests.sort_unstable();
    digests.dedup();
}
