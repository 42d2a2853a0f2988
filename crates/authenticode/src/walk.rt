//! The walk over a certificate table.
ghost use Rattle.std.specs.Prelude.{◌≡◌, ◌<◌, false, length, IfErr, IfOk, OnOk};
ghost use Rattle.authenticode.specs.Carried.{GivesEntry, IsEntryFault, IsFirstFault, IsWalked};
ghost use Rattle.authenticode.specs.Steps.Adding.{AddsAll, AddsStep};
ghost use Rattle.authenticode.specs.Table as spec;

use crate::entry::{SIGNED_DATA, is_end, next_entry};
use crate::fault::CarriedFault;
use crate::row::push_body;
use base::Digest;

/// Adds the digests of the entry at the front, and returns the bytes from the next entry on.
fn push_entry<'a>(digests: &mut Vec<Digest>, table: &'a [u8]) -> Result<&'a [u8], CarriedFault>
    requires { spec.is_end table.now ≡ false }
    ensures ok { IfOk result (λ rest.
        AddsStep GivesEntry table.now rest.now digests.old.items digests.new.items) }
    ensures shorter { IfOk result (λ rest. length rest.now < length table.now) }

    ensures err { IfErr result (IsEntryFault table.now) }
{
    let Some(entry) = next_entry(table) else {
        return Err(CarriedFault::Table);
    };
    if entry.kind == SIGNED_DATA {
        push_body(digests, entry.body)?;
    }
    Ok(entry.rest)
}

/// Adds the digests of all entries.
pub(crate) fn push_table(digests: &mut Vec<Digest>, table: &[u8]) -> Result<(), CarriedFault>
    ensures ok { OnOk result (AddsAll (IsWalked table.now) digests.old.items digests.new.items) }

    ensures err { IfErr result (IsFirstFault table.now) }
{
    let mut left = table;
    while !is_end(left) {
        left = push_entry(digests, left)?;
    }
    Ok(())
}
