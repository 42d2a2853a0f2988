//! The certificates that an image carries.
ghost use Rattle.std.specs.Prelude.{IfErr, IfOk};
ghost use Rattle.authenticode.specs.Carried.{IsCarried, IsFirstFault};

use crate::fault::CarriedFault;
use crate::walk::push_table;
use base::{Digest, MOST_CERTIFICATES, arrange};
use std::alloc::Global;

/// The SHA-256 of each TBSCertificate in the bytes of a certificate table, ascending, each once.
/// Takes 32 bytes of memory for each certificate, repeats included; the time is that of sorting
/// them.
///
/// Of several faults the first that the walk over the table meets is returned; TooLong only if
/// there is no other. NoMemory, if memory was refused, may come before any of them.
pub fn carried(alloc: Global, table: &[u8]) -> Result<Vec<Digest>, CarriedFault>
    ensures exact { IfOk result (λ digests. IsCarried table.now digests.items) }

    ensures first { IfErr result (IsFirstFault table.now) }
{
    let mut digests = Vec::new(alloc);
    push_table(&mut digests, table)?;
    arrange(&mut digests);
    if digests.len() > MOST_CERTIFICATES {
        return Err(CarriedFault::TooLong);
    }
    Ok(digests)
}
