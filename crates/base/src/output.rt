//! Output that may stop.
ghost use Rattle.std.specs.Prelude.{OnOk, OnErr, ◌≡◌};
ghost use Rattle.std.specs.Io.KnownBytes.{Appends};
ghost use Rattle.base.specs.Output.{AppendsBeginning, joined};

use crate::Refusal;
use std::io::Write;
use thiserror::Error;

/// A writer failed, was interrupted or took nothing.
#[derive(Clone, Copy, Debug, PartialEq, Eq, Error)]
#[error("a write failed")]
pub struct WriteFailed;

impl WriteFailed {
    /// Its row in the table of refusals.
    pub fn refusal(self) -> Refusal
        ensures { result ≡ Refusal.Write }
    {
        Refusal::Write
    }
}

/// Writes all of the bytes, in as many writes as the writer needs. An interrupted write and one
/// that takes nothing are faults and aren't retried. After a fault the writer holds a prefix of the
/// bytes, which may be empty.
pub fn put<W: Write>(bytes: &[u8], writer: &mut W) -> Result<(), WriteFailed>
    ensures ok { OnOk result (Appends (W.contents writer.old) (W.contents writer.new) bytes.now) }
    ensures err { OnErr result
        (AppendsBeginning (W.contents writer.old) (W.contents writer.new) bytes.now) }
{
    let mut done = 0;
    while done < bytes.len() {
        match writer.write(&bytes[done..]) {
            Ok(0) => return Err(WriteFailed),
            Ok(taken) => done += taken,
            Err(_) => return Err(WriteFailed),
        }
    }
    Ok(())
}

/// Writes all of the slices, one after another, each as `put` does.
pub fn put_each<W: Write>(slices: &[&[u8]], writer: &mut W) -> Result<(), WriteFailed>
    ensures ok { OnOk result (Appends (W.contents writer.old) (W.contents writer.new)
        (joined slices.now)) }
    ensures err { OnErr result (AppendsBeginning (W.contents writer.old) (W.contents writer.new)
        (joined slices.now)) }
{
    for slice in slices {
        put(slice, writer)?;
    }
    Ok(())
}
