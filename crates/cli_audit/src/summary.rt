//! The lines of an audit.
ghost use Rattle.std.specs.Prelude.{OnErr, OnOk};
ghost use Rattle.std.specs.Io.KnownBytes.{Appends};
ghost use Rattle.base.specs.Output.{AppendsBeginning};
ghost use Rattle.cli_audit.specs.Lines.{told_lines};

use base::{Digest, WriteFailed, put_each};
use itoa::Buffer;
use std::io::Write;

/// What an audit tells of minutes.
#[derive(Drop)]
pub(crate) struct Summary {
    /// How many lines they have.
    pub calls: u64,
    /// The SHA-256 of the minutes, and of each export of their desk.
    pub minutes: Digest,
    pub dbx: Digest,
    pub db: Digest,
    pub level: Digest,
}

/// Writes the lines of an audit: `calls N`, `minutes HEX`, `dbx HEX`, `db HEX` and `level HEX`.
#[tactic(auto, unfolding(crate::specs::Lines::told_lines))]
pub(crate) fn put_told<W: Write>(told: &Summary, writer: &mut W) -> Result<(), WriteFailed>
    ensures ok { OnOk result (Appends (W.contents writer.old) (W.contents writer.new)
        (told_lines told.now)) }
    ensures err { OnErr result (AppendsBeginning (W.contents writer.old) (W.contents writer.new)
        (told_lines told.now)) }
{
    let mut digits = Buffer::new();
    let calls = digits.format(told.calls).as_bytes();
    let minutes = told.minutes.text();
    let dbx = told.dbx.text();
    let db = told.db.text();
    let level = told.level.text();
    put_each(
        &[
            b"calls ",
            calls,
            b"\nminutes ",
            minutes.as_slice(),
            b"\ndbx ",
            dbx.as_slice(),
            b"\ndb ",
            db.as_slice(),
            b"\nlevel ",
            level.as_slice(),
            b"\n",
        ],
        writer,
    )
}
