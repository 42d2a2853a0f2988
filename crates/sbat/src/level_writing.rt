//! The writing of levels, line by line.
ghost use Rattle.std.specs.Prelude.{OnErr, OnOk};
ghost use Rattle.std.specs.Io.KnownBytes.{Appends};
ghost use Rattle.base.specs.Output.{AppendsBeginning};
ghost use Rattle.sbat.specs.Writing.{head_text, row_text};

use crate::generation::Generation;
use crate::name::ComponentName;
use crate::stamp::Stamp;
use base::{WriteFailed, put_each};
use itoa::Buffer;
use std::io::Write;

/// Writes the first line of a level: `sbat,1,`, the stamp and LF. If the writer fails, it holds a
/// prefix of the line, which may be empty.
pub fn level_head<W: Write>(stamp: Stamp, writer: &mut W) -> Result<(), WriteFailed>
    ensures ok { OnOk result (Appends (W.contents writer.old) (W.contents writer.new)
        (head_text stamp)) }
    ensures err { OnErr result (AppendsBeginning (W.contents writer.old) (W.contents writer.new)
        (head_text stamp)) }
{
    let mut digits = Buffer::new();
    let stamp = digits.format(stamp.value()).as_bytes();
    put_each(&[b"sbat,1,", stamp, b"\n"], writer)
}

/// Writes the line of one name: the name, a comma, its generation without leading zeros, and LF. If
/// the writer fails, it holds a prefix of the line, which may be empty.
pub fn level_row<W: Write>(
    name: &ComponentName,
    generation: Generation,
    writer: &mut W,
) -> Result<(), WriteFailed>
    ensures ok { OnOk result (Appends (W.contents writer.old) (W.contents writer.new)
        (row_text name.now generation)) }
    ensures err { OnErr result (AppendsBeginning (W.contents writer.old) (W.contents writer.new)
        (row_text name.now generation)) }
{
    let mut digits = Buffer::new();
    let generation = digits.format(generation.value()).as_bytes();
    put_each(&[name.as_str().as_bytes(), b",", generation, b"\n"], writer)
}
