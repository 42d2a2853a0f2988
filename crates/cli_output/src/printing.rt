//! The line of a fault.
ghost use Rattle.std.specs.Prelude.{◌≡◌, OnErr, OnOk};
ghost use Rattle.std.specs.Io.KnownBytes.{Appends};
ghost use Rattle.base.specs.Output.{AppendsBeginning};
ghost use Rattle.cli_output.specs.FaultLines.{fault_line, word_of};
ghost use Rattle.cli_output.specs.Statuses.{status_of};

use base::{Refusal, WriteFailed, put_each};
use itoa::Buffer;
use std::io::Write;

/// The first word, with a space after it.
fn word(refusal: Refusal) -> &'static [u8]
    ensures { result.now ≡ word_of refusal }
{
    if refusal.is_device() {
        b"device "
    } else {
        b"refused "
    }
}

/// Writes the line of a fault, `refused NUMBER NAME` or `device NUMBER NAME`, with ` at PLACE` if
/// there is a place.
pub fn put_fault<W: Write>(
    refusal: Refusal,
    place: Option<u64>,
    writer: &mut W,
) -> Result<(), WriteFailed>
    ensures ok { OnOk result (Appends (W.contents writer.old) (W.contents writer.new)
        (fault_line refusal place)) }
    ensures err { OnErr result (AppendsBeginning (W.contents writer.old) (W.contents writer.new)
        (fault_line refusal place)) }
{
    let word = word(refusal);
    let name = refusal.name().as_bytes();
    let mut digits = Buffer::new();
    let number = digits.format(refusal.number()).as_bytes();
    match place {
        None => put_each(&[word, number, b" ", name, b"\n"], writer),
        Some(place) => {
            let mut digits = Buffer::new();
            let place = digits.format(place).as_bytes();
            put_each(&[word, number, b" ", name, b" at ", place, b"\n"], writer)
        }
    }
}

/// The exit status after the lines on standard error, and whether they were written whole.
#[derive(Clone, Copy, Debug, PartialEq, Eq)]
pub struct Printed {
    pub status: u8,
    pub written: Result<(), WriteFailed>,
}

/// The exit status after a fault.
fn status_of_fault(refusal: Refusal) -> u8
    ensures { result ≡ status_of refusal }
{
    if refusal.is_device() { 3 } else { 1 }
}

/// Writes the line of a fault as `put_fault` does, and returns the exit status even if that write
/// fails. Takes no memory.
pub fn print_fault<W: Write>(refusal: Refusal, place: Option<u64>, writer: &mut W) -> Printed
    ensures status { result.status ≡ status_of refusal }
    ensures whole { OnOk result.written (Appends (W.contents writer.old) (W.contents writer.new)
        (fault_line refusal place)) }
    ensures out { AppendsBeginning (W.contents writer.old) (W.contents writer.new)
        (fault_line refusal place) }
{
    let written = put_fault(refusal, place, writer);
    Printed {
        status: status_of_fault(refusal),
        written,
    }
}
