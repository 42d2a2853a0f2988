//! The line of a verdict.
ghost use Rattle.std.specs.Prelude.{◌++◌, OnErr, OnOk, codes, slice_get};
ghost use Rattle.std.specs.Io.KnownBytes.{Appends};
ghost use Rattle.base.specs.Output.{AppendsBeginning};
ghost use Rattle.cli_output.specs.VerdictLines.{below_words, verdict_line};

use base::{WriteFailed, put, put_each};
use desk_history::{Below, Verdict};
use desk_types::Facts;
use itoa::Buffer;
use sbat::Component;
use std::io::Write;

/// Writes the line of a verdict for a component that is below the level.
fn put_below<W: Write>(
    components: &[Component],
    below: Below,
    writer: &mut W,
) -> Result<(), WriteFailed>
    ensures ok { OnOk result (Appends (W.contents writer.old) (W.contents writer.new)
        (below_words (slice_get components.now below.place) below.needs ++ codes "\n")) }
    ensures err { OnErr result (AppendsBeginning (W.contents writer.old) (W.contents writer.new)
        (below_words (slice_get components.now below.place) below.needs ++ codes "\n")) }
{
    let mut digits = Buffer::new();
    let needs = digits.format(below.needs.value()).as_bytes();
    match components.get(below.place) {
        None => put_each(&[b"refused sbat ", needs, b"\n"], writer),
        Some(component) => {
            let name = component.name.as_str().as_bytes();
            let mut digits = Buffer::new();
            let has = digits.format(component.generation.value()).as_bytes();
            put_each(
                &[b"refused sbat ", name, b" ", has, b" ", needs, b"\n"],
                writer,
            )
        }
    }
}

/// Writes the line of a verdict on the image of these facts: `allowed`, or `refused` and
/// `dbx-digest`, `dbx-certificate`, `not-listed`, or `sbat NAME HAS NEEDS`: the first component
/// below the level, its generation and the one that the level requires of it.
pub fn print_verdict<W: Write>(
    verdict: &Verdict,
    facts: &Facts,
    writer: &mut W,
) -> Result<(), WriteFailed>
    ensures ok { OnOk result (Appends (W.contents writer.old) (W.contents writer.new)
        (verdict_line verdict.now facts.now)) }
    ensures err { OnErr result (AppendsBeginning (W.contents writer.old) (W.contents writer.new)
        (verdict_line verdict.now facts.now)) }
{
    match verdict {
        Verdict::Allowed => put(b"allowed\n", writer),
        Verdict::DbxDigest => put(b"refused dbx-digest\n", writer),
        Verdict::DbxCertificate => put(b"refused dbx-certificate\n", writer),
        Verdict::NotListed => put(b"refused not-listed\n", writer),
        Verdict::Sbat(below) => put_below(facts.components.as_slice(), *below, writer),
    }
}
