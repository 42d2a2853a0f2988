//! The lines of an image's facts.
ghost use Rattle.std.specs.Prelude.{OnErr, OnOk, flat_map};
ghost use Rattle.std.specs.Io.KnownBytes.{Appends};
ghost use Rattle.base.specs.Output.{AppendsBeginning};
ghost use Rattle.cli_output.specs.Listings.{certificate_line, component_line, facts_lines, image_lines};

use base::{Digest, WriteFailed, put_each};
use desk_types::Facts;
use itoa::Buffer;
use sbat::Component;
use std::io::Write;

/// Writes the lines of the image's lengths and digests.
#[tactic(auto, unfolding(crate::specs::Listings::image_lines))]
fn put_image<W: Write>(facts: &Facts, writer: &mut W) -> Result<(), WriteFailed>
    ensures ok { OnOk result (Appends (W.contents writer.old) (W.contents writer.new)
        (image_lines facts.now)) }
    ensures err { OnErr result (AppendsBeginning (W.contents writer.old) (W.contents writer.new)
        (image_lines facts.now)) }
{
    let mut digits = Buffer::new();
    let length = digits.format(facts.extent.length()).as_bytes();
    let mut digits = Buffer::new();
    let gap = digits.format(facts.extent.gap()).as_bytes();
    let file = facts.file.text();
    let digest = facts.digest.text();
    let signing = facts.signing.text();
    put_each(
        &[
            b"length ",
            length,
            b"\nfile ",
            file.as_slice(),
            b"\ndigest ",
            digest.as_slice(),
            b"\nsigning ",
            signing.as_slice(),
            b"\ngap ",
            gap,
            b"\n",
        ],
        writer,
    )
}

/// Writes the line of a certificate.
#[tactic(auto, unfolding(crate::specs::Listings::certificate_line))]
fn put_certificate<W: Write>(digest: &Digest, writer: &mut W) -> Result<(), WriteFailed>
    ensures ok { OnOk result (Appends (W.contents writer.old) (W.contents writer.new)
        (certificate_line digest.now)) }
    ensures err { OnErr result (AppendsBeginning (W.contents writer.old) (W.contents writer.new)
        (certificate_line digest.now)) }
{
    let text = digest.text();
    put_each(&[b"certificate ", text.as_slice(), b"\n"], writer)
}

/// Writes the line of a component.
#[tactic(auto, unfolding(crate::specs::Listings::component_line))]
fn put_component<W: Write>(component: &Component, writer: &mut W) -> Result<(), WriteFailed>
    ensures ok { OnOk result (Appends (W.contents writer.old) (W.contents writer.new)
        (component_line component.now)) }
    ensures err { OnErr result (AppendsBeginning (W.contents writer.old) (W.contents writer.new)
        (component_line component.now)) }
{
    let name = component.name.as_str().as_bytes();
    let mut digits = Buffer::new();
    let generation = digits.format(component.generation.value()).as_bytes();
    put_each(&[b"component ", name, b" ", generation, b"\n"], writer)
}

/// Writes a line for each certificate.
fn put_certificates<W: Write>(digests: &[Digest], writer: &mut W) -> Result<(), WriteFailed>
    ensures ok { OnOk result (Appends (W.contents writer.old) (W.contents writer.new)
        (flat_map certificate_line digests.now)) }
    ensures err { OnErr result (AppendsBeginning (W.contents writer.old) (W.contents writer.new)
        (flat_map certificate_line digests.now)) }
{
    for digest in digests {
        put_certificate(digest, writer)?;
    }
    Ok(())
}

/// Writes a line for each component.
fn put_components<W: Write>(components: &[Component], writer: &mut W) -> Result<(), WriteFailed>
    ensures ok { OnOk result (Appends (W.contents writer.old) (W.contents writer.new)
        (flat_map component_line components.now)) }
    ensures err { OnErr result (AppendsBeginning (W.contents writer.old) (W.contents writer.new)
        (flat_map component_line components.now)) }
{
    for component in components {
        put_component(component, writer)?;
    }
    Ok(())
}

/// Writes the facts of an image that the desk keeps, one a line: `length N`, `file HEX`, `digest
/// HEX`, `signing HEX` and `gap N`, then `certificate HEX` for each certificate, ascending, and
/// `component NAME GENERATION` for each component, in the image's order.
pub fn print_facts<W: Write>(facts: &Facts, writer: &mut W) -> Result<(), WriteFailed>
    ensures ok { OnOk result (Appends (W.contents writer.old) (W.contents writer.new)
        (facts_lines facts.now)) }
    ensures err { OnErr result (AppendsBeginning (W.contents writer.old) (W.contents writer.new)
        (facts_lines facts.now)) }
{
    put_image(facts, writer)?;
    put_certificates(facts.carried.as_slice(), writer)?;
    put_components(facts.components.as_slice(), writer)
}
