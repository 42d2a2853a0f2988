//! The lines of an impact.
ghost use Rattle.std.specs.Prelude.{◌≡◌, ◌++◌, OnErr, OnOk, codes, decimal, flat_map};
ghost use Rattle.std.specs.Io.KnownBytes.{Appends};
ghost use Rattle.base.specs.Output.{AppendsBeginning};
ghost use Rattle.desk_history.specs.Files.{file_text};
ghost use Rattle.desk_types.specs.Words.{state_text};
ghost use Rattle.cli_output.specs.ImpactLines as spec;

use base::{WriteFailed, put, put_each};
use desk_history::{BarredImage, Rule, ShownImpact, WhichFile};
use desk_types::{State, Title};
use itoa::Buffer;
use sbat::{Component, Generation};
use std::io::Write;

/// The word of a request's file.
fn file_word<'a>(file: WhichFile) -> &'a str
    ensures { result.now ≡ file_text file }
{
    file.text()
}

/// The verdict on an image now.
fn now_word<'a>(is_allowed: bool) -> &'a str
    ensures { result.now ≡ spec.now_word is_allowed }
{
    if is_allowed { "allowed" } else { "refused" }
}

/// The word of a request's state.
fn state_word<'a>(state: State) -> &'a str
    ensures { result.now ≡ state_text state }
{
    state.text()
}

/// Writes the columns before the rule, each with a tab after it.
#[tactic(auto, unfolding(crate::specs::ImpactLines::barred_front))]
fn put_front<W: Write>(barred: &BarredImage, writer: &mut W) -> Result<(), WriteFailed>
    ensures ok { OnOk result (Appends (W.contents writer.old) (W.contents writer.new)
        (spec.barred_front barred.now)) }
    ensures err { OnErr result (AppendsBeginning (W.contents writer.old) (W.contents writer.new)
        (spec.barred_front barred.now)) }
{
    let mut digits = Buffer::new();
    let request = digits.format(barred.request.value()).as_bytes();
    let file = file_word(barred.file).as_bytes();
    let state = state_word(barred.state).as_bytes();
    let submitter = barred.submitter.as_str().as_bytes();
    let now = now_word(barred.is_allowed).as_bytes();
    put_each(
        &[
            request, b"\t", file, b"\t", state, b"\t", submitter, b"\t", now, b"\t",
        ],
        writer,
    )
}

/// Writes the words of a component below the level.
fn put_lack<W: Write>(
    component: &Component,
    needs: Generation,
    writer: &mut W,
) -> Result<(), WriteFailed>
    ensures ok { OnOk result (Appends (W.contents writer.old) (W.contents writer.new)
        (codes "sbat " ++ component.now.name ++ codes " " ++ decimal component.now.generation
        ++ codes " " ++ decimal needs)) }
    ensures err { OnErr result (AppendsBeginning (W.contents writer.old) (W.contents writer.new)
        (codes "sbat " ++ component.now.name ++ codes " " ++ decimal component.now.generation
        ++ codes " " ++ decimal needs)) }
{
    let name = component.name.as_str().as_bytes();
    let mut digits = Buffer::new();
    let has = digits.format(component.generation.value()).as_bytes();
    let mut digits = Buffer::new();
    let needs = digits.format(needs.value()).as_bytes();
    put_each(&[b"sbat ", name, b" ", has, b" ", needs], writer)
}

/// Writes the rule that would bar an image.
fn put_rule<W: Write>(rule: &Rule, writer: &mut W) -> Result<(), WriteFailed>
    ensures ok { OnOk result (Appends (W.contents writer.old) (W.contents writer.new)
        (spec.rule_words rule.now)) }
    ensures err { OnErr result (AppendsBeginning (W.contents writer.old) (W.contents writer.new)
        (spec.rule_words rule.now)) }
{
    match rule {
        Rule::Digest => put(b"dbx-digest", writer),
        Rule::Certificate => put(b"dbx-certificate", writer),
        Rule::Component(component, needs) => put_lack(component, *needs, writer),
    }
}

/// Writes a tab, the title and LF.
#[tactic(auto, unfolding(crate::specs::ImpactLines::title_end))]
fn put_title<W: Write>(title: &Title, writer: &mut W) -> Result<(), WriteFailed>
    ensures ok { OnOk result (Appends (W.contents writer.old) (W.contents writer.new)
        (spec.title_end title.now)) }
    ensures err { OnErr result (AppendsBeginning (W.contents writer.old) (W.contents writer.new)
        (spec.title_end title.now)) }
{
    put_each(&[b"\t", title.as_str().as_bytes(), b"\n"], writer)
}

/// Writes the line of an image that would be barred.
fn put_barred<W: Write>(barred: &BarredImage, writer: &mut W) -> Result<(), WriteFailed>
    ensures ok { OnOk result (Appends (W.contents writer.old) (W.contents writer.new)
        (spec.barred_line barred.now)) }
    ensures err { OnErr result (AppendsBeginning (W.contents writer.old) (W.contents writer.new)
        (spec.barred_line barred.now)) }
{
    put_front(barred, writer)?;
    put_rule(&barred.rule, writer)?;
    put_title(&barred.title, writer)
}

/// Writes a line for each image.
fn put_all_barred<W: Write>(bars: &[BarredImage], writer: &mut W) -> Result<(), WriteFailed>
    ensures ok { OnOk result (Appends (W.contents writer.old) (W.contents writer.new)
        (flat_map spec.barred_line bars.now)) }
    ensures err { OnErr result (AppendsBeginning (W.contents writer.old) (W.contents writer.new)
        (flat_map spec.barred_line bars.now)) }
{
    for barred in bars {
        put_barred(barred, writer)?;
    }
    Ok(())
}

/// Writes the line of dbx.
#[tactic(auto, unfolding(crate::specs::ImpactLines::dbx_line))]
fn put_dbx<W: Write>(length: u64, writer: &mut W) -> Result<(), WriteFailed>
    ensures ok { OnOk result (Appends (W.contents writer.old) (W.contents writer.new)
        (spec.dbx_line length)) }
    ensures err { OnErr result (AppendsBeginning (W.contents writer.old) (W.contents writer.new)
        (spec.dbx_line length)) }
{
    let mut digits = Buffer::new();
    let length = digits.format(length).as_bytes();
    put_each(&[b"dbx ", length, b"\n"], writer)
}

/// Writes an impact: a line for each image that a Confirm would bar, in the order of the calls that
/// brought them, and `dbx N`, the length of dbx in bytes after it. The columns of an image,
/// separated by tabs: its request, `submitted` or `returned`, the request's state, the submitter,
/// `allowed` or `refused` now, the rule (`dbx-digest`, `dbx-certificate`, or `sbat NAME HAS
/// NEEDS`), the title.
pub fn print_impact<W: Write>(impact: &ShownImpact, writer: &mut W) -> Result<(), WriteFailed>
    ensures ok { OnOk result (Appends (W.contents writer.old) (W.contents writer.new)
        (spec.impact_lines impact.now)) }
    ensures err { OnErr result (AppendsBeginning (W.contents writer.old) (W.contents writer.new)
        (spec.impact_lines impact.now)) }
{
    put_all_barred(&impact.bars, writer)?;
    put_dbx(impact.dbx, writer)
}
