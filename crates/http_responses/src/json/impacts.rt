//! The impact of a proposal in JSON.
ghost use Rattle.std.specs.Prelude.{◌≡◌, ◌++◌, IfOk};
ghost use Rattle.serde_json.specs.View.{view};
ghost use Rattle.serde_json.specs.Written.{compact_text};
ghost use Rattle.http_responses.specs.json.ImpactPieces as pieces;
ghost use Rattle.http_responses.specs.json.Impacts as spec;

use crate::json::arrays::{JsonText, array_text, in_front};
use crate::json::in_json::InJson;
use crate::json::verdicts::{below, one_word};
use desk_history::{BarredImage, Rule, ShownImpact};
use desk_types::{Counts, ProposalNumber};
use serde_json::{Value, json};
use std::alloc::{AllocError, Global};

/// The rule that would bar an image, in the form of its verdict then.
fn rule_value(alloc: Global, rule: &Rule) -> Result<Value, AllocError>
    ensures { IfOk result (λ v. view v ≡ spec.rule_data rule.now) }
{
    match rule {
        Rule::Digest => one_word(alloc, "dbx-digest"),
        Rule::Certificate => one_word(alloc, "dbx-certificate"),
        Rule::Component(component, needed) => below(alloc, *needed, component),
    }
}

impl InJson for BarredImage {
    ghost as_data = { spec.barred_data };

    fn value(&self, alloc: Global) -> Result<Value, AllocError> {
        let allowed = self.is_allowed;
        let by = rule_value(alloc, &self.rule)?;
        let file = self.file.text();
        let request = self.request.value();
        let state = self.state.text();
        let submitter = self.submitter.as_str();
        let title = self.title.as_str();
        json!(in alloc; {
            "allowed": allowed,
            "by": by,
            "file": file,
            "request": request,
            "state": state,
            "submitter": submitter,
            "title": title,
        })
    }
}

impl JsonText for BarredImage {
    ghost as_data = { spec.barred_data };

    #[tactic(auto, using(crate::proofs::FloatLemmas::barred_has_no_float))]
    fn json_text(&self, alloc: Global) -> Result<Vec<u8>, AllocError> {
        self.value(alloc)?.to_vec(alloc)
    }
}

/// The counts of what would be added.
fn adds_value(alloc: Global, counts: Counts) -> Result<Value, AllocError>
    ensures { IfOk result (λ v. view v ≡ spec.adds_data counts) }
{
    let certificates = counts.certificates;
    let components = counts.components;
    let digests = counts.digests;
    json!(in alloc; {
        "certificates": certificates,
        "components": components,
        "digests": digests,
    })
}

/// The text of the counts of what would be added.
#[tactic(auto, using(crate::proofs::FloatLemmas::adds_have_no_float))]
fn adds_text(alloc: Global, counts: Counts) -> Result<Vec<u8>, AllocError>
    ensures { IfOk result (λ text. text.items ≡ compact_text (spec.adds_data counts)) }
{
    adds_value(alloc, counts)?.to_vec(alloc)
}

/// The text before the images.
fn before_bars(alloc: Global, counts: Counts) -> Result<Vec<u8>, AllocError>
    ensures { IfOk result (λ text. text.items ≡ pieces.before_bars counts) }
{
    let adds = adds_text(alloc, counts)?;
    let mut text = Vec::new(alloc);
    text.extend_from_slice(b"{\"adds\":".as_slice())?;
    text.extend_from_slice(&adds)?;
    text.extend_from_slice(b",\"bars\":".as_slice())?;
    Ok(text)
}

/// The text after the images.
fn after_bars(alloc: Global, dbx: u64, number: ProposalNumber) -> Result<Vec<u8>, AllocError>
    ensures { IfOk result (λ text. text.items ≡ pieces.after_bars dbx number) }
{
    let dbx = dbx.to_string(alloc)?;
    let number = number.value().to_string(alloc)?;
    let mut text = Vec::new(alloc);
    text.extend_from_slice(b",\"dbx\":".as_slice())?;
    text.extend_from_slice(dbx.as_bytes())?;
    text.extend_from_slice(b",\"proposal\":".as_slice())?;
    text.extend_from_slice(number.as_bytes())?;
    text.push(b'}')?;
    Ok(text)
}

/// The text between these two. It is moved up, and never held twice.
fn between(front: &[u8], text: Vec<u8>, end: &[u8]) -> Result<Vec<u8>, AllocError>
    ensures { IfOk result (λ whole. whole.items ≡ front.now ++ (text.items ++ end.now)) }
{
    let mut whole = text;
    whole.extend_from_slice(end)?;
    in_front(front, whole)
}

/// The impact of the proposal of this number as a JSON object. Takes memory for the text, and for
/// the tree of one image at a time.
#[tactic(auto, using(crate::proofs::ImpactLemmas::impact_text))]
pub fn impact_json(
    alloc: Global,
    number: ProposalNumber,
    impact: &ShownImpact,
) -> Result<Vec<u8>, AllocError>
    ensures { IfOk result (λ text.
        text.items ≡ compact_text (spec.impact_data number impact.now)) }
{
    let front = before_bars(alloc, impact.adds)?;
    let end = after_bars(alloc, impact.dbx, number)?;
    let bars = array_text(alloc, &impact.bars)?;
    between(&front, bars, &end)
}
