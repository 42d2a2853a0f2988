//! The parts of canonical texts.
ghost use Rattle.std.specs.Prelude.{◌≡◌, IfOk, [], ◌∷◌, string_bytes};
ghost use Rattle.hex.specs.Hex.{encode_lower};
ghost use Rattle.desk_types.specs.Items as spec;

use crate::Facts;
use base::Digest;
use sbat::{Component, Stamp};
use std::alloc::{AllocError, Global};

/// The text of a list of no items.
const NONE: &str = "-";

/// Digests in lower case, joined by commas, or `-` for none.
pub(crate) fn digests_text(alloc: Global, digests: &[Digest]) -> Result<String, AllocError>
    ensures { IfOk result (λ text. string_bytes text ≡ spec.digests_text digests.now) }
{
    let Some((first, rest)) = digests.split_first() else {
        return String::from_str(alloc, NONE);
    };
    let mut text = first.to_string(alloc)?;
    for digest in rest {
        write!(text, ",{digest}")?;
    }
    Ok(text)
}

/// Components as GENERATION:NAME, joined by commas, or `-` for none.
pub(crate) fn components_text(alloc: Global, components: &[Component]) -> Result<String, AllocError>
    ensures { IfOk result (λ text. string_bytes text ≡ spec.components_text components.now) }
{
    let Some((first, rest)) = components.split_first() else {
        return String::from_str(alloc, NONE);
    };
    let mut text = component_text(alloc, first)?;
    for component in rest {
        text.push(',')?;
        text.push_str(component_text(alloc, component)?.as_str())?;
    }
    Ok(text)
}

/// A component as GENERATION:NAME.
fn component_text(alloc: Global, component: &Component) -> Result<String, AllocError>
    ensures { IfOk result (λ text. string_bytes text ≡ spec.component_text component.now) }
{
    let generation = component.generation.value();
    let name = component.name.as_str();
    format!(in alloc; "{generation}:{name}")
}

/// A stamp, or 0 for none.
pub(crate) fn stamp_text(alloc: Global, stamp: Option<Stamp>) -> Result<String, AllocError>
    ensures { IfOk result (λ text. string_bytes text ≡ spec.stamp_text stamp) }
{
    match stamp {
        None => String::from_str(alloc, "0"),
        Some(stamp) => stamp.value().to_string(alloc),
    }
}

/// Three digests in lower case.
fn three_digests(
    alloc: Global,
    file: &Digest,
    digest: &Digest,
    signing: &Digest,
) -> Result<String, AllocError>
    ensures { IfOk result (λ text. string_bytes text ≡ spec.spaced
        (encode_lower file.now ∷ encode_lower digest.now ∷ encode_lower signing.now ∷ [])) }
{
    format!(in alloc; "{file} {digest} {signing}")
}

/// An image's facts.
pub(crate) fn facts_text(alloc: Global, facts: &Facts) -> Result<String, AllocError>
    ensures { IfOk result (λ text. string_bytes text ≡ spec.facts_text facts.now) }
{
    let length = facts.extent.length();
    let gap = facts.extent.gap();
    let digests = three_digests(alloc, &facts.file, &facts.digest, &facts.signing)?;
    let carried = digests_text(alloc, facts.carried.as_slice())?;
    let components = components_text(alloc, facts.components.as_slice())?;
    format!(in alloc; "{length} {gap} {digests} {carried} {components}")
}
