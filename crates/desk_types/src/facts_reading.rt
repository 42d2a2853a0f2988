//! An image's facts, read back from their texts.
ghost use Rattle.std.specs.Prelude.{◌≡◌, ◌≢◌, ◌≤◌, ◌∷◌, ◌++◌, ℕ, All, IfNone, IfOk, IfSome, IsErrOf, List, MatchBool, length};
ghost use Rattle.std.specs.Cmp.Lexicographic.{slice_cmp};
ghost use Rattle.std.specs.Ordering.{is_lt, nat_cmp};
ghost use Rattle.sbat.specs.declared.component.Component.{Component};
ghost use Rattle.base.specs.Digests.{IsAscending};
ghost use Rattle.base.specs.Limits.{most_certificates, most_components};
ghost use Rattle.pe_image.specs.Extents.{Lengths};
ghost use Rattle.desk_types.specs.Commands.{IsComponent, IsDigest, IsFacts};
ghost use Rattle.desk_types.specs.Formed.{AreFactsWithin};
ghost use Rattle.desk_types.specs.Items as spec;
ghost use Rattle.desk_types.specs.Reading.{AreMeasures, IsExtent, extent_then, measures_then};
ghost use Rattle.desk_types.specs.declared.facts.Facts.{Facts};

use crate::carried::Carried;
use crate::counting::count_before;
use crate::forms::parted_at_space;
use crate::items_reading::{components_of, digest_before, digests_of};
use crate::{Facts, TextFault};
use base::{Digest, MOST_CERTIFICATES};
use pe_image::Extent;
use sbat::Components;
use std::alloc::Global;

/// True if the first digest is below the second.
fn is_below(one: &Digest, other: &Digest) -> bool
    ensures { result ≡ is_lt (slice_cmp nat_cmp one.now other.now) }
{
    one.cmp(other).is_lt()
}

/// True if the digests ascend, each once.
fn is_ascending(digests: &[Digest]) -> bool
    ensures { MatchBool result (IsAscending digests.now) (IsAscending digests.now → ⊥) }
{
    digests.is_sorted_by(|one, other| is_below(one, other))
}

/// The certificates of a list that an image carries. Takes memory for them.
fn carried_of(alloc: Global, text: &[u8]) -> Result<Carried, TextFault>
    ensures found { IfOk result (λ carried. text.now ≡ spec.digests_text carried) }
    ensures only { IsErrOf result TextFault.Form → (carried : List (List ℕ)) → All IsDigest carried
        → IsAscending carried → length carried ≤ most_certificates
        → text.now ≢ spec.digests_text carried }
{
    let digests = digests_of(alloc, text)?;
    if MOST_CERTIFICATES < digests.len() {
        return Err(TextFault::Form);
    }
    if !is_ascending(&digests) {
        return Err(TextFault::Form);
    }
    Ok(Carried::of(digests))
}

/// The components of a list that an image has. Takes memory for them.
fn image_components_of(alloc: Global, text: &[u8]) -> Result<Components, TextFault>
    ensures found { IfOk result (λ components. text.now ≡ spec.components_text components) }
    ensures only { IsErrOf result TextFault.Form → (components : List Component)
        → All IsComponent components → length components ≤ most_components
        → text.now ≢ spec.components_text components }
{
    let components = components_of(alloc, text)?;
    match Components::new(components) {
        Some(components) => Ok(components),
        None => Err(TextFault::Form),
    }
}

/// The text after the second space, and the lengths before it.
fn extent_before(text: &[u8]) -> Option<(&[u8], Extent)>
    ensures found { IfSome result (λ parts. IsExtent parts.1
        × (text.now ≡ extent_then parts.1 parts.0.now)) }
    ensures only { IfNone result ((extent : Lengths) (rest : List ℕ) → IsExtent extent
        → text.now ≢ extent_then extent rest) }
{
    let (length, text) = count_before(text)?;
    let (gap, text) = count_before(text)?;
    let extent = Extent::new(length, gap)?;
    Some((text, extent))
}

/// An image's lengths and digests.
#[derive(Clone, Copy, Debug, PartialEq, Eq)]
pub(crate) struct Measures {
    extent: Extent,
    file: Digest,
    digest: Digest,
    signing: Digest,
}

/// The text after the fifth space, and the lengths and digests before it.
pub(crate) fn measures_before(text: &[u8]) -> Option<(&[u8], Measures)>
    ensures found { IfSome result (λ parts.
        AreMeasures parts.1.extent parts.1.file parts.1.digest parts.1.signing
        × (text.now ≡ measures_then parts.1.extent parts.1.file parts.1.digest parts.1.signing
        parts.0.now)) }
    ensures only { IfNone result ((extent : Lengths) (file digest signing rest : List ℕ)
        → AreMeasures extent file digest signing
        → text.now ≢ measures_then extent file digest signing rest) }
{
    let Some((text, extent)) = extent_before(text) else {
        return None;
    };
    let Some((text, file)) = digest_before(text) else {
        return None;
    };
    let Some((text, digest)) = digest_before(text) else {
        return None;
    };
    let Some((text, signing)) = digest_before(text) else {
        return None;
    };
    let measures = Measures {
        extent,
        file,
        digest,
        signing,
    };
    Some((text, measures))
}

/// The facts of these lengths and digests and of two lists. Takes memory for the lists.
pub(crate) fn facts_with(
    alloc: Global,
    measures: Measures,
    carried: &[u8],
    components: &[u8],
) -> Result<Facts, TextFault>
    ensures found { IfOk result (λ facts.
        (spec.facts_text facts ≡ measures_then measures.extent measures.file measures.digest
        measures.signing (carried.now ++ (32 ∷ components.now)))) }
    ensures only { IsErrOf result TextFault.Form → (facts : Facts) → IsFacts facts
        → AreFactsWithin facts → carried.now ≡ spec.digests_text facts.carried
        → components.now ≢ spec.components_text facts.components }
{
    let carried = carried_of(alloc, carried)?;
    let components = image_components_of(alloc, components)?;
    Ok(Facts {
        extent: measures.extent,
        file: measures.file,
        digest: measures.digest,
        signing: measures.signing,
        carried,
        components,
    })
}

/// The facts whose text this is. Takes memory for their lists.
pub(crate) fn facts_of(alloc: Global, text: &[u8]) -> Result<Facts, TextFault>
    ensures found { IfOk result (λ facts. text.now ≡ spec.facts_text facts) }
    ensures only { IsErrOf result TextFault.Form → (facts : Facts) → IsFacts facts
        → AreFactsWithin facts → text.now ≢ spec.facts_text facts }
{
    let Some((lists, measures)) = measures_before(text) else {
        return Err(TextFault::Form);
    };
    let Some((carried, components)) = parted_at_space(lists) else {
        return Err(TextFault::Form);
    };
    facts_with(alloc, measures, carried, components)
}
