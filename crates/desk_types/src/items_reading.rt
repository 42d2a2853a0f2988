//! The parts of canonical texts, read back.
ghost use Rattle.std.specs.Prelude.{◌≡◌, ◌≢◌, ◌==◌, ◌∷◌, ◌++◌, ℕ, All, IfNone, IfOk, IfSome, IsErrOf, List, OnOk, Option, decimal, not, position, true};
ghost use Rattle.std.specs.List.{list_all};
ghost use Rattle.hex.specs.Hex.{IsBytes, encode_lower};
ghost use Rattle.sbat.specs.Fields.{is_generation, is_stamp};
ghost use Rattle.sbat.specs.declared.component.Component.{Component};
ghost use Rattle.desk_types.specs.Commands.{IsComponent, IsDigest, IsStamp};
ghost use Rattle.desk_types.specs.Items as spec;
ghost use Rattle.desk_types.specs.Reading.{AddsItem};

use crate::TextFault;
use crate::counting::count_of;
use crate::form_keeping::{show_component, show_count, show_digest};
use crate::forms::parted_at_space;
use base::Digest;
use hex::FromHexError;
use sbat::{Component, ComponentName, Generation, NameFault, Stamp};
use std::alloc::Global;

/// The digest whose text this is.
pub(crate) fn digest_of(text: &[u8]) -> Option<Digest>
    ensures found { IfSome result (λ digest. IsDigest digest
        × (text.now ≡ encode_lower digest)) }
    ensures only { IfNone result ((digest : List ℕ) → IsDigest digest
        → text.now ≢ encode_lower digest) }
{
    let Ok(digest) = Digest::parse(text) else {
        return None;
    };
    if text != digest.text().as_slice() {
        return None;
    }
    show_digest(&digest);
    Some(digest)
}

/// The text after the first space, and the digest whose text is before that space.
pub(crate) fn digest_before(text: &[u8]) -> Option<(&[u8], Digest)>
    ensures found { IfSome result (λ parts. IsDigest parts.1
        × (text.now ≡ encode_lower parts.1 ++ (32 ∷ parts.0.now))) }
    ensures only { IfNone result ((digest : List ℕ) (rest : List ℕ) → IsDigest digest
        → text.now ≢ encode_lower digest ++ (32 ∷ rest)) }
{
    let (first, rest) = parted_at_space(text)?;
    let digest = digest_of(first)?;
    Some((rest, digest))
}

/// The fault of a text that isn't that of bytes.
fn fault_of(fault: FromHexError) -> TextFault
    ensures { fault ≡ FromHexError.OutOfMemory → result ≡ TextFault.NoMemory }
{
    match fault {
        FromHexError::OutOfMemory => TextFault::NoMemory,
        FromHexError::InvalidHexCharacter { .. }
        | FromHexError::OddLength
        | FromHexError::InvalidStringLength => TextFault::Form,
    }
}

/// The bytes whose text this is. Takes memory for them, and for their text.
pub(crate) fn bytes_of(alloc: Global, text: &[u8]) -> Result<Vec<u8>, TextFault>
    ensures found { IfOk result (λ bytes. text.now ≡ encode_lower bytes.items) }
    ensures only { IsErrOf result TextFault.Form → (bytes : List ℕ) → IsBytes bytes
        → text.now ≢ encode_lower bytes }
{
    let bytes = match hex::decode(alloc, text) {
        Ok(bytes) => bytes,
        Err(fault) => return Err(fault_of(fault)),
    };
    let Ok(written) = hex::encode(alloc, bytes.as_slice()) else {
        return Err(TextFault::NoMemory);
    };
    if text != written.as_bytes() {
        return Err(TextFault::Form);
    }
    Ok(bytes)
}

/// The place of the first such byte.
fn first_at(text: &[u8], byte: u8) -> Option<usize>
    ensures { result ≡ position (λ b. b == byte) text.now }
{
    text.iter().position(|other| *other == byte)
}

/// The texts before and after the first such byte, if there is one.
fn parted_at(text: &[u8], byte: u8) -> Option<(&[u8], &[u8])>
    ensures found { IfSome result (λ parts. (text.now ≡ parts.0.now ++ (byte ∷ parts.1.now))
        × (list_all (λ b. not (b == byte)) parts.0.now ≡ true)) }
    ensures only { IfNone result (list_all (λ b. not (b == byte)) text.now ≡ true) }
{
    let end = first_at(text, byte)?;
    Some((&text[..end], &text[end + 1..]))
}

/// Adds the digest of an item.
fn add_digest(digests: &mut Vec<Digest>, item: &[u8]) -> Result<(), TextFault>
    ensures found { OnOk result (AddsItem IsDigest encode_lower digests.old.items item.now
        digests.new.items) }
    ensures only { IsErrOf result TextFault.Form → (digest : List ℕ) → IsDigest digest
        → item.now ≢ encode_lower digest }
{
    let Some(digest) = digest_of(item) else {
        return Err(TextFault::Form);
    };
    if digests.push(digest).is_err() {
        return Err(TextFault::NoMemory);
    }
    Ok(())
}

/// The digests of a list. Takes memory for them.
pub(crate) fn digests_of(alloc: Global, text: &[u8]) -> Result<Vec<Digest>, TextFault>
    ensures found { IfOk result (λ digests. All IsDigest digests.items
        × (text.now ≡ spec.digests_text digests.items)) }
    ensures only { IsErrOf result TextFault.Form → (digests : List (List ℕ))
        → All IsDigest digests → text.now ≢ spec.digests_text digests }
{
    let mut digests = Vec::new(alloc);
    if text == b"-".as_slice() {
        return Ok(digests);
    }
    let mut rest = text;
    while let Some((item, more)) = parted_at(rest, b',') {
        add_digest(&mut digests, item)?;
        rest = more;
    }
    add_digest(&mut digests, rest)?;
    Ok(digests)
}

/// The generation whose decimal text this is.
pub(crate) fn generation_of(text: &[u8]) -> Option<Generation>
    ensures found { IfSome result (λ number. (is_generation number ≡ true)
        × (text.now ≡ decimal number)) }
    ensures only { IfNone result ((number : ℕ) → is_generation number ≡ true
        → text.now ≢ decimal number) }
{
    let number = count_of(text)?;
    show_count(number);
    match u32::try_from(number) {
        Ok(number) => Generation::new(number),
        Err(_) => None,
    }
}

/// The component of this name and generation. Takes memory for the name.
pub(crate) fn named_component(
    alloc: Global,
    name: &[u8],
    generation: Generation,
) -> Result<Component, TextFault>
    ensures found { IfOk result (λ component. IsComponent component
        × (component ≡ record { name = name.now; generation = generation })) }
    ensures only { IsErrOf result TextFault.Form → (component : Component)
        → IsComponent component → name.now ≢ component.name }
{
    match ComponentName::parse(alloc, name) {
        Ok(name) => {
            let component = Component { name, generation };
            show_component(&component);
            Ok(component)
        }
        Err(NameFault::Form) => Err(TextFault::Form),
        Err(NameFault::NoMemory) => Err(TextFault::NoMemory),
    }
}

/// The component of an item. Takes memory for its name.
fn component_of(alloc: Global, text: &[u8]) -> Result<Component, TextFault>
    ensures found { IfOk result (λ component. IsComponent component
        × (text.now ≡ spec.component_text component)) }
    ensures only { IsErrOf result TextFault.Form → (component : Component)
        → IsComponent component → text.now ≢ spec.component_text component }
{
    let Some((generation, name)) = parted_at(text, b':') else {
        return Err(TextFault::Form);
    };
    let Some(generation) = generation_of(generation) else {
        return Err(TextFault::Form);
    };
    named_component(alloc, name, generation)
}

/// Adds the component of an item. Takes memory for its name.
fn add_component(
    alloc: Global,
    components: &mut Vec<Component>,
    item: &[u8],
) -> Result<(), TextFault>
    ensures found { OnOk result (AddsItem IsComponent spec.component_text components.old.items
        item.now components.new.items) }
    ensures only { IsErrOf result TextFault.Form → (component : Component)
        → IsComponent component → item.now ≢ spec.component_text component }
{
    match component_of(alloc, item) {
        Ok(component) => match components.push(component) {
            Ok(()) => Ok(()),
            Err(_) => Err(TextFault::NoMemory),
        },
        Err(fault) => Err(fault),
    }
}

/// The components of a list. Takes memory for them.
pub(crate) fn components_of(alloc: Global, text: &[u8]) -> Result<Vec<Component>, TextFault>
    ensures found { IfOk result (λ components. All IsComponent components.items
        × (text.now ≡ spec.components_text components.items)) }
    ensures only { IsErrOf result TextFault.Form → (components : List Component)
        → All IsComponent components → text.now ≢ spec.components_text components }
{
    let mut components = Vec::new(alloc);
    if text == b"-".as_slice() {
        return Ok(components);
    }
    let mut rest = text;
    while let Some((item, more)) = parted_at(rest, b',') {
        add_component(alloc, &mut components, item)?;
        rest = more;
    }
    add_component(alloc, &mut components, rest)?;
    Ok(components)
}

/// The stamp whose decimal text this is.
pub(crate) fn stamp_of(text: &[u8]) -> Option<Stamp>
    ensures found { IfSome result (λ number. (is_stamp number ≡ true)
        × (text.now ≡ decimal number)) }
    ensures only { IfNone result ((number : ℕ) → is_stamp number ≡ true
        → text.now ≢ decimal number) }
{
    let number = count_of(text)?;
    show_count(number);
    Stamp::new(number)
}

/// The stamp whose text this is, or none for 0.
pub(crate) fn stamp_or_none(text: &[u8]) -> Option<Option<Stamp>>
    ensures found { IfSome result (λ stamp. IsStamp stamp
        × (text.now ≡ spec.stamp_text stamp)) }
    ensures only { IfNone result ((stamp : Option ℕ) → IsStamp stamp
        → text.now ≢ spec.stamp_text stamp) }
{
    if text == b"0".as_slice() {
        return Some(None);
    }
    let stamp = stamp_of(text)?;
    Some(Some(stamp))
}
