//! Texts of arrays, whose items are written one after another, and what stands in front of them.
ghost use Rattle.std.specs.Prelude.{◌≡◌, ◌++◌, ◌∷◌, IfOk, MatchResult, OnOk, map};
ghost use Rattle.serde_json.specs.Data.{Data, array};
ghost use Rattle.serde_json.specs.View.{items_of};
ghost use Rattle.serde_json.specs.Written.{compact_text};
ghost use Rattle.http_responses.specs.json.Arrays as spec;

use std::alloc::{AllocError, Global};

/// What has a text in JSON.
pub(crate) trait JsonText {
    /// The value.
    ghost as_data: { Self → Data };

    /// Its text. Takes memory.
    fn json_text(&self, alloc: Global) -> Result<Vec<u8>, AllocError>
        ensures { IfOk result (λ text. text.items ≡ compact_text (as_data self.now)) };
}

/// Adds bytes after a comma. Takes memory, and without it leaves the text as it is.
fn push_after_comma(text: &mut Vec<u8>, bytes: &[u8]) -> Result<(), AllocError>
    ensures { MatchResult result (λ _. text.new.items ≡ text.old.items ++ 44 ∷ bytes.now)
        (λ _. text.new.items ≡ text.old.items) }
{
    let length = text.len();
    text.push(b',')?;
    match text.extend_from_slice(bytes) {
        Ok(()) => Ok(()),
        Err(error) => {
            text.truncate(length);
            Err(error)
        }
    }
}

/// Adds the text of an item, after a comma. Takes memory, and without it leaves the text as it is.
pub(crate) fn push_item<T: JsonText>(
    alloc: Global,
    text: &mut Vec<u8>,
    item: &T,
) -> Result<(), AllocError>
    ensures { MatchResult result
        (λ _. text.new.items ≡ text.old.items ++ spec.after_comma (T.as_data item.now))
        (λ _. text.new.items ≡ text.old.items) }
{
    let one = item.json_text(alloc)?;
    push_after_comma(text, &one)
}

/// Adds the texts of items, each after a comma.
fn push_items<T: JsonText>(alloc: Global, text: &mut Vec<u8>, items: &[T]) -> Result<(), AllocError>
    ensures { OnOk result (text.new.items
        ≡ text.old.items ++ spec.after_commas T.as_data items.now) }
{
    for item in items {
        push_item(alloc, text, item)?;
    }
    Ok(())
}

/// The array of the items in the text, each after a comma. Takes memory for its brackets.
pub(crate) fn in_brackets(mut text: Vec<u8>) -> Result<Vec<u8>, AllocError>
    ensures { IfOk result (λ whole. whole.items ≡ spec.bracketed text.items) }
{
    if text.is_empty() {
        text.push(b'[')?;
    } else {
        text[0] = b'[';
    }
    text.push(b']')?;
    Ok(text)
}

/// The text with this in front. It is moved up, and never held twice.
pub(crate) fn in_front(front: &[u8], text: Vec<u8>) -> Result<Vec<u8>, AllocError>
    ensures { IfOk result (λ whole. whole.items ≡ front.now ++ text.items) }
{
    let mut whole = text;
    whole.extend_from_slice(front)?;
    whole.rotate_right(front.len());
    Ok(whole)
}

/// Adds the texts of items, with a comma between two.
fn push_with_commas<T: JsonText>(
    alloc: Global,
    text: &mut Vec<u8>,
    items: &[T],
) -> Result<(), AllocError>
    ensures { OnOk result (text.new.items
        ≡ text.old.items ++ spec.with_commas T.as_data items.now) }
{
    match items.split_first() {
        Some((first, others)) => {
            let one = first.json_text(alloc)?;
            text.extend_from_slice(&one)?;
            push_items(alloc, text, others)
        }
        None => Ok(()),
    }
}

/// Adds the text of an array of the items, in their order. Takes memory for it, and for the tree of
/// one item at a time.
#[tactic(auto, using(crate::proofs::ArrayLemmas::array_with_commas))]
pub(crate) fn push_array<T: JsonText>(
    alloc: Global,
    text: &mut Vec<u8>,
    items: &[T],
) -> Result<(), AllocError>
    ensures { OnOk result (text.new.items
        ≡ text.old.items ++ compact_text (array (items_of (map T.as_data items.now)))) }
{
    text.push(b'[')?;
    push_with_commas(alloc, text, items)?;
    text.push(b']')?;
    Ok(())
}

/// The text of an array of the items, in their order. Takes memory for it, and for the tree of one
/// item at a time.
pub(crate) fn array_text<T: JsonText>(alloc: Global, items: &[T]) -> Result<Vec<u8>, AllocError>
    ensures { IfOk result (λ text.
        text.items ≡ compact_text (array (items_of (map T.as_data items.now)))) }
{
    let mut text = Vec::new(alloc);
    push_array(alloc, &mut text, items)?;
    Ok(text)
}
