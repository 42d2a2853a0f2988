//! Elements read from the front of bytes.
ghost use Rattle.std.specs.Prelude.{◌≡◌, ◌++◌, ℕ, List, Some, None, IfOk, OnErr, MatchOption, MatchResult};
ghost use Rattle.base.specs.Elements.{IsElement};
ghost use Rattle.base.specs.Parts.{element_of, part_of};

use crate::der::{Element, NotDer};
use crate::length_form::length_form;

/// The element at the front and the bytes after it.
#[tactic(auto, unfolding(crate::specs::Parts::element_of))]
fn first_element(bytes: &[u8]) -> Option<(Element<'_>, &[u8])>
    ensures { MatchOption result (element_of bytes.now ≡ None)
        (λ p. element_of bytes.now ≡ Some (part_of p.0 p.1.now)) }
{
    let (tag, after) = bytes.split_first()?;
    if *tag % 32 == 31 {
        return None;
    }
    let (before, size) = length_form(after)?;
    if after.len() < before + size {
        return None;
    }
    let (whole, rest) = bytes.split_at(1 + before + size);
    let (_, content) = whole.split_at(1 + before);
    Some((
        Element {
            tag: *tag,
            whole,
            content,
        },
        rest,
    ))
}

/// The element at the front of the bytes, and the bytes after it. Takes no memory; the time doesn't
/// depend on how many bytes there are.
///
/// A tag has one byte, and a length form up to five; a length needn't be in its shortest form.
pub fn element(bytes: &[u8]) -> Result<(Element<'_>, &[u8]), NotDer>
    ensures found { IfOk result (λ p. IsElement p.0.tag p.0.content.now p.0.whole.now
        × (bytes.now ≡ p.0.whole.now ++ p.1.now)) }
    ensures exact { MatchResult result (λ p. element_of bytes.now ≡ Some (part_of p.0 p.1.now))
        (λ _. element_of bytes.now ≡ None) }

    ensures only { OnErr result ((tag : ℕ) (content whole rest : List ℕ)
        → IsElement tag content whole → bytes.now ≡ whole ++ rest → ⊥) }
{
    match first_element(bytes) {
        Some((element, rest)) => Ok((element, rest)),
        None => Err(NotDer),
    }
}
