//! The first rule that bars an image.
ghost use Rattle.std.specs.Prelude.{◌≡◌, IfOk};
ghost use Rattle.desk_history.specs.Impact as spec;

use crate::impact::Rule;
use crate::standing::Standing;
use crate::verdicts::{has_revoked, has_revoked_digest};
use desk_types::Facts;
use sbat::{Component, Generation};
use std::alloc::AllocError;

/// The rule of this component, if its generation is below the one that is required. Takes memory
/// for the component.
fn rule_at(component: &Component, asked: Option<Generation>) -> Result<Option<Rule>, AllocError>
    ensures { IfOk result (λ rule. rule ≡ spec.rule_at component.now asked) }
{
    match asked {
        None => Ok(None),
        Some(needed) => {
            if component.generation.value() < needed.value() {
                Ok(Some(Rule::Component(component.clone()?, needed)))
            } else {
                Ok(None)
            }
        }
    }
}

/// The rule of the first component below the level. Takes memory for the component.
fn component_rule<S: Standing>(
    lists: &S,
    components: &[Component],
) -> Result<Option<Rule>, AllocError>
    ensures { IfOk result
        (λ rule. rule ≡ spec.component_rule (S.standing lists.now) components.now) }
{
    for component in components {
        let asked = lists.required_generation(&component.name);
        if let Some(rule) = rule_at(component, asked)? {
            return Ok(Some(rule));
        }
    }
    Ok(None)
}

/// The first rule that bars the image, if one does. Takes memory for a component's name.
pub fn rule_of<S: Standing>(lists: &S, facts: &Facts) -> Result<Option<Rule>, AllocError>
    ensures { IfOk result (λ rule. rule ≡ spec.first_rule (S.standing lists.now) facts.now) }
{
    if has_revoked_digest(lists, facts) {
        return Ok(Some(Rule::Digest));
    }
    if has_revoked(lists, facts.carried.as_slice()) {
        return Ok(Some(Rule::Certificate));
    }
    component_rule(lists, facts.components.as_slice())
}
