//! The components of an image.
ghost use Rattle.std.specs.Prelude.{◌≡◌, ◌∷◌, ◌++◌, [], IfErr, IfOk, OnOk, if◌then◌else◌, length, nat_le};
ghost use Rattle.base.specs.Limits.{most_components};
ghost use Rattle.sbat.specs.Refusals.{IsComponents, RefusesComponents};

use crate::component::Component;
use crate::component_list::Components;
use crate::fault::SbatFault;
use crate::name::NameFault;
use crate::row::read_image_row;
use crate::text::rows;
use base::MOST_COMPONENTS;
use std::alloc::{AllocError, Global};

/// Adds a component unless there are more than the limit already.
fn keep(found: &mut Vec<Component>, component: Component) -> Result<(), AllocError>
    ensures ok { OnOk result (found.new.items ≡ (if nat_le (length found.old.items) most_components
        then found.old.items ++ component ∷ [] else found.old.items)) }
{
    if found.len() <= MOST_COMPONENTS {
        found.push(component)?;
    }
    Ok(())
}

/// The components that the text of an image's section `.sbat` names, in order; a name may come
/// twice. An image without that section has the empty text and no component. Takes memory for at
/// most 257 components.
///
/// The first wrong line is returned as Row with its number. TooLong, for more than 256 components,
/// comes only if no line is wrong. NoMemory: memory was refused.
pub fn components(alloc: Global, text: &[u8]) -> Result<Components, SbatFault>
    ensures exact { IfOk result (IsComponents text.now) }

    ensures first { IfErr result (RefusesComponents text.now) }
{
    let mut found = Vec::new(alloc);
    for line in rows(text) {
        match read_image_row(alloc, line.text) {
            Ok(component) => {
                if keep(&mut found, component).is_err() {
                    return Err(SbatFault::NoMemory);
                }
            }
            Err(NameFault::Form) => return Err(SbatFault::Row(line.number)),
            Err(NameFault::NoMemory) => return Err(SbatFault::NoMemory),
        }
    }
    match Components::new(found) {
        Some(components) => Ok(components),
        None => Err(SbatFault::TooLong),
    }
}
