//! The components that an image names.
ghost use Rattle.std.specs.Prelude.{◌≡◌, ◌<◌, ◌≤◌, List, length, MatchOption};
ghost use Rattle.base.specs.Limits.{most_components};

use crate::component::Component;
use base::MOST_COMPONENTS;
use std::alloc::AllocError;
use std::marker::Model;

/// The SBAT components of an image, in the image's order, at most `MOST_COMPONENTS`; a name may
/// come twice. A contract sees the list of them.
#[derive(Debug, Drop)]
pub struct Components {
    items: Vec<Component>,
}

impl Model for Components {
    ghost use Rattle.std.specs.Prelude.{◌≤◌, List, length};
    ghost use Rattle.base.specs.Limits.{most_components};
    ghost use Rattle.sbat.specs.declared.component.Component.{Component};

    ghost Value = { List Component };

    ghost view = { λ c. c.items.items };

    ghost invariant = { λ c. length c.items.items ≤ most_components };
}

impl Components {
    /// The components, or `None` if there are more than `MOST_COMPONENTS`.
    pub fn new(items: Vec<Component>) -> Option<Components>
        ensures { MatchOption result (most_components < length items.items)
            (λ components. components ≡ items.items) }
    {
        if MOST_COMPONENTS < items.len() {
            return None;
        }
        Some(Components { items })
    }

    /// The components.
    pub fn as_slice(&self) -> &[Component]
        ensures value { result.now ≡ self.now }
        ensures few { length self.now ≤ most_components }
    {
        &self.items
    }
}

impl Clone for Components {
    ghost is_clone = { λ components copy. copy ≡ components };

    /// A copy. Takes memory for its components.
    fn clone(&self) -> Result<Components, AllocError> {
        let items = self.items.clone()?;
        Ok(Components { items })
    }
}
