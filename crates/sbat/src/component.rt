//! Components: a name and a generation.
ghost use Rattle.std.specs.Prelude.{◌≡◌};

use crate::generation::Generation;
use crate::name::ComponentName;
use std::alloc::AllocError;

/// A component: a name, and the generation that an image has of it. A contract sees the record of
/// both.
#[derive(Debug, PartialEq, Eq, Drop)]
pub struct Component {
    pub name: ComponentName,
    pub generation: Generation,
}

impl Clone for Component {
    ghost is_clone = { λ component copy. copy ≡ component };

    fn clone(&self) -> Result<Component, AllocError> {
        Ok(Component {
            name: self.name.clone()?,
            generation: self.generation,
        })
    }
}
