//! Lists that requests are collected into.
ghost use Rattle.std.specs.Prelude.{◌≡◌, ◌++◌, ◌∷◌, [], List, OnOk};
ghost use Rattle.desk_types.specs.declared.shown.ShownRequest.{ShownRequest};

use desk_types::ShownRequest;
use std::alloc::{AllocError, Global};

/// What requests are collected into, one after another.
pub trait RequestList {
    /// The requests that it holds, in their order.
    ghost holds: { Self → List ShownRequest → Type 0 };

    /// An empty one.
    fn new(alloc: Global) -> Self
        ensures { holds result [] };

    /// Adds a request at the end. Fails if memory is refused; the list's contents are then unknown.
    fn push(&mut self, shown: ShownRequest) -> Result<(), AllocError>
        ensures { (before : List ShownRequest) → holds self.old before
            → OnOk result (holds self.new (before ++ shown ∷ [])) };
}

impl RequestList for Vec<ShownRequest> {
    ghost holds = { λ v shown. v.items ≡ shown };

    fn new(alloc: Global) -> Vec<ShownRequest> {
        Vec::new(alloc)
    }

    fn push(&mut self, shown: ShownRequest) -> Result<(), AllocError> {
        match Vec::push(self, shown) {
            Ok(()) => Ok(()),
            Err(_) => Err(AllocError),
        }
    }
}
