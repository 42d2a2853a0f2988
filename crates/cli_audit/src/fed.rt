//! The bytes that a hasher was fed, which only clauses read.
ghost use Rattle.std.specs.Prelude.{◌≡◌, ℕ, List, [], ◌++◌};
ghost use Rattle.std.specs.Borrow.{ftrue};

use std::marker::Model;

/// Bytes in the order in which they came. It takes no memory, and its calls do nothing at run time.
#[derive(Drop)]
pub(crate) struct Fed {
    pub ghost bytes: { List ℕ },
}

impl Model for Fed {
    ghost also_owns = { λ _. ftrue };
}

impl Fed {
    /// No bytes.
    pub(crate) fn nothing() -> Fed
        ensures { result.bytes ≡ [] }
    {
        Fed {}
    }

    /// These bytes after those before.
    pub(crate) fn and(_before: &Fed, _more: &[u8]) -> Fed
        ensures { result.bytes ≡ _before.now.bytes ++ _more.now }
    {
        Fed {}
    }
}
