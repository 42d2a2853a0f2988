//! The digests that an import names.
ghost use Rattle.std.specs.Prelude.{◌≡◌, ◌<◌, ◌≤◌, ◌∷◌, [], ℕ, IfOk, List, MatchOption, length};
ghost use Rattle.desk_types.specs.Forms.{most_imported};

use crate::import::MOST_IMPORTED;
use base::Digest;
use std::alloc::{AllocError, Global};
use std::marker::Model;

/// Digests in the order of an import, repeats kept, at most `MOST_IMPORTED`. A contract sees the
/// list of them.
#[derive(Debug, Drop)]
pub struct Digests {
    digests: Vec<Digest>,
}

impl Model for Digests {
    ghost Value = { List (List ℕ) };

    ghost view = { λ d. d.digests.items };

    ghost invariant = { λ d. length d.digests.items ≤ most_imported };
}

impl Digests {
    /// No digests.
    pub(crate) fn none(alloc: Global) -> Digests
        ensures { result ≡ [] }
    {
        let digests = Vec::new(alloc);
        Digests { digests }
    }

    /// One digest. Takes memory for it.
    pub(crate) fn one(alloc: Global, digest: Digest) -> Result<Digests, AllocError>
        ensures { IfOk result (λ digests. digests ≡ digest ∷ []) }
    {
        let mut digests = Vec::new(alloc);
        digests.push(digest)?;
        Ok(Digests { digests })
    }

    /// The digests, or `None` if there are more than `MOST_IMPORTED`.
    pub fn new(digests: Vec<Digest>) -> Option<Digests>
        ensures { MatchOption result (most_imported < length digests.items)
            (λ named. named ≡ digests.items) }
    {
        if MOST_IMPORTED < digests.len() {
            return None;
        }
        Some(Digests { digests })
    }

    /// The digests.
    pub fn as_slice(&self) -> &[Digest]
        ensures value { result.now ≡ self.now }
        ensures few { length self.now ≤ most_imported }
    {
        &self.digests
    }

    /// Gives the digests back.
    pub fn into_vec(self) -> Vec<Digest>
        ensures { result.items ≡ self }
    {
        let Digests { digests } = self;
        digests
    }
}

impl Clone for Digests {
    ghost is_clone = { λ digests copy. copy ≡ digests };

    /// A copy. Takes memory for them.
    fn clone(&self) -> Result<Digests, AllocError> {
        let digests = self.digests.clone()?;
        Ok(Digests { digests })
    }
}
