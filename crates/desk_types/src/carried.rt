//! The certificates that an image carries.
ghost use Rattle.std.specs.Prelude.{◌≡◌, ◌≤◌, ℕ, List, length, MatchOption};
ghost use Rattle.base.specs.Digests.{IsArranged, IsAscending};
ghost use Rattle.desk_types.specs.Carrying.{HasMore};
ghost use Rattle.base.specs.Limits.{most_certificates};

use base::{Digest, MOST_CERTIFICATES, arrange};
use std::alloc::AllocError;
use std::marker::Model;

/// The SHA-256 of each TBSCertificate that an image carries: ascending, each once, at most
/// `MOST_CERTIFICATES`. A contract sees the list of them.
#[derive(Debug, Drop)]
pub struct Carried {
    digests: Vec<Digest>,
}

impl Model for Carried {
    ghost Value = { List (List ℕ) };

    ghost view = { λ c. c.digests.items };

    ghost invariant = { λ c.
        IsAscending c.digests.items × (length c.digests.items ≤ most_certificates) };
}

impl Carried {
    /// Digests that are ascending, each once, and within the limit.
    pub fn of(digests: Vec<Digest>) -> Carried
        requires ascending { IsAscending digests.items }
        requires few { length digests.items ≤ most_certificates }
        ensures { result ≡ digests.items }
    {
        Carried { digests }
    }

    /// The digests, ascending, each once, or `None` if more than `MOST_CERTIFICATES` are different.
    /// The time is that of sorting.
    pub fn new(digests: Vec<Digest>) -> Option<Carried>
        ensures { MatchOption result (HasMore digests.items)
            (λ carried. IsArranged digests.items carried) }
    {
        let mut digests = digests;
        arrange(&mut digests);
        if MOST_CERTIFICATES < digests.len() {
            return None;
        }
        Some(Carried::of(digests))
    }

    /// The digests.
    pub fn as_slice(&self) -> &[Digest]
        ensures value { result.now ≡ self.now }
        ensures ascending { IsAscending self.now }
        ensures few { length self.now ≤ most_certificates }
    {
        &self.digests
    }
}

impl Clone for Carried {
    ghost is_clone = { λ carried copy. copy ≡ carried };

    /// A copy. Takes memory for its digests.
    fn clone(&self) -> Result<Carried, AllocError> {
        let digests = self.digests.clone()?;
        Ok(Carried { digests })
    }
}
