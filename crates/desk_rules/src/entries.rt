//! The entries of a proposal, as they are looked up.
ghost use Rattle.std.specs.Prelude.{◌≡◌, ℕ, List, IfErr, IfOk, reverse, true};
ghost use Rattle.std.specs.FinMap.{get};
ghost use Rattle.desk_types.specs.Raising.{names_no_sbat};
ghost use Rattle.desk_history.specs.Calls.{is_among};
ghost use Rattle.desk_history.specs.Forces.{forced};
ghost use Rattle.desk_history.specs.Impact.{standing_of};
ghost use Rattle.desk_history.specs.Level.{greatest};
ghost use Rattle.desk_rules.specs.Entries as spec;

use crate::decisions::set_of;
use base::{Digest, Refusal};
use desk_history::Standing;
use desk_types::{Import, ListedKind};
use sbat::{Component, ComponentName, Generation, Level, Stamp};
use std::alloc::{AllocError, Global};
use std::collections::BTreeSet;

/// The entries of a proposal by themselves: what they revoke, and the greatest generation that they
/// require of each name. They list nothing. Each lookup takes the logarithm of their number.
#[derive(Debug, Drop)]
pub struct Entries {
    digests: BTreeSet<Digest>,
    certificates: BTreeSet<Digest>,
    level: Level,
}

/// True if the digest is in the set.
fn holds(digests: &BTreeSet<Digest>, digest: Digest) -> bool
    ensures { result ≡ is_among digests.now.keys digest }
{
    digests.contains(&digest)
}

/// The greatest generation of each name among the components, as a level with any stamp.
fn greatest_of(alloc: Global, components: &[Component]) -> Result<Level, AllocError>
    requires { names_no_sbat components.now ≡ true }
    ensures { IfOk result (λ level. (q : List ℕ)
        → get level.generations q ≡ greatest (reverse components.now) q) }
{
    let mut level = Level::new(alloc, Stamp::original());
    for component in components {
        level.raise(component)?;
    }
    Ok(level)
}

impl Entries {
    /// The entries that the import names, which may name one more than once and in any order. Takes
    /// memory for them, and the time of sorting them.
    ///
    /// `NoMemory`: memory was refused.
    pub fn of(alloc: Global, named: &Import) -> Result<Entries, Refusal>
        ensures ok { IfOk result (λ entries.
            spec.StandsAs (spec.held_standing entries) (standing_of (forced named.now))) }
        ensures err { IfErr result (λ refusal. refusal ≡ Refusal.NoMemory) }
    {
        let digests = set_of(alloc, named.digests().as_slice())?;
        let certificates = set_of(alloc, named.certificates().as_slice())?;
        let level = greatest_of(alloc, named.components().as_slice())?;
        Ok(Entries {
            digests,
            certificates,
            level,
        })
    }

    /// The digests of this kind.
    fn digests_of(&self, kind: ListedKind) -> &BTreeSet<Digest>
        ensures { result.now.keys ≡ spec.held_digests self.now kind }
    {
        match kind {
            ListedKind::Digest => &self.digests,
            ListedKind::Certificate => &self.certificates,
        }
    }
}

impl Standing for Entries {
    ghost standing = { spec.held_standing };

    fn is_revoked(&self, kind: ListedKind, digest: Digest) -> bool {
        holds(self.digests_of(kind), digest)
    }

    fn is_listed(&self, _kind: ListedKind, _digest: Digest) -> bool {
        false
    }

    fn required_generation(&self, name: &ComponentName) -> Option<Generation> {
        if name.is_sbat() {
            None
        } else {
            self.level.generation_of(name.as_str().as_bytes())
        }
    }
}
