//! Entries of one import.
ghost use Rattle.std.specs.Prelude.{◌≡◌, ◌<◌, ◌≤◌, ◌∷◌, [], IfOk, MatchOption, Some, bytes_eq, true};
ghost use Rattle.sbat.specs.Fields.{sbat};
ghost use Rattle.desk_types.specs.Forms.{most_imported};
ghost use Rattle.desk_types.specs.Imports.{Imported, named_count, no_entries};

use crate::{Digests, ImportedComponents, Raise};
use base::Digest;
use sbat::Stamp;
use std::alloc::{AllocError, Global};
use std::marker::Model;

/// The most entries of one import, including those that it skips.
pub const MOST_IMPORTED: usize = 10_000;

/// The entries of one import: digests of images, digests of certificates, components, and the count
/// of entries that it skips, at most `MOST_IMPORTED` in all; and the stamp of its level, if it has
/// one.
#[derive(Debug, Drop)]
pub struct Import {
    stamp: Option<Stamp>,
    passed: u64,
    digests: Digests,
    certificates: Digests,
    components: ImportedComponents,
}

impl Model for Import {
    ghost use Rattle.std.specs.Prelude.{◌≤◌};
    ghost use Rattle.desk_types.specs.Forms.{most_imported};
    ghost use Rattle.desk_types.specs.Imports.{Imported, named_count};

    ghost Value = { Imported };

    ghost view = { λ i. record {
      stamp = i.stamp;
      passed = i.passed;
      digests = i.digests;
      certificates = i.certificates;
      components = i.components;
    } };

    ghost invariant = { λ i.
        named_count i.passed i.digests i.certificates i.components ≤ most_imported };
}

impl Import {
    /// One digest of an image. Takes memory for it.
    pub fn of_digest(alloc: Global, digest: Digest) -> Result<Import, AllocError>
        ensures { IfOk result (λ import. import ≡ record no_entries { digests = digest ∷ [] }) }
    {
        let digests = Digests::one(alloc, digest)?;
        Ok(Import {
            stamp: None,
            passed: 0,
            digests,
            certificates: Digests::none(alloc),
            components: ImportedComponents::none(alloc),
        })
    }

    /// One digest of a certificate. Takes memory for it.
    pub fn of_certificate(alloc: Global, digest: Digest) -> Result<Import, AllocError>
        ensures { IfOk result (λ import.
            import ≡ record no_entries { certificates = digest ∷ [] }) }
    {
        let certificates = Digests::one(alloc, digest)?;
        Ok(Import {
            stamp: None,
            passed: 0,
            digests: Digests::none(alloc),
            certificates,
            components: ImportedComponents::none(alloc),
        })
    }

    /// One component with its generation, and the stamp of the level that requires it, or `None` if
    /// the component is named `sbat`. Takes memory for a copy of the component.
    pub fn of_raise(alloc: Global, raise: &Raise) -> Result<Option<Import>, AllocError>
        ensures { IfOk result (λ found. MatchOption found
            (bytes_eq raise.now.component.name sbat ≡ true)
            (λ import. import ≡ record no_entries {
              stamp = Some raise.now.stamp;
              components = raise.now.component ∷ [];
            })) }
    {
        let Some(components) = ImportedComponents::one(alloc, &raise.component)? else {
            return Ok(None);
        };
        Ok(Some(Import {
            stamp: Some(raise.stamp),
            passed: 0,
            digests: Digests::none(alloc),
            certificates: Digests::none(alloc),
            components,
        }))
    }

    /// The import of these, or `None` if they are more than `MOST_IMPORTED` entries in all.
    pub fn new(
        stamp: Option<Stamp>,
        passed: u64,
        digests: Digests,
        certificates: Digests,
        components: ImportedComponents,
    ) -> Option<Import>
        ensures { MatchOption result
            (most_imported < named_count passed digests certificates components)
            (λ import. import ≡ record {
              stamp = stamp;
              passed = passed;
              digests = digests;
              certificates = certificates;
              components = components;
            }) }
    {
        let named = digests.as_slice().len()
            + certificates.as_slice().len()
            + components.as_slice().len();
        if MOST_IMPORTED < named {
            return None;
        }
        let room = (MOST_IMPORTED - named) as u64;
        if room < passed {
            return None;
        }
        Some(Import {
            stamp,
            passed,
            digests,
            certificates,
            components,
        })
    }

    /// The stamp of the level that it names, if it names one.
    pub fn stamp(&self) -> Option<Stamp>
        ensures { result ≡ self.now.stamp }
    {
        self.stamp
    }

    /// The count of entries that it skips.
    pub fn passed(&self) -> u64
        ensures value { result ≡ self.now.passed }
        ensures few { result ≤ most_imported }
        ensures limit { named_count self.now.passed self.now.digests self.now.certificates
            self.now.components ≤ most_imported }
    {
        self.passed
    }

    /// The digests of images, in their order, with repeats.
    pub fn digests(&self) -> &Digests
        ensures { result.now ≡ self.now.digests }
    {
        &self.digests
    }

    /// The digests of certificates, in their order, with repeats.
    pub fn certificates(&self) -> &Digests
        ensures { result.now ≡ self.now.certificates }
    {
        &self.certificates
    }

    /// The components, in their order, with repeats.
    pub fn components(&self) -> &ImportedComponents
        ensures { result.now ≡ self.now.components }
    {
        &self.components
    }
}

impl Clone for Import {
    ghost is_clone = { λ import copy. copy ≡ import };

    /// A copy. Takes memory for its lists.
    fn clone(&self) -> Result<Import, AllocError> {
        let digests = self.digests.clone()?;
        let certificates = self.certificates.clone()?;
        let components = self.components.clone()?;
        Ok(Import {
            stamp: self.stamp,
            passed: self.passed,
            digests,
            certificates,
            components,
        })
    }
}
