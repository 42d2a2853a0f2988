//! Entries gathered into one command.
ghost use Rattle.std.specs.Prelude.{◌≡◌, ◌∷◌, ◌++◌, ◌≤◌, [], List, None, MatchOption, OnOk, true};
ghost use Rattle.desk_types.specs.Raising.{names_no_sbat};
ghost use Rattle.desk_inputs.specs.imports.Gathering.{Gathering, Gathers, is_free};
ghost use Rattle.desk_inputs.specs.imports.Items.{IsCommandOf, IsTooMany};
ghost use Rattle.desk_inputs.specs.declared.imports.item.Item.{Item};

use crate::imports::item::Item;
use base::Digest;
use desk_types::{Command, Digests, Import, ImportedComponents, MOST_IMPORTED};
use sbat::{Component, Stamp};
use std::alloc::{AllocError, Global};
use std::marker::Model;

/// The entries of an import, at most one more than the limit. A contract sees their count and the
/// import of them.
#[derive(Debug, Drop)]
pub(crate) struct Gathered {
    count: usize,
    passed: u64,
    digests: Vec<Digest>,
    certificates: Vec<Digest>,
    components: Vec<Component>,
}

impl Model for Gathered {
    ghost use Rattle.std.specs.Prelude.{◌≡◌, ◌≤◌, None, true};
    ghost use Rattle.desk_types.specs.Raising.{names_no_sbat};
    ghost use Rattle.desk_inputs.specs.imports.Gathering.{Gathering};

    ghost Value = { Gathering };

    ghost view = { λ g. record {
      count = g.count;
      names = record {
        stamp = None;
        passed = g.passed;
        digests = g.digests.items;
        certificates = g.certificates.items;
        components = g.components.items;
      };
    } };

    ghost invariant = { λ g. (g.passed ≤ g.count)
        × (names_no_sbat g.components.items ≡ true) };
}

impl Gathered {
    /// No entry yet. Takes no memory.
    pub(crate) fn new(alloc: Global) -> Gathered
        ensures { Gathers [] result }
    {
        Gathered {
            count: 0,
            passed: 0,
            digests: Vec::new(alloc),
            certificates: Vec::new(alloc),
            components: Vec::new(alloc),
        }
    }

    /// Gathers one more entry, or none if the limit is passed already.
    pub(crate) fn keep(&mut self, item: Item) -> Result<(), AllocError>
        requires other { is_free item ≡ true }
        ensures ok { OnOk result ((items : List Item)
            → Gathers items self.old → Gathers (items ++ item ∷ []) self.new) }
    {
        if MOST_IMPORTED < self.count {
            return Ok(());
        }
        match item {
            Item::Digest(digest) => self.digests.push(digest)?,
            Item::Certificate(digest) => self.certificates.push(digest)?,
            Item::Component(component) => self.components.push(component)?,
            Item::Passed => self.passed += 1,
        }
        self.count += 1;
        Ok(())
    }

    /// The command that names all entries, or `None` if they are more than the limit.
    pub(crate) fn into_command(self, stamp: Option<Stamp>) -> Option<Command>
        ensures { (items : List Item) → Gathers items self
            → MatchOption result (IsTooMany items) (IsCommandOf stamp items) }
    {
        if MOST_IMPORTED < self.count {
            return None;
        }
        let Some(digests) = Digests::new(self.digests) else {
            return None;
        };
        let Some(certificates) = Digests::new(self.certificates) else {
            return None;
        };
        let Some(components) = ImportedComponents::new(self.components) else {
            return None;
        };
        match Import::new(stamp, self.passed, digests, certificates, components) {
            Some(import) => Some(Command::ImportRevocations(import)),
            None => None,
        }
    }
}
