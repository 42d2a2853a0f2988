//! The components that an import names.
ghost use Rattle.std.specs.Prelude.{◌≡◌, ◌<◌, ◌≤◌, ◌⊎◌, ◌∷◌, [], IfOk, List, MatchOption};
ghost use Rattle.std.specs.Prelude.{bytes_eq, false, length, true};
ghost use Rattle.sbat.specs.Fields.{sbat};
ghost use Rattle.desk_types.specs.Forms.{most_imported};
ghost use Rattle.desk_types.specs.Raising.{names_no_sbat};

use crate::import::MOST_IMPORTED;
use sbat::Component;
use std::alloc::{AllocError, Global};
use std::marker::Model;

/// Components in the order of an import, repeats kept, at most `MOST_IMPORTED`, none of them named
/// `sbat`. A contract sees the list of them.
#[derive(Debug, Drop)]
pub struct ImportedComponents {
    components: Vec<Component>,
}

impl Model for ImportedComponents {
    ghost use Rattle.std.specs.Prelude.{◌≡◌, ◌≤◌, List, length, true};
    ghost use Rattle.sbat.specs.declared.component.Component.{Component};
    ghost use Rattle.desk_types.specs.Forms.{most_imported};
    ghost use Rattle.desk_types.specs.Raising.{names_no_sbat};

    ghost Value = { List Component };

    ghost view = { λ r. r.components.items };

    ghost invariant = { λ r. (length r.components.items ≤ most_imported)
        × (names_no_sbat r.components.items ≡ true) };
}

/// True if no component is named `sbat`.
fn is_without_sbat(components: &[Component]) -> bool
    ensures { result ≡ names_no_sbat components.now }
{
    components
        .iter()
        .all(|component| component.name.as_str() != "sbat")
}

impl ImportedComponents {
    /// No components.
    pub(crate) fn none(alloc: Global) -> ImportedComponents
        ensures { result ≡ [] }
    {
        let components = Vec::new(alloc);
        ImportedComponents { components }
    }

    /// One component, or `None` if it is named `sbat`. Takes memory for a copy of it.
    pub(crate) fn one(
        alloc: Global,
        component: &Component,
    ) -> Result<Option<ImportedComponents>, AllocError>
        ensures { IfOk result (λ found. MatchOption found
            (bytes_eq component.now.name sbat ≡ true)
            (λ components. components ≡ component.now ∷ [])) }
    {
        if component.name.is_sbat() {
            return Ok(None);
        }
        let copy = component.clone()?;
        let mut components = Vec::new(alloc);
        components.push(copy)?;
        Ok(Some(ImportedComponents { components }))
    }

    /// The components, or `None` if there are more than `MOST_IMPORTED` or one is named `sbat`.
    pub fn new(components: Vec<Component>) -> Option<ImportedComponents>
        ensures { MatchOption result
            ((most_imported < length components.items) ⊎ (names_no_sbat components.items ≡ false))
            (λ named. named ≡ components.items) }
    {
        if MOST_IMPORTED < components.len() {
            return None;
        }
        if !is_without_sbat(&components) {
            return None;
        }
        Some(ImportedComponents { components })
    }

    /// The components.
    pub fn as_slice(&self) -> &[Component]
        ensures value { result.now ≡ self.now }
        ensures few { length self.now ≤ most_imported }
        ensures form { names_no_sbat self.now ≡ true }
    {
        &self.components
    }

    /// Gives the components back.
    pub fn into_vec(self) -> Vec<Component>
        ensures { result.items ≡ self }
    {
        let ImportedComponents { components } = self;
        components
    }
}

impl Clone for ImportedComponents {
    ghost is_clone = { λ raises copy. copy ≡ raises };

    /// A copy. Takes memory for its components.
    fn clone(&self) -> Result<ImportedComponents, AllocError> {
        let components = self.components.clone()?;
        Ok(ImportedComponents { components })
    }
}
