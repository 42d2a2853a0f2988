//! Rows of the tables for a verdict, and the verdict.
ghost use Rattle.std.specs.Prelude.{◌≡◌, find, option_copied};
ghost use Rattle.desk_history.specs.Writes.{is_named};
ghost use Rattle.desk_rules.specs.Views as spec;

use base::Digest;
use desk_history::{Standing, Verdict, is_same, verdict_of};
use desk_types::{Facts, ListedKind, Listing};
use sbat::{Component, ComponentName, Generation};

/// The rows for a verdict on an image: those of the listed and revoked entries and of the SBAT
/// level whose keys are in the image's facts. It may have others.
#[derive(Drop)]
pub struct ListView {
    /// The keys of the listed entries.
    pub listed: Vec<Listing>,
    /// The revoked digests of images.
    pub revoked_digests: Vec<Digest>,
    /// The revoked digests of certificates.
    pub revoked_certificates: Vec<Digest>,
    /// The level's components.
    pub components: Vec<Component>,
}

/// The row of this name.
pub(crate) fn row_of<'a>(rows: &'a [Component], name: &ComponentName) -> Option<&'a Component>
    ensures { option_copied result ≡ find (is_named name.now) rows.now }
{
    rows.iter().find(|row| name.as_str() == row.name.as_str())
}

impl ListView {
    /// The revoked digests of this kind.
    fn revocations(&self, kind: ListedKind) -> &[Digest]
        ensures { result.now ≡ spec.seen_revoked self.now kind }
    {
        match kind {
            ListedKind::Digest => &self.revoked_digests,
            ListedKind::Certificate => &self.revoked_certificates,
        }
    }

    /// The generation in the row of this name.
    pub(crate) fn generation(&self, name: &ComponentName) -> Option<Generation>
        ensures { result ≡ spec.generation_in self.now.components.items name.now }
    {
        row_of(&self.components, name).map(|row| row.generation)
    }
}

impl Standing for ListView {
    ghost standing = { spec.seen_standing };

    fn is_revoked(&self, kind: ListedKind, digest: Digest) -> bool {
        self.revocations(kind).iter().any(|row| digest == *row)
    }

    fn is_listed(&self, kind: ListedKind, digest: Digest) -> bool {
        self.listed
            .iter()
            .any(|row| is_same(kind, row.kind) && digest == row.digest)
    }

    fn required_generation(&self, name: &ComponentName) -> Option<Generation> {
        if name.is_sbat() {
            Generation::new(1)
        } else {
            self.generation(name)
        }
    }
}

/// The desk's verdict on the image, from the rows of the view.
pub fn verdict(view: &ListView, facts: &Facts) -> Verdict
    ensures { spec.SaysVerdict view.now facts.now result }
{
    verdict_of(view, facts)
}
