//! Revoked and listed entries and required generations, from any source.
ghost use Rattle.std.specs.Prelude.{◌≡◌};
ghost use Rattle.desk_history.specs.Verdicts.{Standing as Stands};

use base::Digest;
use desk_types::ListedKind;
use sbat::{ComponentName, Generation};

/// The revoked and the listed entries, and the generations that the level requires.
pub trait Standing {
    /// The lists and the level that the value represents.
    ghost standing: { Self → Stands };

    /// True if the digest is revoked: of an image, or of a TBSCertificate.
    fn is_revoked(&self, kind: ListedKind, digest: Digest) -> bool
        ensures { result ≡ (standing self.now).revoked kind digest };

    /// True if the entry is listed.
    fn is_listed(&self, kind: ListedKind, digest: Digest) -> bool
        ensures { result ≡ (standing self.now).listed kind digest };

    /// The generation that the level requires of the component of this name.
    fn required_generation(&self, name: &ComponentName) -> Option<Generation>
        ensures { result ≡ (standing self.now).required name.now };
}
