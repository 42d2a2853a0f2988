//! Requested keys, borrowed.
ghost use Rattle.std.specs.Prelude.{◌≡◌};
ghost use Rattle.store_decision_rows.specs.lists.Gathering.{entry_keys};
ghost use Rattle.desk_rules.specs.Keys.{one_key};
ghost use Rattle.desk_rules.specs.Views.{no_entries};

use base::Digest;
use desk_types::ListedKind;
use std::slice;

/// Requested digests of images and of certificates.
#[derive(Clone, Copy)]
pub(crate) struct Digests<'a> {
    pub(crate) images: &'a [Digest],
    pub(crate) certificates: &'a [Digest],
}

impl<'a> Digests<'a> {
    /// None.
    pub(crate) fn none() -> Digests<'a>
        ensures { entry_keys result ≡ no_entries }
    {
        Digests {
            images: &[],
            certificates: &[],
        }
    }

    /// The one of this kind.
    pub(crate) fn one(kind: ListedKind, digest: &'a Digest) -> Digests<'a>
        ensures { entry_keys result ≡ one_key kind digest.now }
    {
        let one = slice::from_ref(digest);
        match kind {
            ListedKind::Digest => Digests {
                images: one,
                certificates: &[],
            },
            ListedKind::Certificate => Digests {
                images: &[],
                certificates: one,
            },
        }
    }
}
