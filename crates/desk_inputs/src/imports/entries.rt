//! Entries of signature lists, as entries of an import.
ghost use Rattle.std.specs.Prelude.{◌≡◌, ◌≤◌, length, take, true};
ghost use Rattle.siglist.specs.EntryViews.{seen_entry};
ghost use Rattle.desk_inputs.specs.imports.Entries as spec;
ghost use Rattle.desk_inputs.specs.imports.FromLists as items;
ghost use Rattle.desk_inputs.specs.imports.Gathering.{is_free};

use crate::hashing::hash_of;
use crate::imports::item::Item;
use base::{Digest, tbs};
use siglist::{Entry, Kind};

/// The digest in the first 32 bytes.
fn first_digest(bytes: &[u8]) -> Digest
    requires { 32 ≤ length bytes.now }
    ensures { result ≡ take 32 bytes.now }
{
    let (front, _) = bytes.split_at(32);
    let mut digest = [0; 32];
    digest.copy_from_slice(front);
    Digest::from(digest)
}

/// The SHA-256 of the TBSCertificate of a certificate, if the bytes are one; otherwise the entry is
/// skipped.
fn certificate_item(bytes: &[u8]) -> Item
    ensures { result ≡ items.certificate_item (items.tbs_of bytes.now) }
{
    match tbs(bytes) {
        Ok(tbs) => Item::Certificate(hash_of(tbs)),
        Err(_) => Item::Passed,
    }
}

/// The entry of a list of this kind, as an entry of an import.
pub(crate) fn item_of(kind: &Kind, entry: &Entry<'_>) -> Item
    requires { spec.Suits kind.now (seen_entry entry.now) }
    ensures value { result ≡ items.item_of kind.now (seen_entry entry.now) }
    ensures other { is_free result ≡ true }
{
    match kind {
        Kind::Sha256 => Item::Digest(first_digest(entry.body)),
        Kind::X509 => certificate_item(entry.body),
        Kind::X509Sha256 => Item::Certificate(first_digest(entry.body)),
        Kind::Other(_) => Item::Passed,
    }
}
