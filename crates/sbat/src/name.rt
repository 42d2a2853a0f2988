//! Names of components (shim's SBAT.md).
ghost use Rattle.std.specs.Prelude.{◌≡◌, ℕ, List, Some, IfOk, IsErrOf, false, nat_eq, refl, string_bytes, true};
ghost use Rattle.std.specs.Cmp.{partial_equiv_from_equiv};
ghost use Rattle.std.specs.Cmp.Lexicographic.{nat_list_cmp_total, nat_list_eq_equiv, pointwise, slice_cmp, texts_po, texts_ties};
ghost use Rattle.std.specs.List.{list_all};
ghost use Rattle.std.specs.Ordering.{nat_cmp};
ghost use Rattle.std.specs.Str.{bytes_eq};
ghost use Rattle.sbat.specs.Fields as spec;

use std::alloc::{AllocError, Global};
use std::cmp::Ordering;
use std::marker::Model;
use std::str;
use thiserror::Error;

/// A component's name: 1 to 128 bytes of 0x21 to 0x7E except the comma. Names are ordered by their
/// bytes. A contract sees the list of the bytes.
#[derive(Debug, Drop)]
pub struct ComponentName(String);

impl Model for ComponentName {
    ghost Value = { List ℕ };

    ghost view = { λ n. string_bytes n.0 };

    ghost invariant = { λ n. spec.is_name (string_bytes n.0) ≡ true };
}

/// Why bytes weren't accepted as a name.
#[derive(Clone, Copy, Debug, PartialEq, Eq, Error)]
pub enum NameFault {
    /// They aren't 1 to 128 bytes of 0x21 to 0x7E except the comma.
    #[error("not a component's name")]
    Form,
    /// Memory was refused.
    #[error("memory was refused")]
    NoMemory,
}

/// Whether a name may have each of the bytes.
fn are_name_bytes(bytes: &[u8]) -> bool
    ensures { result ≡ list_all spec.is_name_byte bytes.now }
{
    bytes.iter().all(|b| b.is_ascii_graphic() && *b != b',')
}

/// Whether bytes are a component's name.
fn is_name(bytes: &[u8]) -> bool
    ensures { result ≡ spec.is_name bytes.now }
{
    !bytes.is_empty() && bytes.len() <= 128 && are_name_bytes(bytes)
}

/// The bytes as text.
fn text_of(bytes: &[u8]) -> &str
    requires { spec.is_name bytes.now ≡ true }
    ensures { result.now ≡ bytes.now }
{
    match str::from_utf8(bytes) {
        Ok(text) => text,
        Err(_) => unreachable!(),
    }
}

impl ComponentName {
    /// The name with these bytes. Takes memory for it.
    pub fn parse(alloc: Global, bytes: &[u8]) -> Result<ComponentName, NameFault>
        ensures exact { IfOk result (λ name. name ≡ bytes.now) }
        ensures form { IfOk result (λ name. spec.is_name name ≡ true) }

        ensures err { IsErrOf result NameFault.Form → spec.is_name bytes.now ≡ false }
    {
        if !is_name(bytes) {
            return Err(NameFault::Form);
        }
        match String::from_str(alloc, text_of(bytes)) {
            Ok(text) => Ok(ComponentName(text)),
            Err(_) => Err(NameFault::NoMemory),
        }
    }

    /// The name as text.
    pub fn as_str(&self) -> &str
        ensures value { result.now ≡ self.now }
        ensures form { spec.is_name self.now ≡ true }
    {
        self.0.as_str()
    }

    /// Whether it is `sbat`, the name of SBAT itself.
    pub fn is_sbat(&self) -> bool
        ensures { result ≡ bytes_eq self.now spec.sbat }
    {
        self.as_str() == "sbat"
    }

    /// The text of the name.
    pub(crate) fn into_string(self) -> String
        ensures value { string_bytes result ≡ self }
        ensures form { spec.is_name self ≡ true }
    {
        self.0
    }
}

impl Clone for ComponentName {
    ghost is_clone = { λ name copy. copy ≡ name };

    fn clone(&self) -> Result<ComponentName, AllocError> {
        Ok(ComponentName(self.0.clone()?))
    }
}

impl PartialEq for ComponentName {
    ghost eq = { pointwise nat_eq };

    ghost laws = { partial_equiv_from_equiv nat_list_eq_equiv };

    fn eq(&self, other: &ComponentName) -> bool {
        self.as_str() == other.as_str()
    }
}

impl Eq for ComponentName {
    ghost laws = { nat_list_eq_equiv };
}

impl PartialOrd for ComponentName {
    ghost partial_cmp = { λ x y. Some (slice_cmp nat_cmp x y) };

    ghost laws = { texts_po };

    fn partial_cmp(&self, other: &ComponentName) -> Option<Ordering> {
        Some(self.cmp(other))
    }
}

impl Ord for ComponentName {
    ghost cmp = { slice_cmp nat_cmp };

    ghost total = { nat_list_cmp_total };

    ghost matches_partial_cmp = { λ x y. refl };

    ghost matches_eq = { texts_ties };

    fn cmp(&self, other: &ComponentName) -> Ordering {
        self.as_str().cmp(other.as_str())
    }
}
