//! The level that an image is checked against.
ghost use Rattle.std.specs.Prelude.{◌≡◌, ℕ, List, OnErr, OnOk, false, string_bytes, true};
ghost use Rattle.std.specs.BTreeMap.{IsUnchanged};
ghost use Rattle.std.specs.FinMap.{empty, entries, get, len};
ghost use Rattle.std.specs.Iterator.{YieldsFirstBy, item_count};
ghost use Rattle.std.specs.Str.{bytes_eq};
ghost use Rattle.sbat.specs.Fields.{is_generation, sbat};
ghost use Rattle.sbat.specs.Levels.{IsLevel, Stamped, byte_entries, entry_of, generations_of, raised, stamped_code};

use crate::component::Component;
use crate::generation::Generation;
use crate::stamp::Stamp;
use std::alloc::{AllocError, Global};
use std::collections::{BTreeMap, btree_map};
use std::marker::Model;
use std::str;

/// A stamp, and the least generation that an image may have of each name other than `sbat`. A
/// contract sees the stamp, and the map from names to generations.
#[derive(Debug, Drop)]
pub struct Level {
    stamp: Stamp,
    names: BTreeMap<String, Generation>,
}

impl Model for Level {
    ghost Value = { Stamped };

    ghost coded = { stamped_code };

    ghost view = { λ l. record { stamp = l.stamp; generations = generations_of l.names.entries } };

    ghost invariant = { λ l. IsLevel (record {
      stamp = l.stamp;
      generations = generations_of l.names.entries;
    }) };
}

/// Raises the generation of a name to this one, unless it is higher already.
fn raise_name(
    names: &mut BTreeMap<String, Generation>,
    name: String,
    generation: Generation,
) -> Result<(), AllocError>
    ensures ok { OnOk result (generations_of names.new.entries
        ≡ raised (generations_of names.old.entries)
        (record { name = string_bytes name; generation = generation })) }
    ensures err { OnErr result (IsUnchanged names.old names.new) }
    ensures range { is_generation generation ≡ true }
{
    let number = generation.value();
    if let Some(present) = names.get(name.as_str()) {
        if number <= present.value() {
            return Ok(());
        }
    }
    names.insert(name, generation)?;
    Ok(())
}

impl Level {
    /// The level of that stamp, without names. Takes no memory.
    pub fn new(alloc: Global, stamp: Stamp) -> Level
        ensures { result ≡ record { stamp = stamp; generations = empty } }
    {
        let number = stamp.value();
        prove!(number >= 1_000_000_000);
        Level {
            stamp,
            names: BTreeMap::new(alloc),
        }
    }

    /// The stamp.
    pub fn stamp(&self) -> Stamp
        ensures { result ≡ self.now.stamp }
    {
        self.stamp
    }

    /// Raises the generation of the component's name, which isn't `sbat`, to the component's,
    /// unless it is higher already. Takes memory for the name; if it is refused, the level doesn't
    /// change.
    pub fn raise(&mut self, component: &Component) -> Result<(), AllocError>
        requires other { bytes_eq component.now.name sbat ≡ false }
        ensures ok { OnOk result (self.new
            ≡ record self.old { generations = raised self.old.generations component.now }) }
        ensures err { OnErr result (self.new ≡ self.old) }
    {
        let name = component.name.clone()?.into_string();
        raise_name(&mut self.names, name, component.generation)
    }

    /// The generation of the name with these bytes, if the level has it.
    pub fn generation_of(&self, name: &[u8]) -> Option<Generation>
        ensures { result ≡ get self.now.generations name.now }
    {
        match str::from_utf8(name) {
            Ok(text) => self.names.get(text).copied(),
            Err(_) => None,
        }
    }

    /// The number of names.
    pub fn len(&self) -> usize
        ensures exact { result ≡ len self.now.generations }
        ensures form { IsLevel self.now }
    {
        self.names.len()
    }

    /// The names with their generations, ascending by the names' bytes.
    pub fn iter(&self) -> LevelIter<'_>
        ensures exact { result ≡ entries self.now.generations }
        ensures form { IsLevel self.now }
    {
        LevelIter {
            rest: self.names.iter(),
        }
    }
}

/// The names of a level with their generations, borrowed.
#[derive(Drop)]
pub struct LevelIter<'a> {
    rest: btree_map::Iter<'a, String, Generation>,
}

impl<'a> Model for LevelIter<'a> {
    ghost Value = { List (List ℕ × ℕ) };

    ghost view = { λ i. byte_entries i.rest };
}

impl<'a> Iterator for LevelIter<'a> {
    type Item = (&'a str, Generation);

    ghost next_gives = { YieldsFirstBy entry_of (λ entries. entries) };

    ghost remaining = { item_count (λ entries. entries) };

    fn next(&mut self) -> Option<(&'a str, Generation)> {
        match self.rest.next() {
            Some((name, generation)) => Some((name.as_str(), *generation)),
            None => None,
        }
    }
}
