//! Imports of SBAT levels.
ghost use Rattle.std.specs.Prelude.{◌≡◌, IfErr, IfOk, IfSome, MatchResult, true};
ghost use Rattle.sbat.specs.Fields.{is_name};
ghost use Rattle.desk_inputs.specs.imports.FromLevel.{IsLevelImport, RefusesLevelImport, level_items};
ghost use Rattle.desk_inputs.specs.imports.Gathering.{Gathers};

use crate::imports::fault::ImportFault;
use crate::imports::gathering::Gathered;
use crate::imports::item::Item;
use desk_types::Command;
use sbat::{Component, ComponentName, Generation, Level, NameFault, SbatFault, read_level};
use std::alloc::Global;

/// The component of this name.
fn component_of(alloc: Global, name: &str, generation: Generation) -> Result<Component, NameFault>
    requires { is_name name.now ≡ true }
    ensures { MatchResult result
        (λ component. component ≡ record { name = name.now; generation = generation })
        (λ fault. fault ≡ NameFault.NoMemory) }
{
    let name = ComponentName::parse(alloc, name.as_bytes())?;
    Ok(Component { name, generation })
}

/// Gathers the names of a level, or returns `None` if memory is refused.
fn gather(alloc: Global, level: &Level) -> Option<Gathered>
    ensures { IfSome result (Gathers (level_items level.now)) }
{
    let mut gathered = Gathered::new(alloc);
    for (name, generation) in level.iter() {
        let Ok(component) = component_of(alloc, name, generation) else {
            return None;
        };
        if gathered.keep(Item::Component(component)).is_err() {
            return None;
        }
    }
    Some(gathered)
}

/// The import of the text of an SBAT level (shim's SBAT.md), as one command with the level's stamp.
/// It has the level's names ascending by their bytes, each once with its greatest generation. The
/// text is read as `sbat::read_level` does. Takes memory for at most 10,001 names, twice.
///
/// The first wrong line is returned as Line with its number, which is 1 if there is no line.
/// TooLong, for more than 10,000 different names, comes only if no line is wrong. NoMemory: memory
/// was refused.
pub fn import_level(alloc: Global, text: &[u8]) -> Result<Command, ImportFault>
    ensures exact { IfOk result (IsLevelImport text.now) }

    ensures first { IfErr result (RefusesLevelImport text.now) }
{
    let level = match read_level(alloc, text) {
        Ok(level) => level,
        Err(SbatFault::Row(line)) => return Err(ImportFault::Line(line)),
        Err(SbatFault::TooLong) => return Err(ImportFault::TooLong),
        Err(SbatFault::NoMemory) => return Err(ImportFault::NoMemory),
    };
    let Some(gathered) = gather(alloc, &level) else {
        return Err(ImportFault::NoMemory);
    };
    match gathered.into_command(Some(level.stamp())) {
        Some(command) => Ok(command),
        None => Err(ImportFault::TooLong),
    }
}
