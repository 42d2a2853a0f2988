//! The reading of levels.
ghost use Rattle.std.specs.Prelude.{◌≡◌, IfErr, IfOk, OnOk, false, if◌then◌else◌, nat_le};
ghost use Rattle.std.specs.FinMap.{len};
ghost use Rattle.std.specs.Str.{bytes_eq};
ghost use Rattle.sbat.specs.Fields.{sbat};
ghost use Rattle.sbat.specs.Levels.{level_row, raised, stamp_on, with_rows};
ghost use Rattle.sbat.specs.Refusals.{IsLevelOf, IsRead, IsRefused, PassesNames, RefusesLevel, most_names};
ghost use Rattle.base.specs.Lines.{named_in};

use crate::component::Component;
use crate::fault::SbatFault;
use crate::field::first_field;
use crate::generation::Generation;
use crate::level::Level;
use crate::name::NameFault;
use crate::row::read_level_row;
use crate::stamp::Stamp;
use crate::text::rows;
use base::Parted;
use std::alloc::{AllocError, Global};

/// The most names of a level.
pub const MOST_NAMES: usize = 10_000;

/// The stamp on the first line of a level.
fn read_stamp(line: &[u8]) -> Option<Stamp>
    ensures { result ≡ stamp_on line.now }
{
    let (name, rest) = first_field(line);
    let (number, rest) = first_field(rest?);
    let (stamp, _) = first_field(rest?);
    if name != b"sbat".as_slice() || Generation::parse(number)?.value() != 1 {
        return None;
    }
    Stamp::parse(stamp)
}

/// Raises the level unless it has more names than the limit already.
fn raise_within(level: &mut Level, component: &Component) -> Result<(), AllocError>
    requires other { bytes_eq component.now.name sbat ≡ false }
    ensures ok { OnOk result (level.new ≡ (if nat_le (len level.old.generations) most_names
        then record level.old { generations = raised level.old.generations component.now }
        else level.old)) }
{
    if level.len() <= MOST_NAMES {
        level.raise(component)?;
    }
    Ok(())
}

/// The level of a stamp and of the rows that the lines hold.
fn read_rows(alloc: Global, stamp: Stamp, lines: Parted<'_>) -> Result<Level, SbatFault>
    ensures exact { IfOk result (IsRead (with_rows stamp (named_in level_row lines.entry))) }

    ensures first { IfErr result
        (IsRefused (with_rows stamp (named_in level_row lines.entry)) PassesNames) }
{
    let mut level = Level::new(alloc, stamp);
    for line in lines {
        match read_level_row(alloc, line.text) {
            Ok(component) => {
                if raise_within(&mut level, &component).is_err() {
                    return Err(SbatFault::NoMemory);
                }
            }
            Err(NameFault::Form) => return Err(SbatFault::Row(line.number)),
            Err(NameFault::NoMemory) => return Err(SbatFault::NoMemory),
        }
    }
    if level.len() > MOST_NAMES {
        return Err(SbatFault::TooLong);
    }
    Ok(level)
}

/// The level that a text spells: the first line holds `sbat`, generation 1 and the stamp, each
/// later one a name other than `sbat` and a generation; further fields are ignored, and the
/// greatest generation of a repeated name counts. The text ends and splits into lines as an image's
/// does. Takes memory for at most 10,001 names.
///
/// The first wrong line is returned as Row with its number, which is 1 if there is no line.
/// TooLong, for more than 10,000 different names, comes only if no line is wrong. NoMemory: memory
/// was refused.
pub fn read_level(alloc: Global, text: &[u8]) -> Result<Level, SbatFault>
    ensures exact { IfOk result (IsLevelOf text.now) }

    ensures first { IfErr result (RefusesLevel text.now) }
{
    let mut lines = rows(text);
    let Some(first) = lines.next() else {
        return Err(SbatFault::Row(1));
    };
    let Some(stamp) = read_stamp(first.text) else {
        return Err(SbatFault::Row(first.number));
    };
    read_rows(alloc, stamp, lines)
}
