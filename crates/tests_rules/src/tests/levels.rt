//! SBAT levels, read and written.
use super::inputs::unbarred;
use super::{Call, check, is_beginning, narrow, refuse};
use sbat::{
    Component, ComponentName, Generation, Level, SbatFault, Stamp, level_head, level_row,
    read_level,
};
use std::alloc::{AllocError, Global};
use std::fmt::Write;
use std::test::Fail;
use std::{io, str};

/// Texts, and the levels in them as they are written.
const LEVELS: &str = "\
sbat,1,2021030218| = sbat,1,2021030218;
sbat,1,2024010100|grub,2|grub,03 = sbat,1,2024010100;grub,3;
\u{feff}\r||sbat,01,2024010100,more\r|shim,4,x,y||grub,3|grub,2|Shim,1|\0grub,9 = \
sbat,1,2024010100;Shim,1;grub,3;shim,4;
sbat,1,9999999999|z,10|grub,4294967295|grub,9|GRUB,1 = \
sbat,1,9999999999;GRUB,1;grub,4294967295;z,10;
sbat,1,2024010100|grub,9|grub,10|shim,100|shim,9 = sbat,1,2024010100;grub,10;shim,100;
 = SbatRow at 1
||| = SbatRow at 1
\0sbat,1,2024010100| = SbatRow at 1
sbat,1| = SbatRow at 1
|sbat,2,2024010100| = SbatRow at 2
shim,1,2024010100| = SbatRow at 1
sbat,1,0999999999| = SbatRow at 1
sbat,1,20240101000| = SbatRow at 1
sbat,0,2024010100| = SbatRow at 1
grub,2|sbat,1,2024010100| = SbatRow at 1
sbat,1,2024010100|sbat,1| = SbatRow at 2
sbat,1,2024010100|grub|shim| = SbatRow at 2
sbat,1,2024010100|grub,2||shim,0| = SbatRow at 4
sbat,1,2024010100|,2| = SbatRow at 2
";

/// Writes a level line by line, as an export does.
fn put_level<W: io::Write>(alloc: Global, level: &Level, writer: &mut W) -> Option<()> {
    level_head(level.stamp(), writer).ok()?;
    for (name, generation) in level.iter() {
        let name = ComponentName::parse(alloc, name.as_bytes()).ok()?;
        level_row(&name, generation, writer).ok()?;
    }
    Some(())
}

/// Appends the text of a level, each line ended by `;`.
fn tell_level(alloc: Global, told: &mut String, level: &Level) -> Result<(), Fail> {
    let mut text = Vec::new(alloc);
    put_level(alloc, level, &mut text).ok_or("a level")?;
    for byte in text.iter_mut() {
        if *byte == b'\n' {
            *byte = b';';
        }
    }
    told.push_str(str::from_utf8(&text)?)?;
    Ok(())
}

/// Appends the text of the level in a text.
pub fn of_level(alloc: Global, told: &mut String, input: &str) -> Result<(), Fail> {
    let text = unbarred(alloc, input)?;
    match read_level(alloc, &text) {
        Err(fault) => refuse(told, fault.refusal(), fault.place()),
        Ok(level) => tell_level(alloc, told, &level),
    }
}

#[test]
fn reads_and_writes_levels(rt: HostRuntime) -> Result<(), Fail> {
    check(&rt, rt.alloc(), Call::Level, LEVELS)
}

/// Writes a level of this many names, and the text after it.
pub fn put_names(text: &mut String, count: u32, behind: &str) -> Result<(), AllocError> {
    write!(text, "sbat,1,2024010100\n")?;
    for number in 0..count {
        write!(text, "name{number},2\n")?;
    }
    write!(text, "{behind}")
}

/// How many names a level of this many rows has, or the refusal.
fn count_of(alloc: Global, count: u32, behind: &str) -> Result<usize, SbatFault> {
    let mut text = String::new(alloc);
    if put_names(&mut text, count, behind).is_err() {
        return Err(SbatFault::NoMemory);
    }
    Ok(read_level(alloc, text.as_bytes())?.len())
}

#[test]
fn takes_10000_names_and_no_more(rt: HostRuntime) {
    assert!(rt; count_of(rt.alloc(), 10_000, "name7,3\n") == Ok(10_000));
    assert!(rt; count_of(rt.alloc(), 10_001, "") == Err(SbatFault::TooLong));
    assert!(rt; count_of(rt.alloc(), 10_002, "x\n") == Err(SbatFault::Row(10_004)));
}

/// Raises the level's grub to this generation.
fn raise(alloc: Global, level: &mut Level, generation: u32) -> Result<(), Fail> {
    let generation = Generation::new(generation).ok_or("a generation")?;
    let name = ComponentName::parse(alloc, b"grub")?;
    let grub = Component { name, generation };
    Ok(level.raise(&grub)?)
}

/// The generation of a name, or 0.
fn generation_of(level: &Level, name: &[u8]) -> u32 {
    match level.generation_of(name) {
        Some(generation) => generation.value(),
        None => 0,
    }
}

#[test]
fn keeps_the_greater_generation(rt: HostRuntime) -> Result<(), Fail> {
    let stamp = Stamp::original();
    let mut level = Level::new(rt.alloc(), stamp);
    raise(rt.alloc(), &mut level, 10)?;
    raise(rt.alloc(), &mut level, 9)?;
    let mut text = Vec::new(rt.alloc());
    put_level(rt.alloc(), &level, &mut text).ok_or("a level")?;
    assert!(rt; text.as_slice() == b"sbat,1,2021030218\ngrub,10\n".as_slice());
    assert!(rt; generation_of(&level, b"grub") == 10);
    assert!(rt; generation_of(&level, b"\xff") == 0, "no name at all");
    Ok(())
}

#[test]
fn writes_a_beginning_before_each_failed_write(rt: HostRuntime) -> Result<(), Fail> {
    let text = b"sbat,1,2024010100\ngrub,3\nshim,12\n";
    let level = read_level(rt.alloc(), text)?;
    let mut last = 0;
    for fails_at in 1..100 {
        let mut writer = narrow(rt.alloc(), 3, fails_at);
        let is_whole = put_level(rt.alloc(), &level, &mut writer).is_some();
        assert!(rt; is_beginning(&writer.taken, text, is_whole));
        if !is_whole {
            last = fails_at;
        }
    }
    assert!(rt; 11 <= last && last < 99, "so many writes");
    Ok(())
}
