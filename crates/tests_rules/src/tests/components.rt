//! SBAT components: names, generations, stamps, and the text of an image.
use super::inputs::unbarred;
use super::{Call, check, refuse};
use sbat::{Component, ComponentName, Generation, NameFault, SbatFault, Stamp, components, rows};
use std::alloc::{AllocError, Global};
use std::fmt::Write;
use std::test::Fail;

const GENERATIONS: &str = "\
1 = 1
03 = 3
0000000010 = 10
4294967295 = 4294967295
0 = none
0000000000 = none
4294967296 = none
9999999999 = none
00000000001 = none
 = none
+1 = none
1  = none
0x1 = none
";

/// Appends the number of a generation.
pub fn of_generation(told: &mut String, input: &str) -> Result<(), Fail> {
    let number = Generation::parse(input.as_bytes()).map_or(0, |one| u64::from(one.value()));
    tell_number(told, number)
}

/// Appends a number, and `none` for 0.
fn tell_number(told: &mut String, number: u64) -> Result<(), Fail> {
    match number {
        0 => told.push_str("none")?,
        _ => write!(told, "{number}")?,
    }
    Ok(())
}

#[test]
fn reads_generations(rt: HostRuntime) -> Result<(), Fail> {
    check(&rt, rt.alloc(), Call::Generation, GENERATIONS)
}

const STAMPS: &str = "\
2021030218 = 2021030218
1000000000 = 1000000000
9999999999 = 9999999999
0999999999 = none
999999999 = none
02021030218 = none
20210302180 = none
202103021a = none
 = none
";

/// Appends the number of a stamp.
pub fn of_stamp(told: &mut String, input: &str) -> Result<(), Fail> {
    let number = Stamp::parse(input.as_bytes()).map_or(0, |stamp| stamp.value());
    tell_number(told, number)
}

#[test]
fn reads_stamps(rt: HostRuntime) -> Result<(), Fail> {
    check(&rt, rt.alloc(), Call::Stamp, STAMPS)
}

const NAMES: &str = "\
sbat = sbat is sbat
SBAT = SBAT
! = !
~ = ~
grub.debian-12+x = grub.debian-12+x
 = Form
a b = Form
a,b = Form
a\x7f = Form
a\r = Form
\u{e9} = Form
";

/// Appends a name, and whether it is `sbat`.
pub fn of_name(alloc: Global, told: &mut String, input: &str) -> Result<(), Fail> {
    match ComponentName::parse(alloc, input.as_bytes()) {
        Ok(name) => tell_name(told, &name),
        Err(fault) => {
            write!(told, "{fault:?}")?;
            Ok(())
        }
    }
}

/// Appends a name, and whether it is `sbat`.
fn tell_name(told: &mut String, name: &ComponentName) -> Result<(), Fail> {
    told.push_str(name.as_str())?;
    if name.is_sbat() {
        told.push_str(" is sbat")?;
    }
    Ok(())
}

#[test]
fn reads_names(rt: HostRuntime) -> Result<(), Fail> {
    check(&rt, rt.alloc(), Call::Name, NAMES)
}

#[test]
fn reads_names_of_up_to_128_bytes(rt: HostRuntime) -> Result<(), Fail> {
    let longest = [b'n'; 129];
    let name = ComponentName::parse(rt.alloc(), &longest[..128])?;
    assert!(rt; name.as_str().as_bytes() == &longest[..128]);
    let refused = ComponentName::parse(rt.alloc(), &longest).err();
    assert!(rt; refused == Some(NameFault::Form), "129 bytes");
    Ok(())
}

const TEXTS: &str = " = nothing
\0sbat,1 = nothing
|\r|| = nothing
sbat,1,a,b,1,u\r|\r|grub,03,a,b,2,u|\0\0\0\0 = sbat 1;grub 3;
sbat,1,a,b,1,u\r|\r|grub,03,a,b,2,u\0\0\0\0\0 = sbat 1;grub 3;
\u{feff}sbat,1,,,,|grub,4294967295,a,b,c,d,e,f,g = sbat 1;grub 4294967295;
b,2,a,b,1,u|a,1,a,b,1,u|b,1,a,b,1,u|b,2,a,b,1,u = b 2;a 1;b 1;b 2;
a,1,\u{e9}\u{1},\"x,y\",1,u\r| = a 1;
sbat,1,a,b,1,u|grub,2,a,b,1| = SbatRow at 2
||sbat,1| = SbatRow at 3
grub,0,a,b,1,u| = SbatRow at 1
grub,4294967296,a,b,1,u| = SbatRow at 1
,1,a,b,1,u| = SbatRow at 1
gr ub,1,a,b,1,u| = SbatRow at 1
a,1,a,b,1,u|b,,a,b,1,u|c| = SbatRow at 2
 \u{feff}sbat,1,a,b,1,u| = SbatRow at 1
\u{feff}\u{feff}sbat,1,a,b,1,u| = SbatRow at 1
a,1,a,b,1,u|\r = SbatRow at 2
";

/// Appends the components that a text names, each as `name generation;`.
pub fn of_components(alloc: Global, told: &mut String, input: &str) -> Result<(), Fail> {
    let text = unbarred(alloc, input)?;
    match components(alloc, &text) {
        Err(fault) => refuse(told, fault.refusal(), fault.place()),
        Ok(found) => tell_components(told, found.as_slice()),
    }
}

/// Appends components.
fn tell_components(told: &mut String, components: &[Component]) -> Result<(), Fail> {
    for component in components {
        let name = component.name.as_str();
        let generation = component.generation.value();
        write!(told, "{name} {generation};")?;
    }
    Ok(())
}

#[test]
fn reads_the_components_of_an_image(rt: HostRuntime) -> Result<(), Fail> {
    check(&rt, rt.alloc(), Call::Components, TEXTS)
}

/// This many rows, and the text after them.
fn rows_of(alloc: Global, count: usize, behind: &str) -> Result<String, AllocError> {
    let mut text = String::new(alloc);
    for _ in 0..count {
        text.push_str("name,1,a,b,1,u\n")?;
    }
    text.push_str(behind)?;
    Ok(text)
}

/// How many components this many rows have, or the refusal.
fn count_of(alloc: Global, count: usize, behind: &str) -> Result<usize, SbatFault> {
    let Ok(text) = rows_of(alloc, count, behind) else {
        return Err(SbatFault::NoMemory);
    };
    Ok(components(alloc, text.as_bytes())?.as_slice().len())
}

#[test]
fn takes_256_components_and_no_more(rt: HostRuntime) {
    assert!(rt; count_of(rt.alloc(), 256, "") == Ok(256));
    assert!(rt; count_of(rt.alloc(), 257, "") == Err(SbatFault::TooLong));
    let broken = count_of(rt.alloc(), 300, "name\n");
    assert!(rt; broken == Err(SbatFault::Row(301)));
}

#[test]
fn gives_the_lines_of_a_text(rt: HostRuntime) {
    let mut numbers = [0; 3];
    let mut count = 0;
    for line in rows(b"\xef\xbb\xbfa\r\n\nb\0c\n") {
        if count < 3 {
            numbers[count] = line.number;
            count += 1;
        }
    }
    assert!(rt; numbers == [1, 3, 0], "nothing follows the zero byte");
}

/// A component of this name.
fn component(alloc: Global, name: &[u8]) -> Result<Component, Fail> {
    Ok(Component {
        name: ComponentName::parse(alloc, name)?,
        generation: Generation::new(3).ok_or("3")?,
    })
}

#[test]
fn copies_components(rt: HostRuntime) -> Result<(), Fail> {
    let first = component(rt.alloc(), b"grub")?;
    let copy = first.clone()?;
    assert!(rt; copy == first, "name and generation");
    Ok(())
}

#[test]
fn orders_names_by_bytes(rt: HostRuntime) -> Result<(), Fail> {
    let lower = ComponentName::parse(rt.alloc(), b"grub")?;
    let upper = ComponentName::parse(rt.alloc(), b"Grub")?;
    assert!(rt; upper < lower);
    Ok(())
}
