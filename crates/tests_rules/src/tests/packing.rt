//! Lines packed into one list.
use super::inputs::expanded;
use super::lists::{OWNER, TWO};
use super::{Call, check, is_beginning, narrow, refuse, tell_hex};
use base::Guid;
use siglist::{PackFault, pack};
use std::alloc::Global;
use std::fmt::Write;
use std::test::Fail;
use testing::{Narrow, Slow};

/// Lines, and the count and the bytes after the owner's of the list that they pack into.
const PACKED: &str = " = 0
||\r| = 0
B|A|A| = 2 7c000000 aaaa bbbb
B\r||U = 2 7c000000 aaaa bbbb
A = 1 4c000000 aaaa
B|T|T = Line at 2
|||L| = Line at 4
A\r = Line at 1
A\0| = Line at 1
\u{feff}A| = Line at 1
A|B| A|T = Line at 3
A|Bg = Line at 2
";

/// Appends the list's size, and the first two bytes of each digest.
fn tell_packed(alloc: Global, told: &mut String, out: &[u8]) -> Result<(), Fail> {
    told.push(' ')?;
    tell_hex(alloc, told, out.get(16..20).unwrap_or(&[]))?;
    for entry in out.get(28..).unwrap_or(&[]).chunks(48) {
        told.push(' ')?;
        tell_hex(alloc, told, entry.get(16..18).unwrap_or(&[]))?;
    }
    Ok(())
}

/// Appends how many entries the lines pack into, and the list.
pub fn of_pack(alloc: Global, told: &mut String, input: &str) -> Result<(), Fail> {
    let text = expanded(alloc, input)?;
    let owner = Guid::parse(OWNER)?;
    let mut out = Vec::new(alloc);
    match pack(alloc, &owner, &mut text.as_slice(), &mut out) {
        Ok(count) => write!(told, "{count}")?,
        Err(fault) => return refuse(told, fault.refusal(), fault.place()),
    }
    if out.is_empty() {
        return Ok(());
    }
    tell_packed(alloc, told, &out)
}

#[test]
fn packs_lines_into_one_list(rt: HostRuntime) -> Result<(), Fail> {
    check(&rt, rt.alloc(), Call::Pack, PACKED)
}

/// The answer to a byte repeated this many times.
fn answer(alloc: Global, byte: u8, size: usize) -> Result<u64, PackFault> {
    let Ok(owner) = Guid::parse(OWNER) else {
        return Err(PackFault::NoMemory);
    };
    let Ok(text) = vec![in alloc; byte; size] else {
        return Err(PackFault::NoMemory);
    };
    pack(alloc, &owner, &mut text.as_slice(), &mut Vec::new(alloc))
}

#[test]
fn refuses_a_long_text_before_its_lines(rt: HostRuntime) {
    let wrong = Err(PackFault::Line { line: 1 });
    let long = Err(PackFault::TooLong);
    assert!(rt; answer(rt.alloc(), b'\n', 8_388_608) == Ok(0));
    assert!(rt; answer(rt.alloc(), b'\n', 8_388_609) == long);
    assert!(rt; answer(rt.alloc(), b'x', 8_388_608) == wrong);
    assert!(rt; answer(rt.alloc(), b'x', 8_388_609) == long);
}

/// Packs three lines by a read that fails, from 1.
fn pack_three(alloc: Global, read: u64, writer: &mut Narrow) -> Result<u64, PackFault> {
    let Ok(owner) = Guid::parse(OWNER) else {
        return Err(PackFault::NoMemory);
    };
    let Ok(text) = expanded(alloc, "B|A|A|") else {
        return Err(PackFault::NoMemory);
    };
    let mut reader = Slow {
        rest: &text,
        most: 9,
        calls: 0,
        fails_at: read,
    };
    pack(alloc, &owner, &mut reader, writer)
}

#[test]
fn tells_a_failed_read_before_anything_is_written(rt: HostRuntime) {
    for read in 1..30 {
        let mut writer = narrow(rt.alloc(), 200, 0);
        let answer = pack_three(rt.alloc(), read, &mut writer);
        let wanted = if read < 24 {
            Err(PackFault::Read)
        } else {
            Ok(2)
        };
        assert!(rt; answer == wanted && writer.taken.is_empty() == (read < 24));
    }
}

#[test]
fn writes_a_beginning_before_each_failed_write(rt: HostRuntime) -> Result<(), Fail> {
    let whole = hex::decode(rt.alloc(), TWO)?;
    for write in 1..40 {
        let mut writer = narrow(rt.alloc(), 5, write);
        let answer = pack_three(rt.alloc(), 0, &mut writer);
        let wanted = if write < 30 {
            Err(PackFault::Write)
        } else {
            Ok(2)
        };
        assert!(rt; answer == wanted && is_beginning(&writer.taken, &whole, write >= 30));
    }
    Ok(())
}
