//! Commands, read back from their texts.
use super::{Call, check};
use desk_types::{Command, command_text};
use std::alloc::{AllocError, Global};
use std::test::Fail;

/// A digest, for `H` in a text.
const LOW: &str = "00112233445566778899aabbccddeeff00112233445566778899aabbccddeeff";

/// A greater one, for `G`.
const HIGH: &str = "f0112233445566778899aabbccddeeff00112233445566778899aabbccddeeff";

/// A digest in upper case, for `U`.
const UPPER: &str = "00112233445566778899AABBCCDDEEFF00112233445566778899aabbccddeeff";

/// Texts, and `read` where a command is read whose text it is, `nothing` where it is no command's.
const TEXTS: &str = "\
add-person olga officer H = read
add-person olga officer = nothing
add-person Olga officer H = nothing
add-person olga boss H = nothing
add-person olga officer U = nothing
add-person olga officer H  = nothing
submit 1024 0 H H H - - shim 15.8 = read
submit 134217728 512 H G H H,G 1:sbat,3:grub s = read
submit 134217728 134217728 H G H H 4294967295:a:b:c  two  spaces  = read
submit 1024 0 H H H - - = nothing
submit 1024 0 H H H - -  = nothing
submit 1024 1025 H H H - - s = nothing
submit 134217729 0 H H H - - s = nothing
submit 01024 0 H H H - - s = nothing
submit 1024 00 H H H - - s = nothing
submit 1024 0 H H H G,H - s = nothing
submit 1024 0 H H H H,H - s = nothing
submit 1024 0 H H H H, - s = nothing
submit 1024 0 H H H - 01:a s = nothing
submit 1024 0 H H H - 0:a s = nothing
submit 1024 0 H H H - 4294967296:a s = nothing
submit 1024 0 H H H - 1: s = nothing
submit 1024 0 H H H - - \u{e9} = nothing
review 7 yes built it = read
review 999999 no  = read
review 7 yes = nothing
review 0 yes a = nothing
review 1000000 yes a = nothing
review 7 maybe a = nothing
withdraw 12 = read
withdraw = nothing
withdraw  = nothing
withdraw 1  = nothing
withdraw +1 = nothing
withdraw 01 = nothing
return 3 134217728 512 H G H H,G 1:sbat,3:grub = read
return 3 8 8 H G H - - = read
return 3 8 9 H G H - - = nothing
return 3 8 8 H G H - -  = nothing
return 03 8 8 H G H - - = nothing
list-certificate H 3005ff = read
list-certificate H  = nothing
list-certificate H 3 = nothing
list-certificate H 3A = nothing
list-certificate H zz = nothing
list-digest G = read
list-digest G0 = nothing
list-digest = nothing
unlist digest H = read
unlist certificate H = read
unlist level H = nothing
revoke-digest H = read
revoke-digest U = nothing
revoke-certificate H = read
raise grub 3 2024010100 = read
raise sbat 3 9999999999 = read
raise grub 3 999999999 = nothing
raise grub 3 02024010100 = nothing
raise grub 0 2024010100 = nothing
raise gr,ub 1 2024010100 = nothing
import 0 2 G,H,G - - = read
import 2024010100 0 - H 3:grub,3:grub = read
import 0 10000 - - - = read
import 1 0 - - - = nothing
import 00 0 - - - = nothing
import 0 10001 - - - = nothing
import 0 10000 H - - = nothing
import 0 0 - - 1:sbat = nothing
import 0 0 -,- - - = nothing
import 0 0 - = nothing
import = nothing
confirm 1 = read
confirm 0 = nothing
confirm 01 = nothing
drop 999999 = read
drop -1 = nothing
drop  1 = nothing
 drop 1 = nothing
drop_ 1 = nothing
dropp 1 = nothing
explain 1 GRUB2 before 2.06 = read
explain 999999 x = read
explain 1 = nothing
explain 1  = nothing
explain 1  x = nothing
explain 1 x  = nothing
explain 01 x = nothing
explain 1 \u{e9} = nothing
 = nothing
nothing at all = nothing
";

/// The text with its digests.
fn filled(alloc: Global, input: &str) -> Result<String, AllocError> {
    let mut text = String::new(alloc);
    for letter in input.chars() {
        match letter {
            'H' => text.push_str(LOW)?,
            'G' => text.push_str(HIGH)?,
            'U' => text.push_str(UPPER)?,
            other => text.push(other)?,
        }
    }
    Ok(text)
}

/// Whether a command is read from the text, and has that text; `None` if none is read.
fn is_read(alloc: Global, text: &str) -> Result<Option<bool>, AllocError> {
    match Command::parse(alloc, text.as_bytes())? {
        Some(command) => Ok(Some(command_text(alloc, &command)?.as_str() == text)),
        None => Ok(None),
    }
}

/// Appends whether the text is a command's.
pub(super) fn of_command(alloc: Global, told: &mut String, input: &str) -> Result<(), Fail> {
    let text = filled(alloc, input)?;
    match is_read(alloc, text.as_str())? {
        Some(true) => told.push_str("read")?,
        Some(false) => told.push_str("another text")?,
        None => {}
    }
    Ok(())
}

#[test]
fn reads_commands_back(rt: HostRuntime) -> Result<(), Fail> {
    check(&rt, rt.alloc(), Call::Command, TEXTS)
}

/// The text of an import of this many digests.
fn import_of(alloc: Global, count: usize) -> Result<String, AllocError> {
    let mut text = String::from_str(alloc, "import 0 0 ")?;
    for place in 0..count {
        if 0 < place {
            text.push_str(",")?;
        }
        text.push_str(HIGH)?;
    }
    text.push_str(" - -")?;
    Ok(text)
}

#[test]
fn reads_an_import_of_10000_digests_and_no_more(rt: HostRuntime) -> Result<(), Fail> {
    let text = import_of(rt.alloc(), 10_000)?;
    assert!(rt; is_read(rt.alloc(), text.as_str())? == Some(true), "10,000");
    let text = import_of(rt.alloc(), 10_001)?;
    assert!(rt; is_read(rt.alloc(), text.as_str())?.is_none(), "10,001");
    Ok(())
}
