//! Imports of signature lists, CSV files and levels.
use super::inputs::{expanded, spelt, unbarred};
use super::levels::put_names;
use super::{Call, check, refuse, tell_hex};
use base::Digest;
use desk_inputs::{ImportFault, import_csv, import_dbx, import_level};
use desk_types::{Command, Import};
use sbat::Stamp;
use siglist::ListsFault;
use std::alloc::{AllocError, Global};
use std::fmt::Write;
use std::test::Fail;

/// Appends the first four digits of each digest.
fn tell_digests(alloc: Global, told: &mut String, digests: &[Digest]) -> Result<(), Fail> {
    told.push_str(" [")?;
    for digest in digests {
        told.push(' ')?;
        tell_hex(alloc, told, &digest.as_bytes()[..2])?;
    }
    told.push_str(" ]")?;
    Ok(())
}

/// Appends the stamp of an import, the count of skipped entries, and all that it names.
fn tell_import(alloc: Global, told: &mut String, import: &Import) -> Result<(), Fail> {
    let stamp = import.stamp().map_or(0, |stamp| stamp.value());
    let passed = import.passed();
    write!(told, "{stamp} {passed}")?;
    tell_digests(alloc, told, import.digests().as_slice())?;
    tell_digests(alloc, told, import.certificates().as_slice())?;
    for component in import.components().as_slice() {
        let name = component.name.as_str();
        let generation = component.generation.value();
        write!(told, " {name}:{generation}")?;
    }
    Ok(())
}

/// Appends the result of an import.
fn tell_answer(
    alloc: Global,
    told: &mut String,
    answer: &Result<Command, ImportFault>,
) -> Result<(), Fail> {
    match answer {
        Ok(Command::ImportRevocations(import)) => tell_import(alloc, told, import),
        Ok(_) => Err(Fail::from("another command")),
        Err(fault) => refuse(told, fault.refusal(), fault.place()),
    }
}

/// Appends the import of a CSV file without a stamp of its own.
pub fn of_csv(alloc: Global, told: &mut String, input: &str) -> Result<(), Fail> {
    tell_csv(alloc, told, input, None)
}

/// Appends the import of a CSV file with this stamp.
fn tell_csv(
    alloc: Global,
    told: &mut String,
    input: &str,
    stamp: Option<Stamp>,
) -> Result<(), Fail> {
    let text = expanded(alloc, input)?;
    tell_answer(alloc, told, &import_csv(alloc, &text, stamp))
}

/// Appends the import of signature lists.
pub fn of_dbx(alloc: Global, told: &mut String, input: &str) -> Result<(), Fail> {
    let bytes = spelt(alloc, input)?;
    tell_answer(alloc, told, &import_dbx(alloc, &bytes))
}

/// Appends the import of a level.
pub fn of_level(alloc: Global, told: &mut String, input: &str) -> Result<(), Fail> {
    let text = unbarred(alloc, input)?;
    tell_answer(alloc, told, &import_level(alloc, &text))
}

/// Signature lists.
const DBX: &str = "\
S 1c000000 00000000 30000000 = 0 0 [ ] [ ]
 = 0 0 [ ] [ ]
S ac000000 00000000 30000000 G B G A G B = 0 0 [ bbbb aaaa bbbb ] [ ]
S 4c000000 00000000 30000000 G A D 5c000000 00000000 40000000 G B e8070b17000000000000000000000000 \
G 30000000 00000000 14000000 G 01020304 = 0 1 [ aaaa ] [ bbbb ]
S 4c000000 00000000 30000000 G A D 5c000000 00000000 40000000 G B e8070b17000000000000000000000000 \
G 30000000 00000000 14000000 G 010203 = List at 168
S 4c000000 00000000 30000000 G A S 5c000000 00000000 40000000 G A G = EntrySize at 76
X 33000000 00000000 17000000 G 30053003020101 = 0 0 [ ] [ 1b65 ]
X 34000000 00000000 18000000 G 3005300302010100 = 0 1 [ ] [ ]
X 2e000000 00000000 12000000 G 3000 = 0 1 [ ] [ ]
";

/// CSV files.
const CSV: &str = "\
# = 0 0 [ ] [ ]
#|sha256,A,|sbat,grub,2|sbat,grub,3| = 0 0 [ aaaa ] [ ] grub:2 grub:3
~#^|^|sha256,U,^||x509_sha256,B,^|sha256,B,^|sbat,Zim,0004 = 0 0 [ aaaa bbbb ] [ bbbb ] Zim:4
\"kind\",\"value\",\"generation\"|\"sbat\",\"gr\"\"ub\",\"3\"| = 0 0 [ ] [ ] gr\"ub:3
 = CsvRow at 0
kind,value| = CsvRow at 0
#,| = CsvRow at 0
sha256,A,| = CsvRow at 0
#|sbat,sbat,2| = CsvRow at 1
#|sha256,A| = CsvRow at 1
#|sha256,A,,| = CsvRow at 1
#|sha256,A,1| = CsvRow at 1
#|x509_sha256,aa,| = CsvRow at 1
#|sHa256,A,| = CsvRow at 1
#|sbat,\"gr,ub\",2| = CsvRow at 1
#| sbat,grub,2| = CsvRow at 1
#|sbat,grub,00000000001| = CsvRow at 1
#||sha256,A,||sbat,grub,0|sbat,sbat,0| = CsvRow at 2
";

/// Levels.
const LEVELS: &str = "\
sbat,1,2024010100| = 2024010100 0 [ ] [ ]
sbat,1,2024010100|grub,2|Zim,1|grub,03|grub,1 = 2024010100 0 [ ] [ ] Zim:1 grub:3
 = SbatRow at 1
sbat,1,2024010100||sbat,1| = SbatRow at 3
";

#[test]
fn imports_lists_files_and_levels(rt: HostRuntime) -> Result<(), Fail> {
    check(&rt, rt.alloc(), Call::Dbx, DBX)?;
    check(&rt, rt.alloc(), Call::Csv, CSV)?;
    check(&rt, rt.alloc(), Call::LevelImport, LEVELS)
}

#[test]
fn keeps_the_stamp_of_a_file(rt: HostRuntime) -> Result<(), Fail> {
    let mut told = String::new(rt.alloc());
    let stamp = Stamp::new(2_024_010_100);
    tell_csv(rt.alloc(), &mut told, "#|sbat,grub,2|", stamp)?;
    assert!(rt; told.as_str() == "2024010100 0 [ ] [ ] grub:2");
    Ok(())
}

/// How many digests and components an import names, and how many entries it skips.
fn counts(answer: &Result<Command, ImportFault>) -> Result<(usize, usize, u64), ImportFault> {
    match answer {
        Ok(Command::ImportRevocations(import)) => Ok((
            import.digests().as_slice().len(),
            import.components().as_slice().len(),
            import.passed(),
        )),
        Ok(_) => Ok((0, 0, 0)),
        Err(fault) => Err(*fault),
    }
}

/// Writes a list of that many entries of sevens.
fn put_list(
    bytes: &mut Vec<u8>,
    kind: &[u8; 16],
    entry: &[u8],
    count: u16,
) -> Result<(), AllocError> {
    let size = entry.len().min(48) as u32;
    bytes.extend_from_slice(kind)?;
    bytes.extend_from_slice(&(28 + size * u32::from(count)).to_le_bytes())?;
    bytes.extend_from_slice(&[0; 4])?;
    bytes.extend_from_slice(&size.to_le_bytes())?;
    for _ in 0..count {
        bytes.extend_from_slice(entry)?;
    }
    Ok(())
}

/// The type of lists of SHA-256 digests.
const SHA256: [u8; 16] = *b"\x26\x16\xc4\xc1\x4c\x50\x92\x40\xac\xa9\x41\xf9\x36\x93\x43\x28";

/// A list of that many digests and a list of that many entries of no kind.
fn two_lists(alloc: Global, count: u16, others: u16) -> Result<Vec<u8>, AllocError> {
    let mut bytes = Vec::new(alloc);
    put_list(&mut bytes, &SHA256, &[7; 48], count)?;
    put_list(&mut bytes, &[9; 16], &[7; 16], others)?;
    Ok(bytes)
}

/// The counts of these lists' import, without their last bytes.
fn counted_lists(
    alloc: Global,
    count: u16,
    others: u16,
    cut: usize,
) -> Result<(usize, usize, u64), ImportFault> {
    let Ok(bytes) = two_lists(alloc, count, others) else {
        return Err(ImportFault::NoMemory);
    };
    let kept = bytes.len().saturating_sub(cut);
    counts(&import_dbx(alloc, bytes.get(..kept).unwrap_or(&[])))
}

/// A CSV file of that many records, with others after them.
fn records(alloc: Global, count: u32, behind: &str) -> Result<Vec<u8>, AllocError> {
    let mut text = expanded(alloc, "#|")?;
    let record = expanded(alloc, "sha256,A,|")?;
    for _ in 0..count {
        text.extend_from_slice(&record)?;
    }
    text.extend_from_slice(behind.as_bytes())?;
    Ok(text)
}

/// The counts of this file's import.
fn counted_records(
    alloc: Global,
    count: u32,
    behind: &str,
) -> Result<(usize, usize, u64), ImportFault> {
    let Ok(text) = records(alloc, count, behind) else {
        return Err(ImportFault::NoMemory);
    };
    counts(&import_csv(alloc, &text, None))
}

/// The counts of the import of a level of that many names.
fn counted_names(alloc: Global, count: u32) -> Result<(usize, usize, u64), ImportFault> {
    let mut text = String::new(alloc);
    if put_names(&mut text, count, "").is_err() {
        return Err(ImportFault::NoMemory);
    }
    counts(&import_level(alloc, text.as_bytes()))
}

/// The refusal of a too long input.
const TOO_LONG: Result<(usize, usize, u64), ImportFault> = Err(ImportFault::TooLong);

#[test]
fn takes_10000_entries_of_lists_and_no_more(rt: HostRuntime) {
    let cut = Err(ImportFault::Lists(ListsFault::List { offset: 480_076 }));
    assert!(rt; counted_lists(rt.alloc(), 10_000, 0, 0) == Ok((10_000, 0, 0)));
    assert!(rt; counted_lists(rt.alloc(), 9_999, 1, 0) == Ok((9_999, 0, 1)));
    assert!(rt; counted_lists(rt.alloc(), 10_000, 1, 0) == TOO_LONG);
    assert!(rt; counted_lists(rt.alloc(), 0, 10_001, 0) == TOO_LONG);
    assert!(rt; counted_lists(rt.alloc(), 10_001, 1, 1) == cut);
}

#[test]
fn takes_10000_records_and_no_more(rt: HostRuntime) {
    let short = Err(ImportFault::Record(10_000));
    let wrong = Err(ImportFault::Record(10_002));
    assert!(rt; counted_records(rt.alloc(), 10_000, "") == Ok((10_000, 0, 0)));
    assert!(rt; counted_records(rt.alloc(), 10_000, "sbat,grub,1") == TOO_LONG);
    assert!(rt; counted_records(rt.alloc(), 9_999, "sbat,grub") == short);
    assert!(rt; counted_records(rt.alloc(), 10_001, "x\nx\n") == wrong);
}

#[test]
fn takes_10000_names_and_no_more(rt: HostRuntime) {
    assert!(rt; counted_names(rt.alloc(), 10_000) == Ok((0, 10_000, 0)));
    assert!(rt; counted_names(rt.alloc(), 10_001) == TOO_LONG);
}
