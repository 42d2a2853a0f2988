//! Sources that fail.
ghost use Rattle.std.specs.Prelude.{replicate};

use super::digests::DIGESTS;
use super::image;
use super::layouts::{PARTS, RANGES, with_sections};
use super::lines::FACTS;
use authenticode::sums;
use base::Refusal;
use cli_output::print_ranges;
use desk_inputs::facts;
use pe_image::{Bytes, LayoutFault, PIECE, ReadFailed, Source, gap, layout};
use std::alloc::Global;
use std::test::Fail;

/// A source that fails after this many reads, and from then on.
#[derive(Drop)]
struct Failing<'a> {
    bytes: &'a [u8],
    left: u64,
    failures: u64,
}

impl Source for Failing<'_> {
    ghost content = { λ s. s.bytes.now };

    ghost failures = { λ s. s.failures };

    fn len(&self) -> u64 {
        self.bytes.len() as u64
    }

    fn failures(&self) -> u64 {
        self.failures
    }

    fn read_at(&mut self, at: u64, out: &mut [u8]) -> Result<(), ReadFailed> {
        if self.left == 0 {
            if self.failures < u64::MAX {
                self.failures += 1;
            }
            return Err(ReadFailed);
        }
        self.left -= 1;
        let at = at as usize;
        out.copy_from_slice(&self.bytes[at..at + out.len()]);
        Ok(())
    }
}

/// What is read of an image.
#[derive(Clone, Copy)]
enum Reading {
    Facts,
    Ranges,
}

/// The refusal of a reading, if it has one: `File`, if ranges were printed before it, or if it has
/// a place.
fn refusal_of(alloc: Global, reading: Reading, source: &mut Failing<'_>) -> Option<Refusal> {
    match reading {
        Reading::Facts => match facts(alloc, source) {
            Err(fault) => Some(fault.refusal()),
            Ok(_) => None,
        },
        Reading::Ranges => {
            let mut out = Vec::new(alloc);
            match print_ranges(source, &mut out) {
                Err(fault) if out.is_empty() && fault.place.is_none() => Some(fault.refusal),
                Err(_) => Some(Refusal::File),
                Ok(()) => None,
            }
        }
    }
}

/// Whether a read that fails after this many is told, and none follows it.
fn is_told(alloc: Global, reading: Reading, bytes: &[u8], left: u64) -> bool {
    let mut source = Failing {
        bytes,
        left,
        failures: 0,
    };
    let refusal = refusal_of(alloc, reading, &mut source);
    refusal == Some(Refusal::Read) && source.failures == 1
}

/// How many reads an image takes, if each of them is told where it fails.
fn reads_told(alloc: Global, reading: Reading, bytes: &[u8]) -> Option<u64> {
    let mut source = Failing {
        bytes,
        left: u64::MAX,
        failures: 0,
    };
    let _ = refusal_of(alloc, reading, &mut source);
    let reads = u64::MAX.saturating_sub(source.left);
    for left in 0..reads {
        if !is_told(alloc, reading, bytes, left) {
            return None;
        }
    }
    Some(reads)
}

/// The same of all images of a script.
fn reads_told_in(alloc: Global, reading: Reading, script: &str) -> Result<u64, Fail> {
    let mut reads = 0u64;
    for line in script.lines() {
        let (words, _) = line.split_once(" = ").ok_or("a line without an answer")?;
        let bytes = image(alloc, words)?;
        let own = reads_told(alloc, reading, &bytes).ok_or("a read that fails isn't told")?;
        reads = reads.saturating_add(own);
    }
    Ok(reads)
}

/// Of whichever image, taken or refused, every failed read is reported by its own call: within the
/// layout, the digests, the table and the text. No range is printed then.
#[test]
fn tells_of_each_read_that_fails(rt: HostRuntime) -> Result<(), Fail> {
    let alloc = rt.alloc();
    assert!(rt; 50 <= reads_told_in(alloc, Reading::Facts, FACTS)?);
    assert!(rt; 50 <= reads_told_in(alloc, Reading::Facts, DIGESTS)?);
    assert!(rt; 50 <= reads_told_in(alloc, Reading::Ranges, RANGES)?);
    assert!(rt; 50 <= reads_told_in(alloc, Reading::Ranges, PARTS)?);
    let bytes = with_sections(alloc, 96)?;
    assert!(rt; reads_told(alloc, Reading::Ranges, &bytes).is_some());
    Ok(())
}

/// Whether hashing an image takes this many reads, and one fewer isn't enough.
fn takes_reads(alloc: Global, words: &str, reads: u64) -> Result<bool, Fail> {
    let bytes = image(alloc, words)?;
    let places = layout(&mut Bytes(&bytes))?;
    let mut enough = Failing {
        bytes: &bytes,
        left: reads,
        failures: 0,
    };
    let mut fewer = Failing {
        bytes: &bytes,
        left: reads.saturating_sub(1),
        failures: 0,
    };
    let is_hashed = sums(&mut enough, &places).is_ok();
    let is_refused = sums(&mut fewer, &places).is_err();
    Ok(is_hashed && is_refused && enough.left == 0 && enough.failures == 0 && fewer.failures == 1)
}

/// Whether hashing an image takes at most one read of each piece, or two if there is a gap.
pub(super) fn takes_few_reads(bytes: &[u8]) -> Result<bool, Fail> {
    let places = layout(&mut Bytes(bytes))?;
    let passes = if gap(&places) == 0 { 1 } else { 2 };
    let mut source = Failing {
        bytes,
        left: (bytes.len() as u64)
            .div_ceil(PIECE as u64)
            .saturating_mul(passes),
        failures: 0,
    };
    Ok(sums(&mut source, &places).is_ok())
}

/// Two pieces; and three of a file whose last range is read again, from 41024 on, which are three
/// more.
#[test]
fn hashes_an_image_by_one_read_of_a_piece(rt: HostRuntime) -> Result<(), Fail> {
    assert!(rt; takes_reads(rt.alloc(), "66560 ^", 2)?);
    assert!(rt; takes_reads(rt.alloc(), "140000 * 70:0200 384:409c0000a0860100", 6)?);
    Ok(())
}

/// A source of zeros that says how many there are and reads none.
#[derive(Drop)]
struct Unread {
    size: u64,
}

impl Source for Unread {
    ghost content = { λ s. replicate s.size 0 };

    ghost failures = { λ _. 18446744073709551615 };

    fn len(&self) -> u64 {
        self.size
    }

    fn failures(&self) -> u64 {
        u64::MAX
    }

    fn read_at(&mut self, _at: u64, _out: &mut [u8]) -> Result<(), ReadFailed> {
        Err(ReadFailed)
    }
}

#[test]
fn refuses_what_is_too_long(rt: HostRuntime) {
    let long = layout(&mut Unread { size: 134_217_729 }).err();
    assert!(rt; long == Some(LayoutFault::TooLong));
    let longest = layout(&mut Unread { size: 134_217_728 }).err();
    assert!(rt; longest == Some(LayoutFault::Read));
}
