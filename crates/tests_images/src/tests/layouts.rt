//! Layouts of images.
use super::{Call, check, image, put, tell_lines};
use cli_output::{print_fault, print_ranges};
use pe_image::{Bytes, LayoutFault, Span, gap, layout, ranges, sbat_range, table};
use std::alloc::Global;
use std::fmt::Write;
use std::test::Fail;

/// The printed ranges of images: unchanged, of EFI's last subsystem; PE32; its second section
/// first; with four and five directories; followed by bytes; with a table, padded and not; with a
/// gap; with a table that has an offset and no size; with CheckSum across a border of pieces. Then
/// images that are refused.
pub(super) const RANGES: &str = "\
1024 + = 0-152;156-232;240-512;512-1024;gap 0;
1024 + 156:0d = 0-152;156-232;240-512;512-1024;gap 0;
1024 - = 0-152;156-216;224-512;512-1024;gap 0;
1536 + 70:02 348:00040000 384:0002000000020000 = 0-152;156-232;240-512;512-1024;1024-1536;gap 0;
1024 + 196:04 = 0-152;156-512;512-1024;gap 0;
1024 + 196:05 = 0-152;156-232;240-512;512-1024;gap 0;
1029 + = 0-152;156-232;240-512;512-1024;1024-1029;gap 0;
1080 + 232:0804000030000000 = 0-152;156-232;240-512;512-1024;1024-1032;gap 0;
1077 + 232:0504000030000000 = 0-152;156-232;240-512;512-1024;1024-1029;gap 0;
2560 + 70:02 384:0002000000080000 = 0-152;156-232;240-512;512-1024;2048-2560;1536-2560;gap 1024;
1024 + 232:ffffffff00000000 = 0-152;156-232;240-512;512-1024;gap 0;
66560 ^ = 0-65534;65538-65614;65622-66048;66048-66560;gap 0;
63 + = refused 1 Short;
1024 + 0:4d5b = refused 2 NoMz;
1024 + 60:ffffffff = refused 1 Short;
1024 + 66:01 = refused 3 NoPe;
1024 + 88:0701 = refused 4 Magic;
1024 + 84:6f00 = refused 6 Headers;
1024 + 84:9700 = refused 6 Headers;
1024 + 148:01040000 = refused 6 Headers;
1024 + 148:6f010000 = refused 6 Headers;
1024 + 156:03 = refused 5 NotEfi;
1024 + 156:0e = refused 5 NotEfi;
1024 + 344:01020000 = refused 7 Sections;
1024 + 348:ffffffff = refused 7 Sections;
1023 + = refused 7 Sections;
1024 + 70:02 384:0002000000020000 = refused 8 Overlap;
1024 + 348:ff010000 = refused 8 Overlap;
1024 + 232:e803000018000000 = refused 9 Table;
1024 + 232:f8ffffff08040000 = refused 9 Table;
1024 + 70:02 328:2e73626174 344:00000000 368:2e73626174 = refused 11 TwoSbat;
1057793 + 232:0024000001001000 344:00000000 = refused 13 TooLong;
70000 + 328:2e73626174 344:01000100 = refused 13 TooLong;
";

/// Appends the printed ranges of an image.
pub fn of_ranges(alloc: Global, told: &mut String, input: &str) -> Result<(), Fail> {
    let bytes = image(alloc, input)?;
    let mut out = Vec::new(alloc);
    if let Err(fault) = print_ranges(&mut Bytes(&bytes), &mut out) {
        print_fault(fault.refusal, fault.place, &mut out);
    }
    tell_lines(told, &mut out)
}

#[test]
fn prints_the_ranges_of_an_image(rt: HostRuntime) -> Result<(), Fail> {
    check(&rt, rt.alloc(), Call::Ranges, RANGES)
}

/// The table and the text of `.sbat`: another name, with a VirtualSize, without one, with one past
/// the section; both of the greatest size.
pub(super) const PARTS: &str = "\
1024 + = no table, no text
1024 + 232:00040000 = no table, no text
1080 + 232:0804000030000000 = 1032 to 1080, no text
1024 + 328:2e73626174000001 = no table, no text
1024 + 328:2e7362617400000024000000 = no table, 512 to 548
1024 + 328:2e7362617400000000000000 = no table, 512 to 1024
1024 + 328:2e7362617400000001020000 = no table, 512 to 1024
1057792 + 232:0024000000001000 344:00000000 = 9216 to 1057792, no text
70000 + 328:2e73626174 344:00000100 = no table, 512 to 66048
";

/// Appends the places of the table and of the text of `.sbat`.
pub fn of_parts(alloc: Global, told: &mut String, input: &str) -> Result<(), Fail> {
    let bytes = image(alloc, input)?;
    let places = layout(&mut Bytes(&bytes))?;
    tell_span(told, table(&places), "no table")?;
    told.push_str(", ")?;
    tell_span(told, sbat_range(&places), "no text")
}

/// Appends a range, or the words for none.
fn tell_span(told: &mut String, span: Option<Span>, none: &str) -> Result<(), Fail> {
    match span {
        Some(Span { from, to }) => write!(told, "{from} to {to}")?,
        None => told.push_str(none)?,
    }
    Ok(())
}

#[test]
fn gives_the_table_and_the_text(rt: HostRuntime) -> Result<(), Fail> {
    check(&rt, rt.alloc(), Call::Parts, PARTS)
}

/// The refusal of the first bytes of an image, of this length.
fn fault_of(size: usize) -> Option<LayoutFault> {
    match size {
        ..88 => Some(LayoutFault::Short),
        88..90 => Some(LayoutFault::Magic),
        90..512 => Some(LayoutFault::Headers),
        512..1024 => Some(LayoutFault::Sections),
        _ => None,
    }
}

#[test]
fn refuses_every_truncation(rt: HostRuntime) -> Result<(), Fail> {
    let bytes = image(rt.alloc(), "1024 +")?;
    for size in 0..1025 {
        let fault = layout(&mut Bytes(bytes.get(..size).unwrap_or(&[]))).err();
        assert!(rt; fault == fault_of(size), "{size}");
    }
    Ok(())
}

/// Writes a row of the section table: one byte, the last row's first, and a byte between any two.
fn put_section(image: &mut [u8], row: u8, count: u8) {
    let at = 5120 + 2 * u32::from(count.saturating_sub(row));
    let place = 344 + 40 * usize::from(row);
    put(image, place, &1u32.to_le_bytes());
    put(image, place + 4, &at.to_le_bytes());
}

/// An image with this many sections.
pub(super) fn with_sections(alloc: Global, count: u8) -> Result<Vec<u8>, Fail> {
    let mut bytes = image(alloc, "8192 + 148:00140000")?;
    put(&mut bytes, 70, &[count, 0]);
    for row in 0..count {
        put_section(&mut bytes, row, count);
    }
    Ok(bytes)
}

#[test]
fn takes_96_sections(rt: HostRuntime) -> Result<(), Fail> {
    let bytes = with_sections(rt.alloc(), 96)?;
    let places = layout(&mut Bytes(&bytes))?;
    assert!(rt; ranges(&places).count() == 100 && gap(&places) == 97);
    let first = Span {
        from: 5122,
        to: 5123,
    };
    assert!(rt; ranges(&places).skip(3).next() == Some(first));
    let last = Span {
        from: 5312,
        to: 5313,
    };
    assert!(rt; ranges(&places).skip(98).next() == Some(last));
    Ok(())
}

#[test]
fn takes_no_97_sections(rt: HostRuntime) -> Result<(), Fail> {
    let more = with_sections(rt.alloc(), 97)?;
    assert!(rt; layout(&mut Bytes(&more)).err() == Some(LayoutFault::Sections));
    Ok(())
}
