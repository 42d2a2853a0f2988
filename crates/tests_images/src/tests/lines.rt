//! The printed lines of facts, of lists and of a fault.
use super::{Call, check, image, tell_lines};
use base::{Guid, Refusal, WriteFailed};
use cli_output::{
    Fault, MOST_BYTES, print_facts, print_fault, print_impact, print_list, print_verdict,
};
use desk_history::{BarredImage, Below, Rule, ShownImpact, Verdict, WhichFile};
use desk_inputs::facts;
use desk_types::{Counts, Facts, PersonName, RequestNumber, State, Title};
use pe_image::Bytes;
use sbat::{Component, Generation};
use siglist::pack;
use std::alloc::Global;
use std::io::ErrorKind;
use std::test::Fail;
use testing::Narrow;

/// The printed facts of images: PE32+, PE32 to be padded, with a certificate, with components too;
/// and the first fault. The digests are those of Python's hashlib for the file and for the ranges.
pub(super) const FACTS: &str = "\
1024 + = \
length 1024;file e4c220d8dab039abb3652b6fa6a553ed2263ecd9bc8c21da0d6b8015b6e0d14c;digest a035ceb75d7d18f5784a0da16d4cbfcc277a24990091c0827616a97541c6178b;signing a035ceb75d7d18f5784a0da16d4cbfcc277a24990091c0827616a97541c6178b;gap 0;
1029 - = \
length 1029;file 4fb764e5b75bb7e84275790cc1fd6edd5d8c0104c9824a67d1c7572f575e7638;digest 2ca1f14dec14a1930f358569c27445f5373a32d23cd56e2e94f2492ae931c0b5;signing 1a6df360fd4ed5423f91db4c62f83a0c765f56480a1bd7b055c645ccc3134cd7;gap 0;
1072 + 232:0004000030000000 1024:T = \
length 1072;file b3d1fc6ee7e14319a4c3c4f11dc7b2a5f382803e4eb0ad80a9f88d970b9e25c0;digest a035ceb75d7d18f5784a0da16d4cbfcc277a24990091c0827616a97541c6178b;signing a035ceb75d7d18f5784a0da16d4cbfcc277a24990091c0827616a97541c6178b;gap 0;certificate 1b65f68a522c858715f5dd951cd0402dc16691778814bf0759822b7a257421d0;
1584 + 70:02 232:0006000030000000 368:2e73626174 376:24000000 384:0002000000040000 1024:736261742c312c612c622c312c750d0a0d0a677275622c30332c612c622c322c750a 1536:T = \
length 1584;file c33d7fd42132af8af3eb54d26748949ed8fa5bb5c6e70a9ec28b1c0618c5a74a;digest bcabe797dca41d55885a111442fb3b62d3704704d545b54adb64d4a0d1c9b9d1;signing bcabe797dca41d55885a111442fb3b62d3704704d545b54adb64d4a0d1c9b9d1;gap 0;certificate 1b65f68a522c858715f5dd951cd0402dc16691778814bf0759822b7a257421d0;component sbat 1;component grub 3;
1584 + 70:02 232:0006000030000000 368:2e73626174 376:24000000 384:0002000000040000 1024:736261742c312c612c622c312c750d0a0d0a677275622c30332c612c622c322c750a 1536:T 156:03 1536:2a = \
refused 5 NotEfi;
1584 + 70:02 232:0006000030000000 368:2e73626174 376:24000000 384:0002000000040000 1024:736261742c312c612c622c312c750d0a0d0a677275622c30332c612c622c322c750a 1536:T 1536:31 1024:2c = \
refused 9 Table;
1584 + 70:02 232:0006000030000000 368:2e73626174 376:24000000 384:0002000000040000 1024:736261742c312c612c622c312c750d0a0d0a677275622c30332c612c622c322c750a 1536:T 1536:2a 1024:2c = \
refused 10 Der;
1584 + 70:02 232:0006000030000000 368:2e73626174 376:24000000 384:0002000000040000 1024:736261742c312c612c622c312c750d0a0d0a677275622c30332c612c622c322c750a 1536:T 1024:2c = \
refused 12 SbatRow at 1;
1584 + 70:02 232:0006000030000000 368:2e73626174 376:24000000 384:0002000000040000 1024:736261742c312c612c622c312c750d0a0d0a677275622c30332c612c622c322c750a 1536:T 1048:30 = \
refused 12 SbatRow at 3;
";

/// Appends the printed facts of an image.
pub fn of_facts(alloc: Global, told: &mut String, input: &str) -> Result<(), Fail> {
    let bytes = image(alloc, input)?;
    let mut out = Vec::new(alloc);
    match facts(alloc, &mut Bytes(&bytes)) {
        Ok(found) => print_facts(&found, &mut out)?,
        Err(fault) => {
            let fault = Fault::from(fault);
            print_fault(fault.refusal, fault.place, &mut out);
        }
    }
    tell_lines(told, &mut out)
}

#[test]
fn prints_the_facts_of_an_image(rt: HostRuntime) -> Result<(), Fail> {
    check(&rt, rt.alloc(), Call::Facts, FACTS)
}

/// A writer that takes 50 bytes a call and fails at this call.
fn narrow(alloc: Global, fails_at: u64) -> Narrow {
    Narrow {
        taken: Vec::new(alloc),
        most: 50,
        calls: 0,
        fails_at,
        kind: ErrorKind::BrokenPipe,
    }
}

/// The image whose facts are printed in part.
const CUT: &str = "1072 + 232:0004000030000000 1024:T";

/// Whether these are the first bytes of all, and all of them just where the whole was written.
fn is_beginning(taken: &[u8], all: &[u8], is_whole: bool) -> bool {
    all.starts_with(taken) && (taken.len() == all.len()) == is_whole
}

#[test]
fn prints_a_beginning_of_the_facts_before_a_failed_write(rt: HostRuntime) -> Result<(), Fail> {
    let found = facts(rt.alloc(), &mut Bytes(&image(rt.alloc(), CUT)?))?;
    let mut whole = Vec::new(rt.alloc());
    print_facts(&found, &mut whole)?;
    let mut last = 0;
    for fails_at in 1..200 {
        let mut writer = narrow(rt.alloc(), fails_at);
        let is_whole = print_facts(&found, &mut writer).is_ok();
        assert!(rt; is_beginning(&writer.taken, &whole, is_whole));
        if !is_whole {
            last = fails_at;
        }
    }
    assert!(rt; 8 <= last && last < 199, "so many writes");
    Ok(())
}

/// An X509 list; a SHA256 list of one digest, an X509_SHA256 list of one certificate and a list of
/// another type; the same without their last byte; and the last one so.
const LISTS: &str = " = nothing
a159c0a5e494a74a87b5ab155c2bf072310000000000000015000000\
33221100554477668899aabbccddeeff0102030405 = 0 x509 1;
2616c4c14c509240aca941f9369343284c0000000000000030000000\
33221100554477668899aabbccddeeff\
aaaaaaaaaaaaaaaaaaaaaaaaaaaaaaaaaaaaaaaaaaaaaaaaaaaaaaaaaaaaaaaa\
92a4d23bc0967940b420fcf98ef103ed5c0000000000000040000000\
33221100554477668899aabbccddeeff\
bbbbbbbbbbbbbbbbbbbbbbbbbbbbbbbbbbbbbbbbbbbbbbbbbbbbbbbbbbbbbbbb\
e8070101000000000000000000000000\
33221100554477668899aabbccddeeff300000000000000014000000\
33221100554477668899aabbccddeeff01020304 = \
0 sha256 1;76 x509_sha256 1;168 00112233-4455-6677-8899-aabbccddeeff 1;
2616c4c14c509240aca941f9369343284c0000000000000030000000\
33221100554477668899aabbccddeeff\
aaaaaaaaaaaaaaaaaaaaaaaaaaaaaaaaaaaaaaaaaaaaaaaaaaaaaaaaaaaaaaaa\
92a4d23bc0967940b420fcf98ef103ed5c0000000000000040000000\
33221100554477668899aabbccddeeff\
bbbbbbbbbbbbbbbbbbbbbbbbbbbbbbbbbbbbbbbbbbbbbbbbbbbbbbbbbbbbbbbb\
e8070101000000000000000000000000\
33221100554477668899aabbccddeeff300000000000000014000000\
33221100554477668899aabbccddeeff010203 = refused 15 List at 168;
33221100554477668899aabbccddeeff300000000000000014000000\
33221100554477668899aabbccddeeff010203 = refused 15 List at 0;
33221100554477668899aabbccddeeff1c000000000000000f000000 = refused 16 EntrySize at 0;
";

/// Appends the printed lines of lists.
fn tell_list(alloc: Global, told: &mut String, bytes: &[u8]) -> Result<(), Fail> {
    let mut out = Vec::new(alloc);
    if let Err(fault) = print_list(alloc, bytes, &mut out) {
        print_fault(fault.refusal, fault.place, &mut out);
    }
    tell_lines(told, &mut out)
}

/// Appends the printed lines of lists in hexadecimal.
pub fn of_list(alloc: Global, told: &mut String, input: &str) -> Result<(), Fail> {
    let bytes = hex::decode(alloc, input)?;
    tell_list(alloc, told, &bytes)
}

#[test]
fn prints_the_lists_of_a_file(rt: HostRuntime) -> Result<(), Fail> {
    check(&rt, rt.alloc(), Call::List, LISTS)
}

/// Whether this many zeros are refused with this fault.
fn is_refused(alloc: Global, size: usize, fault: Fault) -> Result<bool, Fail> {
    let bytes = vec![in alloc; 0u8; size]?;
    Ok(print_list(alloc, &bytes, &mut Vec::new(alloc)) == Err(fault))
}

#[test]
fn prints_no_list_of_a_file_past_128_mib(rt: HostRuntime) -> Result<(), Fail> {
    let long = Fault::from(Refusal::TooLong);
    let first = Fault {
        refusal: Refusal::List,
        place: Some(0),
    };
    assert!(rt; is_refused(rt.alloc(), MOST_BYTES + 1, long)?);
    assert!(rt; is_refused(rt.alloc(), MOST_BYTES, first)?);
    Ok(())
}

/// Whether a fault gives this status and this line.
fn is_line(alloc: Global, refusal: Refusal, place: Option<u64>, status: u8, line: &str) -> bool {
    let mut out = Vec::new(alloc);
    print_fault(refusal, place, &mut out).status == status && out.as_slice() == line.as_bytes()
}

#[test]
fn prints_the_line_of_a_fault(rt: HostRuntime) {
    let alloc = rt.alloc();
    assert!(rt; is_line(alloc, Refusal::Line, Some(2), 1, "refused 18 Line at 2\n"));
    assert!(rt; is_line(alloc, Refusal::TooLong, None, 1, "refused 13 TooLong\n"));
    assert!(rt; is_line(alloc, Refusal::NotADesk, None, 1, "refused 43 NotADesk\n"));
    assert!(rt; is_line(alloc, Refusal::Read, None, 3, "device 14 Read\n"));
    assert!(rt; is_line(alloc, Refusal::Write, None, 3, "device 17 Write\n"));
    assert!(rt; is_line(alloc, Refusal::NoMemory, None, 3, "device 40 NoMemory\n"));
    assert!(rt; is_line(alloc, Refusal::Store, None, 3, "device 41 Store\n"));
    assert!(rt; is_line(alloc, Refusal::Reopen, None, 3, "device 42 Reopen\n"));
    assert!(rt; is_line(alloc, Refusal::File, None, 3, "device 45 File\n"));
}

/// 64 digits, and twice 63.
const SHORT: &str = "\
0000000000000000000000000000000000000000000000000000000000000000
000000000000000000000000000000000000000000000000000000000000000
000000000000000000000000000000000000000000000000000000000000000
";

/// Why it isn't packed.
fn pack_short(alloc: Global, list: &mut Vec<u8>) -> Option<Fault> {
    let owner = Guid::parse("00112233-4455-6677-8899-aabbccddeeff").ok()?;
    let fault = pack(alloc, &owner, &mut SHORT.as_bytes(), list).err()?;
    Some(Fault::from(fault))
}

#[test]
fn prints_why_a_text_is_not_packed(rt: HostRuntime) -> Result<(), Fail> {
    let mut list = Vec::new(rt.alloc());
    let fault = pack_short(rt.alloc(), &mut list).ok_or("it is packed")?;
    assert!(rt; list.is_empty());
    let place = fault.place;
    assert!(rt;
        is_line(
            rt.alloc(),
            fault.refusal,
            place,
            1,
            "refused 18 Line at 2\n"
        )
    );
    Ok(())
}

/// The printed verdicts on an image of the components sbat 1 and grub 3.
const VERDICTS: &str = "\
allowed
refused dbx-digest
refused dbx-certificate
refused not-listed
refused sbat grub 3 4294967295
";

/// That image.
const WITH_COMPONENTS: &str = "1536 + 70:02 368:2e73626174 376:24000000 384:0002000000040000 \
    1024:736261742c312c612c622c312c750d0a0d0a677275622c30332c612c622c322c750a";

/// Prints each verdict on an image of these facts.
fn print_verdicts(found: &Facts, needs: Generation, out: &mut Vec<u8>) -> Result<(), WriteFailed> {
    print_verdict(&Verdict::Allowed, found, out)?;
    print_verdict(&Verdict::DbxDigest, found, out)?;
    print_verdict(&Verdict::DbxCertificate, found, out)?;
    print_verdict(&Verdict::NotListed, found, out)?;
    print_verdict(&Verdict::Sbat(Below { place: 1, needs }), found, out)
}

#[test]
fn prints_the_line_of_a_verdict(rt: HostRuntime) -> Result<(), Fail> {
    let needs = Generation::new(u32::MAX).ok_or("a generation")?;
    let found = facts(rt.alloc(), &mut Bytes(&image(rt.alloc(), WITH_COMPONENTS)?))?;
    let mut out = Vec::new(rt.alloc());
    print_verdicts(&found, needs, &mut out)?;
    assert!(rt; out.as_slice() == VERDICTS.as_bytes());
    Ok(())
}

/// The lines of an impact on three images.
const IMPACT: &str = "\
7\tsubmitted\topen\tann\trefused\tdbx-digest\ta loader
7\treturned\tsigned\tann\tallowed\tdbx-certificate\ta loader
7\tsubmitted\twithdrawn\tann\trefused\tsbat grub 3 4294967295\ta loader
dbx 216
";

/// An image of request 7 that would be barred.
fn barred(
    alloc: Global,
    file: WhichFile,
    state: State,
    is_allowed: bool,
    rule: Rule,
) -> Result<BarredImage, Fail> {
    Ok(BarredImage {
        request: RequestNumber::new(7).ok_or("a number")?,
        file,
        state,
        submitter: PersonName::parse(alloc, b"ann")?,
        title: Title::parse(alloc, b"a loader")?,
        is_allowed,
        rule,
    })
}

/// The second component of an image, which is below this generation.
fn component_rule(facts: &Facts, needs: Generation) -> Result<Rule, Fail> {
    let component: &Component = facts.components.as_slice().get(1).ok_or("a component")?;
    Ok(Rule::Component(component.clone()?, needs))
}

/// An impact on three images.
fn impact_on_three(alloc: Global, by_component: Rule) -> Result<ShownImpact, Fail> {
    let mut bars = Vec::new(alloc);
    bars.push(barred(
        alloc,
        WhichFile::Submitted,
        State::Open,
        false,
        Rule::Digest,
    )?)?;
    bars.push(barred(
        alloc,
        WhichFile::Returned,
        State::Signed,
        true,
        Rule::Certificate,
    )?)?;
    bars.push(barred(
        alloc,
        WhichFile::Submitted,
        State::Withdrawn,
        false,
        by_component,
    )?)?;
    Ok(ShownImpact {
        bars,
        adds: Counts {
            digests: 1,
            certificates: 1,
            components: 1,
            passed: 0,
        },
        dbx: 216,
    })
}

#[test]
fn prints_the_lines_of_an_impact(rt: HostRuntime) -> Result<(), Fail> {
    let needs = Generation::new(u32::MAX).ok_or("a generation")?;
    let found = facts(rt.alloc(), &mut Bytes(&image(rt.alloc(), WITH_COMPONENTS)?))?;
    let impact = impact_on_three(rt.alloc(), component_rule(&found, needs)?)?;
    let mut out = Vec::new(rt.alloc());
    print_impact(&impact, &mut out)?;
    assert!(rt; out.as_slice() == IMPACT.as_bytes());
    Ok(())
}
