//! The subcommands that need no desk.
ghost use Rattle.std.specs.Prelude.{◌≡◌, OnErr, OnOk};
ghost use Rattle.std.specs.Io.KnownBytes.{Appends};
ghost use Rattle.base.specs.Output.{AppendsBeginning};
ghost use Rattle.cli_output.specs.Listings.{facts_lines};
ghost use Rattle.cli_arguments.specs.Alone.{EndsAlone, PacksKnown, Tells};
ghost use Rattle.cli_arguments.specs.Alone.{TellsFacts, TellsLists, TellsRanges, without_desk};

use base::Guid;
use cli_output::{
    Buffered, Ending, Fault, WorkOutcome, print_facts, print_list, print_ranges, read_file,
    read_image,
};
use desk_inputs::facts;
use desk_types::Facts;
use pe_image::Pieces;
use siglist::pack;
use std::alloc::Global;
use std::io::Read;
use std::rt::Files;

/// The end of a subcommand that has no desk to close.
pub fn ending_after(done: Result<(), Fault>) -> Ending
    ensures { result ≡ without_desk done }
{
    match done {
        Ok(()) => Ending {
            work: Ok(WorkOutcome::Done),
            closing: None,
        },
        Err(fault) => Ending {
            work: Err(fault),
            closing: None,
        },
    }
}

/// Prints facts.
fn say_facts<W: Buffered>(found: &Facts, out: &mut W) -> Result<(), Fault>
    ensures ok { OnOk result (Appends (W.contents out.old) (W.contents out.new)
        (facts_lines found.now)) }
    ensures err { OnErr result (AppendsBeginning (W.contents out.old) (W.contents out.new)
        (facts_lines found.now)) }
{
    print_facts(found, out)?;
    out.flush_all()?;
    Ok(())
}

/// Prints the facts of an image that the desk keeps.
fn facts_of<W: Buffered>(alloc: Global, image: &mut Pieces, out: &mut W) -> Result<(), Fault>
    ensures { Tells TellsFacts (W.contents out.old) (W.contents out.new) result }
{
    let found = facts(alloc, image)?;
    say_facts(&found, out)
}

/// Prints the facts of the image in a file.
fn facts_in<R: Files + AllocGlobal, W: Buffered>(
    rt: &R,
    file: &str,
    out: &mut W,
) -> Result<(), Fault>
    ensures { Tells TellsFacts (W.contents out.old) (W.contents out.new) result }
{
    let mut image = read_image(rt, file)?;
    facts_of(rt.alloc(), &mut image, out)
}

/// Prints the ranges of an image.
fn ranges_of<W: Buffered>(image: &mut Pieces, out: &mut W) -> Result<(), Fault>
    ensures { Tells TellsRanges (W.contents out.old) (W.contents out.new) result }
{
    print_ranges(image, out)?;
    out.flush_all()?;
    Ok(())
}

/// Prints the ranges of the image in a file.
fn ranges_in<R: Files + AllocGlobal, W: Buffered>(
    rt: &R,
    file: &str,
    out: &mut W,
) -> Result<(), Fault>
    ensures { Tells TellsRanges (W.contents out.old) (W.contents out.new) result }
{
    let mut image = read_image(rt, file)?;
    ranges_of(&mut image, out)
}

/// Prints signature lists.
fn lists_of<W: Buffered>(alloc: Global, bytes: &[u8], out: &mut W) -> Result<(), Fault>
    ensures { Tells TellsLists (W.contents out.old) (W.contents out.new) result }
{
    print_list(alloc, bytes, out)?;
    out.flush_all()?;
    Ok(())
}

/// Prints the signature lists in a file.
fn lists_in<R: Files + AllocGlobal, W: Buffered>(
    rt: &R,
    file: &str,
    out: &mut W,
) -> Result<(), Fault>
    ensures { Tells TellsLists (W.contents out.old) (W.contents out.new) result }
{
    let bytes = read_file(rt, file)?;
    lists_of(rt.alloc(), &bytes, out)
}

/// Packs all of the reader.
fn pack_all<R: Read, W: Buffered>(
    alloc: Global,
    owner: &Guid,
    reader: &mut R,
    out: &mut W,
) -> Result<(), Fault>
    ensures { Tells (PacksKnown owner.now (R.remaining reader.old))
        (W.contents out.old) (W.contents out.new) result }
{
    pack(alloc, owner, reader, out)?;
    out.flush_all()?;
    Ok(())
}

/// Prints the facts of the image in a file that the desk keeps. Nothing is written of an image that
/// isn't read or is refused.
pub fn tell_facts<W: Buffered>(rt: &HostRuntime, file: &str, out: &mut W) -> Ending
    ensures { EndsAlone TellsFacts (W.contents out.old) (W.contents out.new) result }
{
    ending_after(facts_in(rt, file, out))
}

/// Prints the ranges of the image in a file that Authenticode hashes, as `tell_facts` does.
pub fn tell_ranges<W: Buffered>(rt: &HostRuntime, file: &str, out: &mut W) -> Ending
    ensures { EndsAlone TellsRanges (W.contents out.old) (W.contents out.new) result }
{
    ending_after(ranges_in(rt, file, out))
}

/// Prints the signature lists in a file. Nothing is written of bytes that aren't lists.
pub fn tell_lists<W: Buffered>(rt: &HostRuntime, file: &str, out: &mut W) -> Ending
    ensures { EndsAlone TellsLists (W.contents out.old) (W.contents out.new) result }
{
    ending_after(lists_in(rt, file, out))
}

/// Packs the digests of the reader's lines under this owner: `siglist::pack`.
pub fn pack_lines<R: Read, W: Buffered>(
    alloc: Global,
    owner: &Guid,
    reader: &mut R,
    out: &mut W,
) -> Ending
    ensures { EndsAlone (PacksKnown owner.now (R.remaining reader.old))
        (W.contents out.old) (W.contents out.new) result }
{
    ending_after(pack_all(alloc, owner, reader, out))
}
