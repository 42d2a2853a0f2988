//! The calls that subcommands make, and which of them the words ask for.
ghost use Rattle.std.specs.Prelude.{◌≡◌, Ok, Result};
ghost use Rattle.cli_output.specs.declared.ending.Ending.{Ending as Ended};
ghost use Rattle.cli_arguments.specs.Calls.{DoesLine, InSilence, Streams, WithoutInput, streams};
ghost use Rattle.cli_arguments.specs.Lines.{line_of};
ghost use Rattle.cli_arguments.specs.Meanings as meant;
ghost use Rattle.cli_arguments.specs.Meanings.{Meaning, meaning_of};
ghost use Rattle.cli_arguments.specs.declared.values.stop.Stop.{Stop as Stopped};

use crate::jobs::{Job, job_of};
use crate::line::Words;
use crate::values::{Newcomer, Place, Stop, TokenForm};
use base::Guid;
use cli_output::{Buffered, Ending};
use desk_exports::Export;
use desk_types::ProposalNumber;
use std::io::Read;

/// The calls that subcommands make: one for each, with its values. Minutes in a file named `-` are
/// those of the input.
pub trait Calls: Drop {
    /// What is done: of a subcommand with its values, the bytes of the run, and its result.
    ghost does: { Self → Meaning → Streams → Result Ended Stopped → Type 0 };

    /// Makes a desk with this owner in a file.
    fn init(self, rt: &HostRuntime, db: &str, owner: &Guid) -> Ending
        ensures { InSilence (does self (meant.init db.now owner.now)) result };

    /// Adds a person, whose token the input gives in this form.
    fn add<R: Read, W: Buffered>(
        self,
        rt: &HostRuntime,
        db: &str,
        newcomer: Newcomer,
        token: TokenForm,
        input: &mut R,
        out: &mut W,
    ) -> Result<Ending, Stop>
        ensures { does self (meant.add db.now newcomer token)
            (streams (R.remaining input.old) (W.contents out.old) (W.contents out.new)) result };

    /// Follows minutes on the desk in a file.
    fn follow<R: Read + Drop, W: Buffered>(
        self,
        rt: &HostRuntime,
        db: &str,
        owner: &Guid,
        file: &str,
        input: R,
        out: &mut W,
    ) -> Ending
        ensures { does self (meant.follow db.now owner.now file.now)
            (streams (R.remaining input) (W.contents out.old) (W.contents out.new)) (Ok result) };

    /// Serves connections.
    fn serve(self, rt: &HostRuntime, db: &str, place: Place) -> Ending
        ensures { InSilence (does self (meant.serve db.now place)) result };

    /// Answers the request on the standard input, on the standard output.
    fn answer(self, rt: &HostRuntime, db: &str) -> Ending
        ensures { InSilence (does self (meant.answer db.now)) result };

    /// Prints an image's facts.
    fn facts<W: Buffered>(self, rt: &HostRuntime, file: &str, out: &mut W) -> Ending
        ensures { WithoutInput (does self (meant.facts file.now))
            (W.contents out.old) (W.contents out.new) result };

    /// Prints an image's ranges.
    fn ranges<W: Buffered>(self, rt: &HostRuntime, file: &str, out: &mut W) -> Ending
        ensures { WithoutInput (does self (meant.ranges file.now))
            (W.contents out.old) (W.contents out.new) result };

    /// Prints the verdict of the desk in a file on an image's file.
    fn verdict<W: Buffered>(self, rt: &HostRuntime, db: &str, file: &str, out: &mut W) -> Ending
        ensures { WithoutInput (does self (meant.verdict db.now file.now))
            (W.contents out.old) (W.contents out.new) result };

    /// Prints the impact of a proposal.
    fn impact<W: Buffered>(
        self,
        rt: &HostRuntime,
        db: &str,
        number: ProposalNumber,
        out: &mut W,
    ) -> Ending
        ensures { WithoutInput (does self (meant.impact db.now number))
            (W.contents out.old) (W.contents out.new) result };

    /// Writes an export.
    fn export<W: Buffered>(self, rt: &HostRuntime, db: &str, what: Export, out: &mut W) -> Ending
        ensures { WithoutInput (does self (meant.export db.now what))
            (W.contents out.old) (W.contents out.new) result };

    /// Follows minutes in memory.
    fn audit<R: Read + Drop, W: Buffered>(
        self,
        rt: &HostRuntime,
        owner: &Guid,
        file: &str,
        what: Option<Export>,
        input: R,
        out: &mut W,
    ) -> Ending
        ensures { does self (meant.audit owner.now file.now what)
            (streams (R.remaining input) (W.contents out.old) (W.contents out.new)) (Ok result) };

    /// Prints the signature lists in a file.
    fn list<W: Buffered>(self, rt: &HostRuntime, file: &str, out: &mut W) -> Ending
        ensures { WithoutInput (does self (meant.list file.now))
            (W.contents out.old) (W.contents out.new) result };

    /// Packs the digests of the input.
    fn pack<R: Read, W: Buffered>(
        self,
        rt: &HostRuntime,
        owner: &Guid,
        input: &mut R,
        out: &mut W,
    ) -> Ending
        ensures { does self (meant.pack owner.now)
            (streams (R.remaining input.old) (W.contents out.old) (W.contents out.new))
            (Ok result) };
}

/// Does a job: makes its one call with its values.
pub fn run<C: Calls, R: Read + Drop, W: Buffered>(
    rt: &HostRuntime,
    calls: C,
    job: Job<'_>,
    input: R,
    out: &mut W,
) -> Result<Ending, Stop>
    ensures { C.does calls (meaning_of job.entry)
        (streams (R.remaining input) (W.contents out.old) (W.contents out.new)) result }
{
    let mut input = input;
    match job {
        Job::Init { db, owner } => Ok(calls.init(rt, db, &owner)),
        Job::Add {
            db,
            newcomer,
            token,
        } => calls.add(rt, db, newcomer, token, &mut input, out),
        Job::Follow { db, owner, file } => Ok(calls.follow(rt, db, &owner, file, input, out)),
        Job::Serve { db, place } => Ok(calls.serve(rt, db, place)),
        Job::Answer { db } => Ok(calls.answer(rt, db)),
        Job::Facts { file } => Ok(calls.facts(rt, file, out)),
        Job::Ranges { file } => Ok(calls.ranges(rt, file, out)),
        Job::Verdict { db, file } => Ok(calls.verdict(rt, db, file, out)),
        Job::Impact { db, number } => Ok(calls.impact(rt, db, number, out)),
        Job::Export { db, what } => Ok(calls.export(rt, db, what, out)),
        Job::Audit { owner, file, what } => Ok(calls.audit(rt, &owner, file, what, input, out)),
        Job::List { file } => Ok(calls.list(rt, file, out)),
        Job::Pack { owner } => Ok(calls.pack(rt, &owner, &mut input, out)),
    }
}

/// Does what a subcommand's words mean.
///
/// `Word`: a word isn't in its form, or the input gives no token, and nothing is written. `Fault`:
/// memory for a person's words was refused, or the token wasn't read.
pub fn run_words<C: Calls, R: Read + Drop, W: Buffered>(
    rt: &HostRuntime,
    calls: C,
    words: Words<'_>,
    input: R,
    out: &mut W,
) -> Result<Ending, Stop>
    ensures { DoesLine (C.does calls) (line_of words.entry)
        (streams (R.remaining input) (W.contents out.old) (W.contents out.new)) result }
{
    match job_of(rt.alloc(), words) {
        Ok(job) => run(rt, calls, job, input, out),
        Err(why) => Err(why),
    }
}
