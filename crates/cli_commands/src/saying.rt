//! The lines that subcommands write, each whole before anything else happens.
ghost use Rattle.std.specs.Prelude.{◌≡◌, ◌≢◌, ◌⊎◌, IfErr, IfOk, OnErr, OnOk};
ghost use Rattle.std.specs.Io.KnownBytes.{Appends};
ghost use Rattle.base.specs.Output.{AppendsBeginning};
ghost use Rattle.cli_output.specs.Faults.{row_of};
ghost use Rattle.cli_output.specs.VerdictLines.{verdict_line};
ghost use Rattle.cli_commands.specs.Works.{outcome_of, reply_line};

use base::{Refusal, put_each};
use cli_output::{Buffered, Fault, WorkOutcome, print_verdict};
use desk_history::Verdict;
use desk_types::{Facts, Reply, reply_text};
use std::alloc::Global;

/// Writes the reply's text and LF.
pub(crate) fn say_reply<W: Buffered>(
    alloc: Global,
    reply: &Reply,
    writer: &mut W,
) -> Result<(), Fault>
    ensures ok { OnOk result (Appends (W.contents writer.old) (W.contents writer.new)
        (reply_line reply.now)) }
    ensures flushed { OnOk result (W.flushed writer.new) }
    ensures err { OnErr result (AppendsBeginning (W.contents writer.old) (W.contents writer.new)
        (reply_line reply.now)) }
    ensures unwritten { IfErr result (λ fault. fault ≢ row_of Refusal.Write
        → writer.new ≡ writer.old) }
    ensures named { IfErr result (λ fault. (fault ≡ row_of Refusal.NoMemory)
        ⊎ (fault ≡ row_of Refusal.Write)) }
{
    let Ok(text) = reply_text(alloc, reply) else {
        return Err(Fault::from(Refusal::NoMemory));
    };
    put_each(&[text.as_bytes(), b"\n"], writer)?;
    writer.flush_all()?;
    Ok(())
}

/// The outcome of a subcommand for a verdict.
fn outcome(said: &Verdict) -> WorkOutcome
    ensures { result ≡ outcome_of said.now }
{
    match said {
        Verdict::Allowed => WorkOutcome::Done,
        Verdict::DbxDigest | Verdict::DbxCertificate | Verdict::NotListed => WorkOutcome::Refused,
        Verdict::Sbat(_) => WorkOutcome::Refused,
    }
}

/// Writes the line of a verdict.
pub(crate) fn say_verdict<W: Buffered>(
    said: &Verdict,
    found: &Facts,
    writer: &mut W,
) -> Result<WorkOutcome, Fault>
    ensures ok { OnOk result (Appends (W.contents writer.old) (W.contents writer.new)
        (verdict_line said.now found.now)) }
    ensures flushed { OnOk result (W.flushed writer.new) }
    ensures err { OnErr result (AppendsBeginning (W.contents writer.old) (W.contents writer.new)
        (verdict_line said.now found.now)) }
    ensures exact { IfOk result (λ outcome. outcome ≡ outcome_of said.now) }
    ensures named { IfErr result (λ fault. fault ≡ row_of Refusal.Write) }
{
    print_verdict(said, found, writer)?;
    writer.flush_all()?;
    Ok(outcome(said))
}
