//! Decisions by the first rules: what a command names is put into force at once.
ghost use Rattle.std.specs.Prelude.{◌≡◌, IfErr, IsTrue, Some};
ghost use Rattle.desk_types.specs.declared.caller.Caller.{Caller as CallerValue};
ghost use Rattle.desk_types.specs.declared.command.Command.{Command as CommandValue};
ghost use Rattle.desk_types.specs.declared.command.Command.TheVariants as Command;
ghost use Rattle.desk_history.specs.DecisionRefusals.{may_answer};
ghost use Rattle.desk_history.specs.Proposals.{named_by};
ghost use Rattle.desk_rules.specs.FirstSteps as spec;

use super::decide_own;
use super::imports::put_named;
use crate::view::{Changes, View};
use base::{Digest, Refusal};
use desk_types::{Caller, Command, Counts, Import, ProposalKind, Raise, Reply};
use std::alloc::Global;

/// The reply to a command of this kind, of which these are the counts.
fn forced_reply(kind: ProposalKind, counts: Counts) -> Reply
    ensures { result ≡ spec.forced_reply kind counts }
{
    match kind {
        ProposalKind::Digest => Reply::Revoked,
        ProposalKind::Certificate => Reply::Revoked,
        ProposalKind::Level => Reply::Raised,
        ProposalKind::Import => Reply::Imported(counts),
    }
}

/// Puts the named entries into force.
fn force(alloc: Global, view: &View, kind: ProposalKind, named: &Import) -> Result<Changes, Refusal>
    ensures exact { (caller : CallerValue) (command : CommandValue)
        → named_by command ≡ Some (record { kind = kind; entries = named.now })
        → spec.DecidesOwnFirst view.now caller command result }
    ensures only { IfErr result (λ refusal. IsTrue (may_answer refusal)) }
{
    let enforced = put_named(alloc, view, kind, named)?;
    Ok(Changes {
        reply: forced_reply(kind, enforced.counts),
        writes: enforced.writes,
    })
}

/// Revokes the image of this digest.
fn revoke_digest(alloc: Global, view: &View, digest: Digest) -> Result<Changes, Refusal>
    ensures exact { (caller : CallerValue)
        → spec.DecidesOwnFirst view.now caller (Command.RevokeDigest digest) result }
    ensures only { IfErr result (λ refusal. IsTrue (may_answer refusal)) }
{
    let named = Import::of_digest(alloc, digest)?;
    force(alloc, view, ProposalKind::Digest, &named)
}

/// Revokes the certificate of this digest.
fn revoke_certificate(alloc: Global, view: &View, digest: Digest) -> Result<Changes, Refusal>
    ensures exact { (caller : CallerValue)
        → spec.DecidesOwnFirst view.now caller (Command.RevokeCertificate digest) result }
    ensures only { IfErr result (λ refusal. IsTrue (may_answer refusal)) }
{
    let named = Import::of_certificate(alloc, digest)?;
    force(alloc, view, ProposalKind::Certificate, &named)
}

/// Raises the generation that the level requires of a component.
fn raise_level(alloc: Global, view: &View, raise: &Raise) -> Result<Changes, Refusal>
    ensures exact { (caller : CallerValue)
        → spec.DecidesOwnFirst view.now caller (Command.RaiseLevel raise.now) result }
    ensures only { IfErr result (λ refusal. IsTrue (may_answer refusal)) }
{
    let Some(named) = Import::of_raise(alloc, raise)? else {
        return Err(Refusal::NotHigher);
    };
    force(alloc, view, ProposalKind::Level, &named)
}

/// Puts an import's entries into force.
fn import_revocations(alloc: Global, view: &View, named: &Import) -> Result<Changes, Refusal>
    ensures exact { (caller : CallerValue)
        → spec.DecidesOwnFirst view.now caller (Command.ImportRevocations named.now) result }
    ensures only { IfErr result (λ refusal. IsTrue (may_answer refusal)) }
{
    force(alloc, view, ProposalKind::Import, named)
}

/// The answer by the command's own conditions and by the first rules, and the rows that it writes,
/// without the call's own.
pub(crate) fn decide_own_first(
    alloc: Global,
    view: &View,
    caller: &Caller,
    command: &Command,
) -> Result<Changes, Refusal>
    ensures exact { spec.DecidesOwnFirst view.now caller.now command.now result }
    ensures only { IfErr result (λ refusal. IsTrue (may_answer refusal)) }
{
    match command {
        Command::RevokeDigest(digest) => revoke_digest(alloc, view, *digest),
        Command::RevokeCertificate(digest) => revoke_certificate(alloc, view, *digest),
        Command::RaiseLevel(raise) => raise_level(alloc, view, raise),
        Command::ImportRevocations(named) => import_revocations(alloc, view, named),
        Command::AddPerson(_)
        | Command::Submit(_)
        | Command::Review(_)
        | Command::Withdraw(_)
        | Command::Return(_)
        | Command::ListCertificate(_)
        | Command::ListDigest(_)
        | Command::Unlist(_)
        | Command::Confirm(_)
        | Command::Drop(_)
        | Command::Explain(_) => decide_own(alloc, view, caller, command),
    }
}
