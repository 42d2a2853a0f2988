//! Proposals to revoke and to raise the level, and their confirmation.
ghost use Rattle.std.specs.Prelude.{◌≡◌, ◌≤◌, ◌+◌, [], ◌∷◌, IfErr, IsTrue, MatchOption, Some, find, option_copied};
ghost use Rattle.std.specs.List.{list_any};
ghost use Rattle.desk_types.specs.Callers.{caller_name};
ghost use Rattle.desk_types.specs.Forms.{greatest_number};
ghost use Rattle.desk_types.specs.declared.command.Command.{Command as CommandValue};
ghost use Rattle.desk_types.specs.declared.command.Command.TheVariants as Command;
ghost use Rattle.desk_types.specs.declared.reply.Reply.TheVariants as replies;
ghost use Rattle.desk_history.specs.DecisionRefusals.{may_answer};
ghost use Rattle.desk_history.specs.Proposals.{named_by};
ghost use Rattle.desk_history.specs.declared.write.Write.TheVariants as puts;
ghost use Rattle.desk_rules.specs.DecisionSteps as spec;
ghost use Rattle.desk_rules.specs.Foreseen.{may_foresee};
ghost use Rattle.desk_rules.specs.ImportSteps as steps;
ghost use Rattle.desk_rules.specs.Shown.{is_proposal_row};
ghost use Rattle.desk_rules.specs.Views.{seen_standing};

use super::imports::{Enforced, enforce, put_named, take_named};
use super::one_write;
use crate::rows::open_proposal;
use crate::view::{Changes, View};
use base::{Digest, Refusal};
use desk_history::{
    ProposalRow, Standing, Write, confirm_by, drop_by, is_above, is_later, refuse_if,
};
use desk_types::{
    Caller, Confirmation, GREATEST_NUMBER, Import, ListedKind, ProposalKind, ProposalNumber,
    ProposalOutcome, ProposalState, Raise, Reply,
};
use sbat::Component;
use std::alloc::Global;

/// The number after this many proposals, if there is one.
fn number_after(proposals: u64) -> Option<ProposalNumber>
    ensures { MatchOption result (greatest_number ≤ proposals) (λ number. number ≡ proposals + 1) }
{
    if GREATEST_NUMBER <= proposals {
        return None;
    }
    ProposalNumber::new(proposals + 1)
}

impl View {
    /// The row of the proposal of this number.
    fn proposal(&self, number: ProposalNumber) -> Option<&ProposalRow>
        ensures { option_copied result ≡ find (is_proposal_row number) self.now.proposals.items }
    {
        self.proposals
            .iter()
            .find(|row| number.value() == row.number.value())
    }

    /// True if one of the digests of this kind is revoked.
    fn has_revoked(&self, kind: ListedKind, digests: &[Digest]) -> bool
        ensures { result ≡ list_any ((seen_standing self.now.lists).revoked kind) digests.now }
    {
        digests
            .iter()
            .any(|digest| self.lists.is_revoked(kind, *digest))
    }

    /// True if the component can't be raised to its generation.
    fn is_lower(&self, component: &Component) -> bool
        ensures { result ≡ spec.is_lower_in self.now.lists.components.items component.now }
    {
        component.name.is_sbat()
            || !is_above(component.generation, self.lists.generation(&component.name))
    }

    /// True if one of the components can't be raised to its generation.
    fn has_lower(&self, components: &[Component]) -> bool
        ensures { result
            ≡ list_any (spec.is_lower_in self.now.lists.components.items) components.now }
    {
        components.iter().any(|component| self.is_lower(component))
    }

    /// The refusal to put the named entries into force, by their kind and by the count of names
    /// that they raise.
    pub(super) fn force_refusal(
        &self,
        kind: ProposalKind,
        named: &Import,
        names: u64,
    ) -> Option<Refusal>
        ensures { result ≡ spec.force_refusal_in self.now kind named.now names }
    {
        match kind {
            ProposalKind::Digest => {
                let digests = named.digests().as_slice();
                let is_revoked = self.has_revoked(ListedKind::Digest, digests);
                refuse_if(is_revoked, Refusal::AlreadyRevoked)
            }
            ProposalKind::Certificate => {
                let certificates = named.certificates().as_slice();
                let is_revoked = self.has_revoked(ListedKind::Certificate, certificates);
                refuse_if(is_revoked, Refusal::AlreadyRevoked)
            }
            ProposalKind::Level => {
                let components = named.components().as_slice();
                if self.has_lower(components) {
                    return Some(Refusal::NotHigher);
                }
                refuse_if(!is_later(self.stamp, named.stamp()), Refusal::StampNotLater)
            }
            ProposalKind::Import => {
                let is_early = 0 < names && !is_later(self.stamp, named.stamp());
                refuse_if(is_early, Refusal::StampNotLater)
            }
        }
    }

    /// The refusal to drop the proposal.
    fn drop_refusal(&self, number: ProposalNumber) -> Option<Refusal>
        ensures { result ≡ spec.drop_refusal_in self.now number }
    {
        match self.proposal(number) {
            None => Some(Refusal::NoSuchProposal),
            Some(row) => drop_by(row.state),
        }
    }

    /// The refusal to explain the proposal.
    fn explain_refusal(&self, number: ProposalNumber) -> Option<Refusal>
        ensures { result ≡ spec.explain_refusal_in self.now number }
    {
        match self.proposal(number) {
            None => Some(Refusal::NoSuchProposal),
            Some(_) => None,
        }
    }
}

/// Proposes the named entries as the proposal of this number. `names` is the count of names that
/// they raise.
fn propose_as(
    alloc: Global,
    view: &View,
    number: ProposalNumber,
    caller: &Caller,
    kind: ProposalKind,
    named: Import,
    names: u64,
) -> Result<Changes, Refusal>
    ensures { spec.Decided result (spec.force_refusal_in view.now kind named names)
        (replies.Proposed number)
        (puts.Propose (spec.open_row number (caller_name caller.now) kind named) ∷ []) }
{
    if let Some(refusal) = view.force_refusal(kind, &named, names) {
        return Err(refusal);
    }
    let row = open_proposal(alloc, number, caller, kind, named)?;
    one_write(alloc, Reply::Proposed(number), Write::Propose(row))
}

/// Proposes the named entries as the next proposal.
fn propose(
    alloc: Global,
    view: &View,
    caller: &Caller,
    kind: ProposalKind,
    named: Import,
) -> Result<Changes, Refusal>
    ensures exact { (command : CommandValue)
        → named_by command ≡ Some (record { kind = kind; entries = named })
        → spec.DecidesOwn view.now caller.now command result }
    ensures only { IfErr result (λ refusal. IsTrue (may_answer refusal)) }
{
    let so_far = take_named(alloc, view, &named)?;
    match number_after(view.sizes.proposals) {
        None => Err(Refusal::Full),
        Some(number) => propose_as(alloc, view, number, caller, kind, named, so_far.names),
    }
}

/// Proposes to revoke the image of this digest.
pub(crate) fn propose_digest(
    alloc: Global,
    view: &View,
    caller: &Caller,
    digest: Digest,
) -> Result<Changes, Refusal>
    ensures exact { spec.DecidesOwn view.now caller.now (Command.RevokeDigest digest) result }
    ensures only { IfErr result (λ refusal. IsTrue (may_answer refusal)) }
{
    let named = Import::of_digest(alloc, digest)?;
    propose(alloc, view, caller, ProposalKind::Digest, named)
}

/// Proposes to revoke the certificate of this digest.
pub(crate) fn propose_certificate(
    alloc: Global,
    view: &View,
    caller: &Caller,
    digest: Digest,
) -> Result<Changes, Refusal>
    ensures exact { spec.DecidesOwn view.now caller.now (Command.RevokeCertificate digest) result }
    ensures only { IfErr result (λ refusal. IsTrue (may_answer refusal)) }
{
    let named = Import::of_certificate(alloc, digest)?;
    propose(alloc, view, caller, ProposalKind::Certificate, named)
}

/// Proposes to raise the generation that the level requires of a component.
pub(crate) fn propose_level(
    alloc: Global,
    view: &View,
    caller: &Caller,
    raise: &Raise,
) -> Result<Changes, Refusal>
    ensures exact { spec.DecidesOwn view.now caller.now (Command.RaiseLevel raise.now) result }
    ensures only { IfErr result (λ refusal. IsTrue (may_answer refusal)) }
{
    let Some(named) = Import::of_raise(alloc, raise)? else {
        return Err(Refusal::NotHigher);
    };
    propose(alloc, view, caller, ProposalKind::Level, named)
}

/// Proposes an import.
pub(crate) fn propose_import(
    alloc: Global,
    view: &View,
    caller: &Caller,
    named: &Import,
) -> Result<Changes, Refusal>
    ensures exact { spec.DecidesOwn view.now caller.now (Command.ImportRevocations named.now)
        result }
    ensures only { IfErr result (λ refusal. IsTrue (may_answer refusal)) }
{
    let named = named.clone()?;
    propose(alloc, view, caller, ProposalKind::Import, named)
}

/// Puts the entries of the open proposal in this row into force, as a Confirm by another officer
/// than its proposer does.
fn put_into_force(
    alloc: Global,
    view: &View,
    row: &ProposalRow,
    number: ProposalNumber,
) -> Result<Enforced, Refusal>
    ensures exact { find (is_proposal_row number) view.now.proposals.items ≡ Some row.now
        → row.now.state ≡ ProposalState.Open → steps.ConfirmsAnother view.now number result }
    ensures only { IfErr result (λ refusal. IsTrue (may_foresee refusal)) }
{
    let entries = put_named(alloc, view, row.kind, &row.named)?;
    enforce(number, entries)
}

/// Puts the proposal's entries into force, as a Confirm by another officer than its proposer does.
pub(crate) fn confirm_another(
    alloc: Global,
    view: &View,
    number: ProposalNumber,
) -> Result<Enforced, Refusal>
    ensures exact { steps.ConfirmsAnother view.now number result }
    ensures only { IfErr result (λ refusal. IsTrue (may_foresee refusal)) }
{
    let Some(row) = view.proposal(number) else {
        return Err(Refusal::NoSuchProposal);
    };
    if let Some(refusal) = confirm_by(row.state, false, None) {
        return Err(refusal);
    }
    put_into_force(alloc, view, row, number)
}

/// Puts the proposal's entries into force. They are read only if the proposal is open and not the
/// caller's own.
pub(crate) fn confirm(
    alloc: Global,
    view: &View,
    caller: &Caller,
    number: ProposalNumber,
) -> Result<Changes, Refusal>
    ensures exact { spec.DecidesOwn view.now caller.now (Command.Confirm number) result }
    ensures only { IfErr result (λ refusal. IsTrue (may_answer refusal)) }
{
    let Some(row) = view.proposal(number) else {
        return Err(Refusal::NoSuchProposal);
    };
    let is_own = row.officer.as_str() == caller.name();
    if let Some(refusal) = confirm_by(row.state, is_own, None) {
        return Err(refusal);
    }
    let enforced = put_into_force(alloc, view, row, number)?;
    let confirmation = Confirmation {
        proposal: number,
        counts: enforced.counts,
    };
    Ok(Changes {
        reply: Reply::Confirmed(confirmation),
        writes: enforced.writes,
    })
}

/// Drops the proposal.
pub(crate) fn drop_proposal(
    alloc: Global,
    view: &View,
    proposal: ProposalNumber,
) -> Result<Changes, Refusal>
    ensures { spec.Decided result (spec.drop_refusal_in view.now proposal)
        (replies.Dropped proposal)
        (puts.ProposalState (record { proposal = proposal; state = ProposalState.Dropped }) ∷ []) }
{
    if let Some(refusal) = view.drop_refusal(proposal) {
        return Err(refusal);
    }
    let state = ProposalState::Dropped;
    one_write(
        alloc,
        Reply::Dropped(proposal),
        Write::ProposalState(ProposalOutcome { proposal, state }),
    )
}

/// Explains the proposal, which changes no row.
pub(crate) fn explain_proposal(
    alloc: Global,
    view: &View,
    proposal: ProposalNumber,
) -> Result<Changes, Refusal>
    ensures { spec.Decided result (spec.explain_refusal_in view.now proposal)
        (replies.Explained proposal) [] }
{
    if let Some(refusal) = view.explain_refusal(proposal) {
        return Err(refusal);
    }
    Ok(Changes {
        reply: Reply::Explained(proposal),
        writes: Vec::new(alloc),
    })
}
