//! The entries of an import, put into force.
ghost use Rattle.std.specs.Prelude.{◌≡◌, ◌+◌, ◌<◌, ◌≤◌, ◌^◌, ◌||◌, ◌++◌, ◌∷◌, [], ℕ, List, IfErr, IfOk, IsTrue, OnOk, bytes_eq, false, if◌then◌else◌, map, not, reverse, true};
ghost use Rattle.std.specs.FinMap.{get};
ghost use Rattle.sbat.specs.declared.component.Component.{Component as ComponentValue};
ghost use Rattle.desk_history.specs.Calls.{is_among};
ghost use Rattle.desk_history.specs.Level.{greatest, is_sbat as sbat_name};
ghost use Rattle.desk_types.specs.Raising.{names_no_sbat};
ghost use Rattle.desk_rules.specs.DecisionSteps.{revocation_writes};
ghost use Rattle.desk_history.specs.declared.write.Write.TheVariants as puts;
ghost use Rattle.desk_rules.specs.Foreseen.{may_foresee};
ghost use Rattle.desk_rules.specs.ImportSteps as spec;
ghost use Rattle.desk_rules.specs.Views.{generation_in};

use super::level::put;
use super::push;
use crate::view::View;
use base::{Digest, Refusal};
use desk_history::{Write, is_above};
use desk_types::{
    Counts, Import, ListedKind, Listing, ProposalKind, ProposalNumber, ProposalOutcome,
    ProposalState,
};
use sbat::{Component, ComponentName, Generation, Level, Stamp};
use std::alloc::{AllocError, Global};
use std::collections::BTreeSet;

/// Adds the digest to the known ones, and returns whether it is new.
fn note(known: &mut BTreeSet<Digest>, digest: Digest) -> Result<bool, Refusal>
    ensures ok { IfOk result (λ is_new. is_new ≡ not (is_among known.old.keys digest)) }
    ensures known { OnOk result ((q : List ℕ) → is_among known.new.keys q
        ≡ (bytes_eq q digest || is_among known.old.keys q)) }
    ensures err { IfErr result (λ refusal. refusal ≡ Refusal.NoMemory) }
{
    match known.insert(digest) {
        Ok(is_new) => Ok(is_new),
        Err(failed) => Err(AllocError::from(failed).into()),
    }
}

/// The set of the digests.
pub(crate) fn set_of(alloc: Global, digests: &[Digest]) -> Result<BTreeSet<Digest>, Refusal>
    ensures ok { IfOk result (λ known. (q : List ℕ)
        → is_among known.keys q ≡ is_among digests.now q) }
    ensures err { IfErr result (λ refusal. refusal ≡ Refusal.NoMemory) }
{
    let mut known = BTreeSet::new(alloc);
    for digest in digests {
        note(&mut known, *digest)?;
    }
    Ok(known)
}

/// Adds the digest to the new ones, unless it is known.
fn take_digest(
    known: &mut BTreeSet<Digest>,
    new: &mut Vec<Digest>,
    digest: Digest,
) -> Result<(), Refusal>
    ensures ok { OnOk result (new.new.items
        ≡ (if not (is_among known.old.keys digest) then new.old.items ++ digest
        ∷ [] else new.old.items)) }
    ensures known { OnOk result ((q : List ℕ) → is_among known.new.keys q
        ≡ (bytes_eq q digest || is_among known.old.keys q)) }
    ensures err { IfErr result (λ refusal. refusal ≡ Refusal.NoMemory) }
{
    if !note(known, digest)? {
        return Ok(());
    }
    push(new, digest)?;
    Ok(())
}

/// The named digests without a row, each once, in order. The time is that of sorting both.
fn new_digests(alloc: Global, rows: &[Digest], named: &[Digest]) -> Result<Vec<Digest>, Refusal>
    ensures ok { IfOk result (λ new. spec.AreNew rows.now named.now new.items) }
    ensures err { IfErr result (λ refusal. refusal ≡ Refusal.NoMemory) }
{
    let mut known = set_of(alloc, rows)?;
    let mut new = Vec::new(alloc);
    for digest in named {
        take_digest(&mut known, &mut new, *digest)?;
    }
    Ok(new)
}

/// Gives the row's name its generation in the level, unless it has one.
fn take_row(level: &mut Level, row: &Component) -> Result<(), Refusal>
    ensures ok { OnOk result ((q : List ℕ) → sbat_name q ≡ false → get level.new.generations q
        ≡ spec.or_else (get level.old.generations q) (generation_in (row.now ∷ []) q)) }
    ensures err { IfErr result (λ refusal. refusal ≡ Refusal.NoMemory) }
{
    if row.name.is_sbat() {
        return Ok(());
    }
    if level.generation_of(row.name.as_str().as_bytes()).is_some() {
        return Ok(());
    }
    level.raise(row)?;
    Ok(())
}

/// The level of the rows, with any stamp.
fn level_of(alloc: Global, stamp: Stamp, rows: &[Component]) -> Result<Level, Refusal>
    ensures ok { IfOk result (λ level. spec.HasRows level.generations rows.now) }
    ensures err { IfErr result (λ refusal. refusal ≡ Refusal.NoMemory) }
{
    let mut level = Level::new(alloc, stamp);
    for row in rows {
        take_row(&mut level, row)?;
    }
    Ok(level)
}

/// The changes that an import's components make so far.
#[derive(Drop)]
pub(crate) struct SoFar {
    /// The writes.
    pub(crate) writes: Vec<Write>,
    /// The level so far.
    pub(crate) level: Level,
    /// The count of names that were raised.
    pub(crate) names: u64,
}

impl SoFar {
    /// The generation of the name so far.
    fn generation(&self, name: &ComponentName) -> Option<Generation>
        ensures { result ≡ get self.now.level.generations name.now }
    {
        self.level.generation_of(name.as_str().as_bytes())
    }
}

/// True if the generation rose from the one before.
fn rose(now: Option<Generation>, before: Option<Generation>) -> bool
    ensures { result ≡ spec.rose now before }
{
    match now {
        None => false,
        Some(now) => is_above(now, before),
    }
}

/// True if the name's generation has risen so far.
fn has_risen(before: &Level, so_far: &SoFar, name: &ComponentName) -> bool
    ensures { result ≡ spec.rose (get so_far.now.level.generations name.now)
        (get before.now.generations name.now) }
{
    rose(
        so_far.generation(name),
        before.generation_of(name.as_str().as_bytes()),
    )
}

/// Adds the changes of one component.
fn take_in(before: &Level, component: &Component, so_far: &mut SoFar) -> Result<(), Refusal>
    requires other { sbat_name component.now.name ≡ false }
    requires room { so_far.old.names + 1 < 2 ^ 64 }
    ensures ok { OnOk result ((asked old seen : List ComponentValue)
        → IsTrue (is_among (map (λ x. x.name) asked) component.now.name)
        → get before.now.generations component.now.name ≡ greatest old component.now.name
        → spec.HasTaken asked old seen so_far.old
        → spec.HasTaken asked old (component.now ∷ seen) so_far.new) }
    ensures count { OnOk result (so_far.new.names ≤ so_far.old.names + 1) }
    ensures err { IfErr result (λ refusal. refusal ≡ Refusal.NoMemory) }
{
    if !is_above(component.generation, so_far.generation(&component.name)) {
        return Ok(());
    }
    so_far.names += u64::from(!has_risen(before, so_far, &component.name));
    let row = component.clone()?;
    let write = put(so_far.generation(&component.name), row);
    push(&mut so_far.writes, write)?;
    so_far.level.raise(component)?;
    Ok(())
}

/// The changes that the components, one after another, make to a level that has these rows. The
/// time is that of sorting both.
fn take_all(
    alloc: Global,
    stamp: Stamp,
    rows: &[Component],
    components: &[Component],
) -> Result<SoFar, Refusal>
    requires other { names_no_sbat components.now ≡ true }
    ensures ok { IfOk result (λ so_far. (old : List ComponentValue)
        → ((q : List ℕ) → IsTrue (is_among (map (λ x. x.name) components.now) q)
        → generation_in rows.now q ≡ greatest old q)
        → spec.HasTaken components.now old (reverse components.now) so_far) }
    ensures err { IfErr result (λ refusal. refusal ≡ Refusal.NoMemory) }
{
    let before = level_of(alloc, stamp, rows)?;
    let mut so_far = SoFar {
        writes: Vec::new(alloc),
        level: level_of(alloc, stamp, rows)?,
        names: 0,
    };
    for component in components {
        take_in(&before, component, &mut so_far)?;
    }
    Ok(so_far)
}

/// The changes that the named components make.
pub(crate) fn take_named(alloc: Global, view: &View, named: &Import) -> Result<SoFar, Refusal>
    ensures ok { IfOk result (λ so_far. spec.HasTakenAll view.now named.now so_far) }
    ensures err { IfErr result (λ refusal. refusal ≡ Refusal.NoMemory) }
{
    let components = named.components().as_slice();
    take_all(alloc, view.stamp, &view.lists.components, components)
}

/// Appends the writes that revoke these digests of this kind.
fn put_revoked(writes: &mut Vec<Write>, kind: ListedKind, digests: &[Digest]) -> Result<(), Refusal>
    ensures ok { OnOk result (writes.new.items
        ≡ writes.old.items ++ revocation_writes kind digests.now) }
    ensures err { IfErr result (λ refusal. refusal ≡ Refusal.NoMemory) }
{
    for digest in digests {
        let digest = *digest;
        push(writes, Write::Revoke(Listing { kind, digest }))?;
    }
    Ok(())
}

/// Appends the write of the stamp, if names were raised.
fn put_stamp(writes: &mut Vec<Write>, names: u64, stamp: Option<Stamp>) -> Result<(), Refusal>
    ensures ok { OnOk result (writes.new.items
        ≡ writes.old.items ++ spec.stamp_writes names stamp) }
    ensures err { IfErr result (λ refusal. refusal ≡ Refusal.NoMemory) }
{
    if 0 < names {
        if let Some(stamp) = stamp {
            push(writes, Write::Stamp(stamp))?;
            return Ok(());
        }
    }
    Ok(())
}

/// What named entries add when they are put into force, and the rows that this writes, in order.
#[derive(Drop)]
pub(crate) struct Enforced {
    /// The counts of the reply.
    pub(crate) counts: Counts,
    /// The writes, without the call's own.
    pub(crate) writes: Vec<Write>,
}

/// Puts the named entries into force. `so_far` is the changes that their components make.
fn put_entries(
    alloc: Global,
    view: &View,
    named: &Import,
    so_far: SoFar,
) -> Result<Enforced, Refusal>
    ensures ok { IfOk result (λ enforced. spec.PutsEntries view.now named.now so_far enforced) }
    ensures err { IfErr result (λ refusal. refusal ≡ Refusal.NoMemory) }
{
    let lists = &view.lists;
    let names = so_far.names;
    let digests = named.digests().as_slice();
    let digests = new_digests(alloc, &lists.revoked_digests, digests)?;
    let certificates = named.certificates().as_slice();
    let certificates = new_digests(alloc, &lists.revoked_certificates, certificates)?;
    let mut writes = so_far.writes;
    put_revoked(&mut writes, ListedKind::Digest, &digests)?;
    put_revoked(&mut writes, ListedKind::Certificate, &certificates)?;
    put_stamp(&mut writes, names, named.stamp())?;
    let counts = Counts {
        digests: digests.len() as u64,
        certificates: certificates.len() as u64,
        components: names,
        passed: named.passed(),
    };
    Ok(Enforced { counts, writes })
}

/// Puts the named entries of this kind into force, unless they are refused.
pub(crate) fn put_named(
    alloc: Global,
    view: &View,
    kind: ProposalKind,
    named: &Import,
) -> Result<Enforced, Refusal>
    ensures ok { IfOk result (λ enforced. spec.PutsNamed view.now kind named.now enforced) }
    ensures err { IfErr result (λ refusal. spec.FailsNamed view.now kind named.now refusal) }
    ensures only { IfErr result (λ refusal. IsTrue (may_foresee refusal)) }
{
    let so_far = take_named(alloc, view, named)?;
    if let Some(refusal) = view.force_refusal(kind, named, so_far.names) {
        return Err(refusal);
    }
    put_entries(alloc, view, named, so_far)
}

/// Confirms the proposal, after what puts its entries into force.
pub(crate) fn enforce(proposal: ProposalNumber, entries: Enforced) -> Result<Enforced, Refusal>
    ensures counts { IfOk result (λ enforced. enforced.counts ≡ entries.counts) }
    ensures writes { IfOk result (λ enforced. enforced.writes.items ≡ entries.writes.items
        ++ puts.ProposalState (record { proposal = proposal; state = ProposalState.Confirmed })
        ∷ []) }
    ensures err { IfErr result (λ refusal. refusal ≡ Refusal.NoMemory) }
{
    let counts = entries.counts;
    let mut writes = entries.writes;
    let state = ProposalState::Confirmed;
    push(
        &mut writes,
        Write::ProposalState(ProposalOutcome { proposal, state }),
    )?;
    Ok(Enforced { counts, writes })
}
