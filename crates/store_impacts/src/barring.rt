//! The images that the entries of a proposal would bar, by their own keys.
ghost use Rattle.std.specs.Prelude.{◌≡◌, ◌≢◌, ◌++◌, [], ℕ, OnOk, map};
ghost use Rattle.desk_history.specs.Impact.{allows, impact_of, standing_of, would_force};
ghost use Rattle.desk_history.specs.ImpactShown.{shown_barred};
ghost use Rattle.desk_rules.specs.Entries.{StandsAs};
ghost use Rattle.store_sql.specs.States.{CommitsNothing, DoesInside, Spares, StaysInside};
ghost use Rattle.store_reads.specs.Reads.{listed};
ghost use Rattle.store_shown.specs.Telling.{TellsOf};
ghost use Rattle.store_impacts.specs.Barring as spec;
ghost use Rattle.store_impacts.specs.Touching as touching;

use crate::TouchedImage;
use crate::passed::passed_in;
use desk_history::{
    BarredImage, RequestRow, Rule, Standing, Verdict, bars, entries_bar_alone, rule_of,
};
use desk_rules::verdict;
use desk_types::{Facts, RequestNumber};
use sqlite::{Alter, Transaction};
use std::alloc::Global;
use store_decision_rows::list_view;
use store_reads::{ReadFault, call_numbered, request_numbered};

/// What is found of an image that isn't barred: whether it is allowed now, and the rule of the
/// entries that would bar it.
#[derive(Drop)]
struct Finding {
    is_allowed: bool,
    rule: Rule,
}

/// True if the verdict allows the image.
fn allows(verdict: Verdict) -> bool
    ensures { result ≡ allows verdict }
{
    match verdict {
        Verdict::Allowed => true,
        Verdict::DbxDigest | Verdict::DbxCertificate | Verdict::NotListed | Verdict::Sbat(_) => {
            false
        }
    }
}

/// The facts of the image that the call of this number brought. Takes memory for the call's row.
///
/// `Row`: there is no such call, or it brought no image.
fn facts_of<S: Alter>(
    alloc: Global,
    tx: &mut Transaction<'_, S>,
    call: u64,
) -> Result<Facts, ReadFault>
    ensures same_reference { tx.new.conn.ghost_name ≡ tx.old.conn.ghost_name }
    ensures value { DoesInside S.Store tx.old.conn.now tx.new.conn.now result
        (λ facts. TellsOf (spec.AreFactsOf call facts)) }
    ensures inside { StaysInside S.Store tx.old.conn.now tx.new.conn.now result }
    ensures kept { CommitsNothing S.Store tx.old.conn.now tx.new.conn.now }
    ensures survives { Spares S.Store tx.old.conn.now tx.new.conn.now }
{
    let Some(texts) = call_numbered(alloc, tx, call)? else {
        return Err(ReadFault::Row);
    };
    let Some(passed) = passed_in(alloc, texts.text.as_str().as_bytes())? else {
        return Err(ReadFault::Row);
    };
    Ok(passed.facts)
}

/// What is found of the image of these facts, or nothing if it is barred or the entries don't bar
/// it. Costs one keyed statement for each of its keys.
fn finding_of<S: Alter, E: Standing>(
    alloc: Global,
    tx: &mut Transaction<'_, S>,
    entries: &E,
    facts: &Facts,
) -> Result<Option<Finding>, ReadFault>
    ensures same_reference { tx.new.conn.ghost_name ≡ tx.old.conn.ghost_name }
    ensures value { DoesInside S.Store tx.old.conn.now tx.new.conn.now result
        (λ found. TellsOf (λ cs.
        found ≡ spec.finding_by (E.Standing.standing entries.now) cs facts.now)) }
    ensures kept { CommitsNothing S.Store tx.old.conn.now tx.new.conn.now }
    ensures survives { Spares S.Store tx.old.conn.now tx.new.conn.now }
{
    let view = list_view(alloc, tx, facts)?;
    if bars(&view, facts) {
        return Ok(None);
    }
    let is_allowed = allows(verdict(&view, facts));
    match rule_of(entries, facts) {
        Ok(Some(rule)) => Ok(Some(Finding { is_allowed, rule })),
        Ok(None) => Ok(None),
        Err(_) => Err(ReadFault::NoMemory),
    }
}

/// The row of the request of this number. `Row`: there is none.
fn row_of<S: Alter>(
    alloc: Global,
    tx: &mut Transaction<'_, S>,
    number: RequestNumber,
) -> Result<RequestRow, ReadFault>
    ensures same_reference { tx.new.conn.ghost_name ≡ tx.old.conn.ghost_name }
    ensures value { DoesInside S.Store tx.old.conn.now tx.new.conn.now result
        (λ row. TellsOf (λ cs. spec.Describes cs number row)) }
    ensures kept { CommitsNothing S.Store tx.old.conn.now tx.new.conn.now }
    ensures survives { Spares S.Store tx.old.conn.now tx.new.conn.now }
{
    match request_numbered(alloc, tx, number)? {
        Some(row) => Ok(row),
        None => Err(ReadFault::Row),
    }
}

/// The image as it is shown, or nothing if it is barred now or the entries don't bar it.
fn barred_image<S: Alter, E: Standing>(
    alloc: Global,
    tx: &mut Transaction<'_, S>,
    entries: &E,
    image: TouchedImage,
) -> Result<Option<BarredImage>, ReadFault>
    ensures same_reference { tx.new.conn.ghost_name ≡ tx.old.conn.ghost_name }
    ensures value { DoesInside S.Store tx.old.conn.now tx.new.conn.now result
        (λ found. TellsOf (spec.IsBarred (E.Standing.standing entries.now) image found)) }
    ensures inside { StaysInside S.Store tx.old.conn.now tx.new.conn.now result }
    ensures kept { CommitsNothing S.Store tx.old.conn.now tx.new.conn.now }
    ensures survives { Spares S.Store tx.old.conn.now tx.new.conn.now }
{
    let facts = facts_of(alloc, tx, image.call)?;
    let Some(found) = finding_of(alloc, tx, entries, &facts)? else {
        return Ok(None);
    };
    let row = row_of(alloc, tx, image.request)?;
    Ok(Some(BarredImage {
        request: image.request,
        file: image.file,
        state: row.state,
        submitter: row.submitter,
        title: row.title,
        is_allowed: found.is_allowed,
        rule: found.rule,
    }))
}

/// Appends the image, if there is one.
fn push_some(images: &mut Vec<BarredImage>, image: Option<BarredImage>) -> Result<(), ReadFault>
    ensures { OnOk result (images.new.items ≡ images.old.items ++ listed image) }
{
    let Some(image) = image else {
        return Ok(());
    };
    match images.push(image) {
        Ok(()) => Ok(()),
        Err(_) => Err(ReadFault::NoMemory),
    }
}

/// Those of the images that aren't barred now, as they are shown, in order.
fn images_of<S: Alter, E: Standing>(
    alloc: Global,
    tx: &mut Transaction<'_, S>,
    entries: &E,
    touched: &[TouchedImage],
) -> Result<Vec<BarredImage>, ReadFault>
    ensures same_reference { tx.new.conn.ghost_name ≡ tx.old.conn.ghost_name }
    ensures value { DoesInside S.Store tx.old.conn.now tx.new.conn.now result
        (λ found. TellsOf
        (spec.AreBarred (E.Standing.standing entries.now) touched.now found.items)) }
    ensures inside { touched.now ≢ []
        → StaysInside S.Store tx.old.conn.now tx.new.conn.now result }
    ensures kept { CommitsNothing S.Store tx.old.conn.now tx.new.conn.now }
    ensures survives { Spares S.Store tx.old.conn.now tx.new.conn.now }
{
    let mut found = Vec::new(alloc);
    for image in touched {
        let shown = barred_image(alloc, tx, entries, *image)?;
        push_some(&mut found, shown)?;
    }
    Ok(found)
}

/// The images that a Confirm of a proposal would bar, in the order of the calls that brought them,
/// from those that the proposal's entries bar by themselves (`touched`). Each of those is read
/// again by its call's number, and judged by its own keys: one that is barred now is left out.
/// Without images nothing is read. Takes memory for one image at a time, and for what is returned.
///
/// `Row`: a call, or a request, isn't as a desk left it.
pub fn barred_images<S: Alter, E: Standing>(
    alloc: Global,
    tx: &mut Transaction<'_, S>,
    entries: &E,
    touched: &[TouchedImage],
) -> Result<Vec<BarredImage>, ReadFault>
    ensures same_reference { tx.new.conn.ghost_name ≡ tx.old.conn.ghost_name }
    ensures value { DoesInside S.Store tx.old.conn.now tx.new.conn.now result
        (λ found. TellsOf (λ cs. (k : ℕ)
        → StandsAs (E.Standing.standing entries.now) (standing_of (would_force cs k))
        → touched.now ≡ touching.touched (E.Standing.standing entries.now) cs
        → found.items ≡ map shown_barred (impact_of cs k).bars)) }
    ensures inside { touched.now ≢ []
        → StaysInside S.Store tx.old.conn.now tx.new.conn.now result }
    ensures kept { CommitsNothing S.Store tx.old.conn.now tx.new.conn.now }
    ensures survives { Spares S.Store tx.old.conn.now tx.new.conn.now }
{
    entries_bar_alone();
    let found = images_of(alloc, tx, entries, touched)?;
    Ok(found)
}
