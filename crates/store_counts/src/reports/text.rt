//! The text of a report.
ghost use Rattle.std.specs.Prelude.{◌≡◌, ◌++◌, IfOk, OnOk, replicate, string_bytes};
ghost use Rattle.desk_exports.specs.Reports.{line};
ghost use Rattle.store_counts.specs.reports.Reports as spec;

use crate::{Counts, ListCounts, RequestCounts};
use itoa::Buffer;
use std::alloc::{AllocError, Global};

/// Appends `count` spaces to the text.
fn pad(text: &mut String, count: usize) -> Result<(), AllocError>
    ensures { OnOk result (string_bytes text.new
        ≡ string_bytes text.old ++ replicate count 32) }
{
    for _ in 0..count {
        text.push_str(" ")?;
    }
    Ok(())
}

/// Appends a line: the label at the left in 24 places, and the number at the right in 10.
fn put_line(text: &mut String, label: &str, number: u64) -> Result<(), AllocError>
    ensures { OnOk result (string_bytes text.new
        ≡ string_bytes text.old ++ line label.now number) }
{
    let mut buffer = Buffer::new();
    let digits = buffer.format(number);
    text.push_str(label)?;
    pad(text, 24usize.saturating_sub(label.len()))?;
    pad(text, 10usize.saturating_sub(digits.len()))?;
    text.push_str(digits)?;
    text.push_str("\n")
}

#[tactic(auto, unfolding(crate::specs::reports::Reports::front_lines))]
fn put_front(text: &mut String, people: u64, counts: &RequestCounts) -> Result<(), AllocError>
    ensures { OnOk result (string_bytes text.new
        ≡ string_bytes text.old ++ spec.front_lines people counts.now) }
{
    put_line(text, "people", people)?;
    put_line(text, "requests", counts.all)
}

#[tactic(auto, unfolding(crate::specs::reports::Reports::state_lines))]
fn put_states(text: &mut String, counts: &RequestCounts) -> Result<(), AllocError>
    ensures { OnOk result (string_bytes text.new
        ≡ string_bytes text.old ++ spec.state_lines counts.now) }
{
    put_line(text, "open", counts.still_open)?;
    put_line(text, "approved", counts.approved)?;
    put_line(text, "rejected", counts.rejected)?;
    put_line(text, "withdrawn", counts.withdrawn)?;
    put_line(text, "signed", counts.signed)
}

#[tactic(auto, unfolding(crate::specs::reports::Reports::list_lines))]
fn put_lists(text: &mut String, counts: &ListCounts) -> Result<(), AllocError>
    ensures { OnOk result (string_bytes text.new
        ≡ string_bytes text.old ++ spec.list_lines counts.now) }
{
    put_line(text, "listed digests", counts.listed.digests)?;
    put_line(text, "listed certificates", counts.listed.certificates)?;
    put_line(text, "revoked digests", counts.revoked.digests)?;
    put_line(text, "revoked certificates", counts.revoked.certificates)
}

#[tactic(auto, unfolding(crate::specs::reports::Reports::end_lines))]
fn put_end(text: &mut String, counts: &ListCounts, calls: u64) -> Result<(), AllocError>
    ensures { OnOk result (string_bytes text.new
        ≡ string_bytes text.old ++ spec.end_lines counts.now calls) }
{
    put_line(text, "level components", counts.components)?;
    put_line(text, "commands", calls)?;
    put_line(text, "stamp", counts.stamp.value())
}

/// The report of a desk's counts: fourteen lines, each with a label at the left in 24 places, a
/// number at the right in 10, and LF. Takes memory for the text.
pub fn report(alloc: Global, counts: &Counts) -> Result<String, AllocError>
    ensures { IfOk result (λ text. string_bytes text ≡ spec.report_of counts.now) }
{
    let mut text = String::new(alloc);
    put_front(&mut text, counts.people, &counts.requests)?;
    put_states(&mut text, &counts.requests)?;
    put_lists(&mut text, &counts.lists)?;
    put_end(&mut text, &counts.lists, counts.calls)?;
    Ok(text)
}
