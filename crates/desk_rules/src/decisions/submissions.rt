//! Submissions.
ghost use Rattle.std.specs.Prelude.{◌≡◌, ◌++◌, IfErr, OnOk, map, reverse};
ghost use Rattle.desk_history.specs.declared.write.Write.TheVariants as puts;
ghost use Rattle.desk_types.specs.declared.reply.Reply.TheVariants as replies;
ghost use Rattle.desk_history.specs.Tables.{placed_from};
ghost use Rattle.desk_rules.specs.DecisionSteps.{Decided, carried_rows, submission_writes};
ghost use Rattle.desk_history.specs.Refusals.{refuse_if};
ghost use Rattle.desk_history.specs.Verdicts.{bars as bars_on};
ghost use Rattle.desk_rules.specs.Views.{seen_standing};

use super::push;
use crate::rows::{open_request, request_component};
use crate::view::{Changes, View};
use base::{Digest, Refusal};
use desk_history::{RequestCertificateRow, Write, bars};
use desk_types::{Caller, Reply, RequestNumber, Submission};
use sbat::Component;
use std::alloc::Global;

/// Writes the certificates that a request's image carries, the last first.
fn put_certificates(
    writes: &mut Vec<Write>,
    request: RequestNumber,
    carried: &[Digest],
) -> Result<(), Refusal>
    ensures ok { OnOk result (writes.new.items
        ≡ writes.old.items ++ map (λ row. puts.RequestCertificate row) (reverse
        (carried_rows request carried.now))) }
    ensures err { IfErr result (λ refusal. refusal ≡ Refusal.NoMemory) }
{
    let mut place = carried.len();
    while 0 < place {
        place -= 1;
        let digest = carried[place];
        let row = RequestCertificateRow { request, digest };
        push(writes, Write::RequestCertificate(row))?;
    }
    Ok(())
}

/// Writes the components of a request's image, the last first.
fn put_components(
    writes: &mut Vec<Write>,
    request: RequestNumber,
    components: &[Component],
) -> Result<(), Refusal>
    ensures ok { OnOk result (writes.new.items
        ≡ writes.old.items ++ map (λ row. puts.RequestComponent row) (reverse
        (placed_from request 0 components.now))) }
    ensures err { IfErr result (λ refusal. refusal ≡ Refusal.NoMemory) }
{
    let mut place = components.len();
    while 0 < place {
        place -= 1;
        let row = request_component(request, place as u64, &components[place])?;
        push(writes, Write::RequestComponent(row))?;
    }
    Ok(())
}

/// Accepts the submission as the request of this number.
pub(crate) fn submit(
    alloc: Global,
    view: &View,
    number: RequestNumber,
    caller: &Caller,
    submission: &Submission,
) -> Result<Changes, Refusal>
    ensures { Decided result
        (refuse_if (bars_on (seen_standing view.now.lists) submission.now.facts) Refusal.Revoked)
        (replies.Submitted number) (submission_writes number caller.now submission.now) }
{
    let facts = &submission.facts;
    if bars(&view.lists, facts) {
        return Err(Refusal::Revoked);
    }
    let mut writes = Vec::new(alloc);
    let row = open_request(alloc, number, caller, submission)?;
    push(&mut writes, Write::Request(row))?;
    put_certificates(&mut writes, number, facts.carried.as_slice())?;
    put_components(&mut writes, number, facts.components.as_slice())?;
    Ok(Changes {
        reply: Reply::Submitted(number),
        writes,
    })
}
