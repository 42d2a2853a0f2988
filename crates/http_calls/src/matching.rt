//! The tag of what a command is about, against the one that the caller sent.
ghost use Rattle.std.specs.Prelude.{◌≡◌, ◌≢◌, ℕ, List, Err, IfErr, IfOk};
ghost use Rattle.desk_history.specs.Calls.{History};
ghost use Rattle.desk_exports.specs.Desks.{ForEachShown, LeavesShown, StillShows};
ghost use Rattle.http_calls.specs.Desks.{IsTold};
ghost use Rattle.http_calls.specs.Tags as spec;

use crate::call::{Task, TaskAsked};
use crate::refusing::outage;
use base::{Digest, Refusal};
use desk_exports::{AnswersCalls, Reading, Shown, proposal_tag};
use desk_types::{Person, Subject};
use http_requests::ImageAsked;
use http_responses::{Outage, Refused, RequestsText};
use std::alloc::{AllocError, Global};

/// What the command of a task is about, if it is about a request or a proposal.
fn subject_of(task: &Task) -> Option<Subject>
    ensures { result ≡ spec.subject_of task.now }
{
    match task {
        Task::Image(ImageAsked::Return(_, number), _) => Some(Subject::Request(*number)),
        Task::Command(_, command) => command.subject_named(),
        Task::Image(ImageAsked::Submit(_, _) | ImageAsked::Verdict | ImageAsked::Facts, _)
        | Task::Read(_)
        | Task::Bytes(_, _, _) => None,
    }
}

/// The reading that shows it.
fn reading_of(subject: Subject) -> Reading
    ensures { result ≡ spec.reading_of subject }
{
    match subject {
        Subject::Request(number) => Reading::Request(number),
        Subject::Proposal(number) => Reading::Proposal(number),
    }
}

/// The tag of a request or of a proposal that is shown. Takes memory for a proposal's.
fn tag_in(alloc: Global, shown: &Shown<RequestsText>) -> Result<Option<Digest>, AllocError>
    ensures { IfOk result (λ tag. tag ≡ spec.tag_in shown.now) }
{
    match shown {
        Shown::Request(request) => Ok(Some(request.facts.file)),
        Shown::Proposal(row) => Ok(Some(proposal_tag(alloc, &row.named)?)),
        Shown::Requests(_)
        | Shown::Proposals(_)
        | Shown::Impact(_, _)
        | Shown::Waiting(_, _)
        | Shown::Changes(_)
        | Shown::Export(_, _)
        | Shown::Report(_)
        | Shown::Minutes(_)
        | Shown::People(_)
        | Shown::Me(_) => Ok(None),
    }
}

/// The tag of what a reading shows, or `None` if it shows nothing; or why the desk can't answer.
fn tag_told(
    alloc: Global,
    read: Result<Shown<RequestsText>, Refusal>,
) -> Result<Option<Digest>, Outage>
    requires { IfErr read IsTold }
    ensures tells { spec.TellsTag read result }
    ensures named { result ≢ Err Outage.NotADesk }
{
    match read {
        Ok(shown) => match tag_in(alloc, &shown) {
            Ok(tag) => Ok(tag),
            Err(AllocError) => Err(Outage::NoMemory),
        },
        Err(refusal) => match Refused::of(refusal) {
            Some(_) => Ok(None),
            None => Err(outage(refusal)),
        },
    }
}

/// The tag of what the person is shown under this number, or `None` if nothing is shown. Makes one
/// reading of the desk. Takes memory.
///
/// `NoMemory`: memory was refused, and nothing changed. `Store`: the store failed. `Reopen`: an
/// earlier call failed, and the desk does nothing more.
fn tag_shown<D: AnswersCalls>(
    alloc: Global,
    desk: &mut D,
    person: &Person,
    subject: Subject,
) -> Result<Option<Digest>, Outage>
    ensures given { D.clean desk.new → IfOk result (λ tag. ForEachShown (D.shows desk.old)
        (λ _ cs. tag ≡ spec.tag_shown cs person.now.name subject)) }
    ensures same { D.clean desk.new → result ≢ Err Outage.Store
        → StillShows (D.shows desk.old) (D.shows desk.new) }
    ensures stopped { D.clean desk.new
        → LeavesShown (D.shows desk.old) (D.leaves desk.new) }
    ensures before { D.clean desk.new → D.clean desk.old }
    ensures usable { ForEachShown (D.shows desk.old) (λ _ _. result ≢ Err Outage.Reopen) }
    ensures poisons { result ≡ Err Outage.Store → D.failed desk.new }
    ensures closed { D.failed desk.old → (desk.new ≡ desk.old) × spec.IsShutTo result
        (λ tag. (cs : History) → tag ≡ spec.tag_shown cs person.now.name subject) }
    ensures named { result ≢ Err Outage.NotADesk }
{
    let Ok(reader) = person.clone() else {
        return Err(Outage::NoMemory);
    };
    tag_told(alloc, desk.read(reader, reading_of(subject)))
}

/// Whether another tag is shown than this one, if one is shown.
fn differs(tag: Digest, shown: Result<Option<Digest>, Outage>) -> Result<bool, Outage>
    ensures { result ≡ spec.differs_from tag shown }
{
    match shown {
        Ok(Some(shown)) => Ok(shown != tag),
        Ok(None) => Ok(false),
        Err(outage) => Err(outage),
    }
}

/// Whether what the command is about has another tag than the one that the caller sent: never if
/// the caller sent none, or is shown nothing of that number. Makes one reading of the desk if there
/// is a tag and the command is about something, and then takes memory.
///
/// Its errors are those of `tag_shown`.
pub(crate) fn is_mismatch<D: AnswersCalls>(
    alloc: Global,
    desk: &mut D,
    call: &TaskAsked,
) -> Result<bool, Outage>
    ensures given { D.clean desk.new → IfOk result (λ is_other. ForEachShown (D.shows desk.old)
        (λ _ cs. is_other ≡ spec.is_mismatch cs call.now)) }
    ensures same { D.clean desk.new → result ≢ Err Outage.Store
        → StillShows (D.shows desk.old) (D.shows desk.new) }
    ensures stopped { D.clean desk.new
        → LeavesShown (D.shows desk.old) (D.leaves desk.new) }
    ensures before { D.clean desk.new → D.clean desk.old }
    ensures usable { ForEachShown (D.shows desk.old) (λ _ _. result ≢ Err Outage.Reopen) }
    ensures poisons { result ≡ Err Outage.Store → D.failed desk.new }
    ensures closed { D.failed desk.old → (desk.new ≡ desk.old) × spec.IsShutTo result
        (λ is_other. (cs : History) → is_other ≡ spec.is_mismatch cs call.now) }
    ensures named { result ≢ Err Outage.NotADesk }
{
    let Some(tag) = call.tag else {
        return Ok(false);
    };
    let Some(subject) = subject_of(&call.task) else {
        return Ok(false);
    };
    differs(tag, tag_shown(alloc, desk, &call.person, subject))
}
