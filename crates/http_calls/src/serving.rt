//! The answer to a call.
ghost use Rattle.std.specs.Prelude.{◌≡◌, ◌≢◌, ℕ, List, Err, IfOk};
ghost use Rattle.sha2.specs.Sha256.{sha256};
ghost use Rattle.desk_history.specs.Calls.{History};
ghost use Rattle.http_calls.specs.Answers as spec;
ghost use Rattle.http_calls.specs.Given as given;
ghost use Rattle.desk_exports.specs.Desks.{ForEachShown, LeavesShown, StillShows, person_with};

use crate::answers::TaskAnswer;
use crate::bodies::{command_of, returned_file, submission};
use crate::call::{Task, TaskAsked};
use crate::matching::is_mismatch;
use crate::reading::{judge, show, tell};
use crate::refusing::outage;
use crate::taking::take;
use desk_exports::AnswersCalls;
use desk_inputs::token_digest;
use desk_types::{Person, PersonName};
use http_requests::ImageAsked;
use http_responses::{Outage, Refused};
use pe_image::Pieces;
use std::alloc::Global;

/// The person whose token this is, if there is one. Takes memory.
///
/// `NoMemory`: memory was refused, and nothing changed. `Store`: the store failed. `Reopen`: an
/// earlier call failed, and the desk does nothing more.
pub fn caller<D: AnswersCalls>(desk: &mut D, token: &[u8]) -> Result<Option<Person>, Outage>
    ensures given { D.clean desk.new → IfOk result (λ person. ForEachShown (D.shows desk.old)
        (λ _ cs. person ≡ person_with (sha256 token.now) cs)) }
    ensures same { D.clean desk.new → result ≢ Err Outage.Store
        → StillShows (D.shows desk.old) (D.shows desk.new) }
    ensures stopped { D.clean desk.new
        → LeavesShown (D.shows desk.old) (D.leaves desk.new) }
    ensures before { D.clean desk.new → D.clean desk.old }
    ensures usable { ForEachShown (D.shows desk.old) (λ _ _. result ≢ Err Outage.Reopen) }
    ensures poisons { result ≡ Err Outage.Store → D.failed desk.new }
    ensures closed { D.failed desk.old → (result ≡ Err Outage.Reopen) × (desk.new ≡ desk.old) }
    ensures named { result ≢ Err Outage.NotADesk }
{
    match desk.person_of(&token_digest(token)) {
        Ok(person) => Ok(person),
        Err(refusal) => Err(outage(refusal)),
    }
}

/// Answers a request with an image by the person of this name.
fn answer_image<D: AnswersCalls>(
    alloc: Global,
    desk: &mut D,
    name: PersonName,
    asked: ImageAsked,
    image: Pieces,
) -> TaskAnswer
    ensures served { D.clean desk.new → (owner : List ℕ) (cs : History)
        → D.shows desk.old owner cs
        → spec.Serves (D.shows desk.new owner) (D.failed desk.new) cs
        (spec.AnswersImage cs name asked image) result }
    ensures gives { D.clean desk.new → ForEachShown (D.shows desk.old) (λ owner cs.
        given.GivesOne (D.shows desk.new owner) (D.failed desk.new) (D.leaves desk.new owner) cs
        (given.IsCallOfImage name asked image) result) }
    ensures before { D.clean desk.new → D.clean desk.old }
    ensures poisons { result ≡ spec.store_failed → D.failed desk.new }
    ensures closed { D.failed desk.old
        → spec.IsClosed (λ _ cs. spec.AnswersImage cs name asked image) result
        × (desk.new ≡ desk.old) }
{
    match asked {
        ImageAsked::Submit(key, title) => take(desk, name, &key, submission(alloc, title, image)),
        ImageAsked::Return(key, number) => take(
            desk,
            name,
            &key,
            returned_file(alloc, number, image),
        ),
        ImageAsked::Verdict => judge(alloc, desk, image),
        ImageAsked::Facts => tell(alloc, image),
    }
}

/// Answers a person's task. A body is read before the desk is asked, so its faults come first. Takes
/// memory.
fn answer_task<D: AnswersCalls>(
    alloc: Global,
    desk: &mut D,
    person: Person,
    task: Task,
) -> TaskAnswer
    ensures served { D.clean desk.new → (owner : List ℕ) (cs : History)
        → D.shows desk.old owner cs
        → spec.Serves (D.shows desk.new owner) (D.failed desk.new) cs
        (spec.AnswersTask owner cs person task) result }
    ensures gives { D.clean desk.new → ForEachShown (D.shows desk.old) (λ owner cs.
        given.GivesOne (D.shows desk.new owner) (D.failed desk.new) (D.leaves desk.new owner) cs
        (given.IsCallOfTask person task) result) }
    ensures before { D.clean desk.new → D.clean desk.old }
    ensures poisons { result ≡ spec.store_failed → D.failed desk.new }
    ensures closed { D.failed desk.old
        → spec.IsClosed (λ owner cs. spec.AnswersTask owner cs person task) result
        × (desk.new ≡ desk.old) }
{
    match task {
        Task::Read(reading) => show(desk, person, reading),
        Task::Image(asked, image) => answer_image(alloc, desk, person.name, asked, image),
        Task::Command(key, command) => take(desk, person.name, &key, Ok(Ok(command))),
        Task::Bytes(key, asked, bytes) => {
            take(desk, person.name, &key, command_of(alloc, asked, bytes))
        }
    }
}

/// Answers a call. If the caller sent a tag, and the command is about a request or a proposal, that
/// is read first, by the same caller: a command that is about something of another tag is refused.
/// Then a body is read before the desk is asked, so its faults come first. Takes memory.
///
/// `Unavailable`: the desk couldn't answer. `NoMemory`: memory was refused, and nothing changed.
/// `Store`: the store failed. `Reopen`: the store failed before. Such a desk may still give an
/// answer that is due whatever it holds: the facts of an image, the person's own name and role, the
/// refusal of a body, or of a report to no officer. Every refusal changes nothing. Whatever the
/// answer, a stop leaves the history that the desk showed, or the one after the call's command
/// (`gives`).
pub fn answer<D: AnswersCalls>(alloc: Global, desk: &mut D, call: TaskAsked) -> TaskAnswer
    ensures served { D.clean desk.new → (owner : List ℕ) (cs : History)
        → D.shows desk.old owner cs
        → spec.Serves (D.shows desk.new owner) (D.failed desk.new) cs
        (spec.AnswersCall owner cs call) result }
    ensures gives { D.clean desk.new → ForEachShown (D.shows desk.old) (λ owner cs.
        given.GivesOne (D.shows desk.new owner) (D.failed desk.new) (D.leaves desk.new owner) cs
        (given.IsCallOf call) result) }
    ensures before { D.clean desk.new → D.clean desk.old }
    ensures poisons { result ≡ spec.store_failed → D.failed desk.new }
    ensures closed { D.failed desk.old
        → spec.IsClosed (λ owner cs. spec.AnswersCall owner cs call) result
        × (desk.new ≡ desk.old) }
{
    let is_other = match is_mismatch(alloc, desk, &call) {
        Ok(is_other) => is_other,
        Err(outage) => return TaskAnswer::Unavailable(outage),
    };
    if is_other {
        return TaskAnswer::Refused(Refused::Mismatch);
    }
    let TaskAsked { person, task, .. } = call;
    answer_task(alloc, desk, person, task)
}
