//! Commands given to a desk.
ghost use Rattle.std.specs.Prelude.{◌≡◌, ℕ, List, Ok};
ghost use Rattle.desk_history.specs.Calls.{History};
ghost use Rattle.desk_exports.specs.Desks.{ForEachShown};
ghost use Rattle.http_calls.specs.Answers.{IsClosed, IsTakenIfRead, Serves, store_failed};
ghost use Rattle.http_calls.specs.Given.{GivesOne, IsReadCall};

use crate::answers::TaskAnswer;
use crate::refusing::refuse;
use desk_exports::AnswersCalls;
use desk_types::{Caller, Command, Key, PersonName, call_is_formed};
use http_responses::{Outage, Refused};
use std::alloc::AllocError;

/// Answers a command of the person of this name, under a key, or refuses its body.
pub(crate) fn take<D: AnswersCalls>(
    desk: &mut D,
    name: PersonName,
    key: &Key,
    read: Result<Result<Command, Refused>, AllocError>,
) -> TaskAnswer
    ensures served { D.clean desk.new → (owner : List ℕ) (cs : History)
        → D.shows desk.old owner cs
        → Serves (D.shows desk.new owner) (D.failed desk.new) cs
        (IsTakenIfRead cs name key.now read) result }
    ensures gives { D.clean desk.new → ForEachShown (D.shows desk.old) (λ owner cs.
        GivesOne (D.shows desk.new owner) (D.failed desk.new) (D.leaves desk.new owner) cs
        (IsReadCall name key.now (λ command. read ≡ Ok command)) result) }
    ensures before { D.clean desk.new → D.clean desk.old }
    ensures poisons { result ≡ store_failed → D.failed desk.new }
    ensures closed { D.failed desk.old
        → IsClosed (λ _ cs. IsTakenIfRead cs name key.now read) result × (desk.new ≡ desk.old) }
{
    let command = match read {
        Ok(Ok(command)) => command,
        Ok(Err(refused)) => return TaskAnswer::Refused(refused),
        Err(AllocError) => return TaskAnswer::Unavailable(Outage::NoMemory),
    };
    let caller = Caller::Person(name);
    call_is_formed(&caller, key, &command);
    match desk.apply(&caller, key, &command) {
        Ok(reply) => TaskAnswer::Reply(reply),
        Err(refusal) => refuse(refusal),
    }
}
