//! Calls that read a desk.
ghost use Rattle.std.specs.Prelude.{◌≡◌, ◌≢◌, ◌⊎◌, ℕ, List};
ghost use Rattle.desk_history.specs.Calls.{History};
ghost use Rattle.desk_exports.specs.Desks.{LeavesShown};
ghost use Rattle.http_calls.specs.Answers as spec;

use crate::answers::TaskAnswer;
use crate::bodies::read_facts;
use crate::refusing::{outage, refuse};
use desk_exports::{AnswersCalls, Reading};
use desk_types::Person;
use http_responses::Outage;
use pe_image::Pieces;
use std::alloc::{AllocError, Global};

/// The desk's verdict on the image.
pub(crate) fn judge<D: AnswersCalls>(alloc: Global, desk: &mut D, image: Pieces) -> TaskAnswer
    ensures served { D.clean desk.new → (owner : List ℕ) (cs : History)
        → D.shows desk.old owner cs
        → spec.Serves (D.shows desk.new owner) (D.failed desk.new) cs
        (spec.IsRead cs (spec.Judges cs image)) result }
    ensures stopped { D.clean desk.new
        → LeavesShown (D.shows desk.old) (D.leaves desk.new) }
    ensures before { D.clean desk.new → D.clean desk.old }
    ensures poisons { result ≡ spec.store_failed → D.failed desk.new }
    ensures closed { D.failed desk.old → spec.IsClosed (λ _ cs. spec.IsRead cs
        (spec.Judges cs image)) result × (desk.new ≡ desk.old) }
{
    let found = match read_facts(alloc, image) {
        Ok(Ok(found)) => found,
        Ok(Err(refused)) => return TaskAnswer::Refused(refused),
        Err(AllocError) => return TaskAnswer::Unavailable(Outage::NoMemory),
    };
    match desk.verdict(&found) {
        Ok(said) => TaskAnswer::Verdict(said, found),
        Err(refusal) => TaskAnswer::Unavailable(outage(refusal)),
    }
}

/// The facts of the image, whatever the desk holds.
pub(crate) fn tell(alloc: Global, image: Pieces) -> TaskAnswer
    ensures told { spec.TellsFacts image result ⊎ (result ≡ spec.no_memory) }
    ensures no_store { result ≢ spec.store_failed }
{
    match read_facts(alloc, image) {
        Ok(Ok(found)) => TaskAnswer::Facts(found),
        Ok(Err(refused)) => TaskAnswer::Refused(refused),
        Err(AllocError) => TaskAnswer::Unavailable(Outage::NoMemory),
    }
}

/// The answer to a person's read.
pub(crate) fn show<D: AnswersCalls>(desk: &mut D, person: Person, reading: Reading) -> TaskAnswer
    ensures served { D.clean desk.new → (owner : List ℕ) (cs : History)
        → D.shows desk.old owner cs
        → spec.Serves (D.shows desk.new owner) (D.failed desk.new) cs (spec.IsRead cs
        (spec.ShowsAsked owner cs person reading)) result }
    ensures stopped { D.clean desk.new
        → LeavesShown (D.shows desk.old) (D.leaves desk.new) }
    ensures before { D.clean desk.new → D.clean desk.old }
    ensures poisons { result ≡ spec.store_failed → D.failed desk.new }
    ensures closed { D.failed desk.old → spec.IsClosed (λ owner cs. spec.IsRead cs
        (spec.ShowsAsked owner cs person reading)) result × (desk.new ≡ desk.old) }
{
    match desk.read(person, reading) {
        Ok(shown) => TaskAnswer::Shown(shown),
        Err(refusal) => refuse(refusal),
    }
}
