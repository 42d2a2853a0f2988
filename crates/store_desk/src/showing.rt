//! What a person is shown of a desk's rows.
ghost use Rattle.std.specs.Prelude.{◌≡◌, IfErr, IsTrue};
ghost use Rattle.desk_exports.specs.Readings.{IsShownTo, may_refuse};
ghost use Rattle.desk_history.specs.People.{people};
ghost use Rattle.store_reads.specs.People.{IsOneOf};
ghost use Rattle.store_desk.specs.Desks.{ReadsDesk};
ghost use Rattle.store_desk.specs.Showing.{GivesDue, IsReadingRefusal, RefusesDue};

use crate::asking::Question;
use crate::desk::Desk;
use base::Refusal;
use desk_exports::{Reading, RequestList, Shown};
use desk_types::Person;
use sqlite::{Alter, Transaction};
use std::alloc::Global;
use std::marker::PhantomData;
use store_shown::shown_to;

/// What is the person shown by this reading? The person may be the one who is remembered. Requests
/// are collected into an `L`.
#[derive(Drop)]
struct AskedBy<'a, L> {
    kept_person: &'a Option<Person>,
    person: &'a Person,
    reading: Reading,
    list: PhantomData<L>,
}

impl<'a, L: RequestList + Drop> Question for AskedBy<'a, L> {
    type Answer = Result<Shown<L>, Refusal>;

    ghost tells = { λ q given owner cs. IsOneOf q.kept_person.now (people cs)
        → IsShownTo L.RequestList.holds owner cs q.person.now q.reading given };

    ghost bounds = { λ q given. IfErr given (λ refusal. IsTrue (may_refuse q.reading refusal)) };

    fn read<S: Alter>(
        &self,
        alloc: Global,
        tx: &mut Transaction<'_, S>,
    ) -> Result<Result<Shown<L>, Refusal>, Refusal> {
        match shown_to(
            alloc,
            tx,
            self.kept_person.as_ref(),
            self.person,
            self.reading,
        ) {
            Ok(given) => Ok(given),
            Err(fault) => Err(fault.refusal()),
        }
    }
}

impl<S: Alter + Drop> Desk<S> {
    /// What one transaction can read for the person: the one who is remembered, or else the row of
    /// that name, read in it too. Who is remembered is used up. Nothing changes.
    pub(crate) fn show<L: RequestList + Drop>(
        &mut self,
        person: &Person,
        reading: Reading,
    ) -> Result<Shown<L>, Refusal>
        ensures shown { GivesDue S.Store self.old self.new result (λ owner cs.
            IsShownTo L.RequestList.holds owner cs person.now reading) }
        ensures refused { RefusesDue S.Store self.old self.new result (λ owner cs.
            IsShownTo L.RequestList.holds owner cs person.now reading) }
        ensures reads { ReadsDesk S.Store (IsReadingRefusal reading) self.old self.new result }
    {
        if self.needs_reopening {
            return Err(Refusal::Reopen);
        }
        let kept_person = self.remembered.person.take();
        let asked: AskedBy<L> = AskedBy {
            kept_person: &kept_person,
            person,
            reading,
            list: PhantomData,
        };
        match self.answer_question(&asked) {
            Ok(given) => given,
            Err(failure) => Err(failure),
        }
    }
}
