//! The questions that a desk is asked.
ghost use Rattle.std.specs.Prelude.{◌≡◌, ⊤, filter};
ghost use Rattle.store_counts.specs.Counts.{CountTables};
ghost use Rattle.desk_history.specs.People.{has_token};
ghost use Rattle.desk_history.specs.Tables.{tables};
ghost use Rattle.store_decision_rows.specs.lists.Lists.{HoldsNoOther};
ghost use Rattle.store_reads.specs.Reads.{listed};
ghost use Rattle.desk_rules.specs.Shown.{Shows};
ghost use Rattle.desk_rules.specs.Views.{ShowsLists, keys_of};
ghost use Rattle.store_decision_rows.specs.remembered.Current.{IsCurrent};
ghost use Rattle.store_decision_rows.specs.sizes.Sizes.{AreRight};
ghost use Rattle.store_decision_rows.specs.Named.{HoldsNoRowBeyond};

use crate::asking::Question;
use base::{Digest, Refusal};
use desk_rules::{CallRef, ListView, View};
use desk_types::{Facts, Person};
use sqlite::{Alter, Transaction};
use std::alloc::Global;
use store_counts::{Counts, counts};
use store_decision_rows::{KnownSizes, Remembered, list_view, view};
use store_reads::person_of_token;

/// Who has the token of this SHA-256?
#[derive(Drop)]
pub(crate) struct WhoHas<'a> {
    pub(crate) token: &'a Digest,
}

impl<'a> Question for WhoHas<'a> {
    type Answer = Option<Person>;

    ghost tells = { λ q person owner cs.
        filter (has_token q.token.now) (tables owner cs).people ≡ listed person };

    ghost bounds = { λ _ _. ⊤ };

    fn read<S: Alter>(
        &self,
        alloc: Global,
        tx: &mut Transaction<'_, S>,
    ) -> Result<Option<Person>, Refusal> {
        match person_of_token(alloc, tx, self.token) {
            Ok(person) => Ok(person),
            Err(fault) => Err(fault.refusal()),
        }
    }
}

/// How many of everything are there?
#[derive(Drop)]
pub(crate) struct HowMany;

impl Question for HowMany {
    type Answer = Counts;

    ghost tells = { λ _ n owner cs. CountTables n (tables owner cs) };

    ghost bounds = { λ _ _. ⊤ };

    fn read<S: Alter>(
        &self,
        _alloc: Global,
        tx: &mut Transaction<'_, S>,
    ) -> Result<Counts, Refusal> {
        match counts(tx) {
            Ok(counted) => Ok(counted),
            Err(fault) => Err(fault.refusal()),
        }
    }
}

/// Which rows of the lists does a verdict on this image need?
#[derive(Drop)]
pub(crate) struct ListsFor<'a> {
    pub(crate) facts: &'a Facts,
}

impl<'a> Question for ListsFor<'a> {
    type Answer = ListView;

    ghost tells = { λ q v owner cs. ShowsLists v (tables owner cs) (keys_of q.facts.now) };

    ghost bounds = { λ q v. HoldsNoOther v (keys_of q.facts.now) };

    fn read<S: Alter>(
        &self,
        alloc: Global,
        tx: &mut Transaction<'_, S>,
    ) -> Result<ListView, Refusal> {
        match list_view(alloc, tx, self.facts) {
            Ok(view) => Ok(view),
            Err(fault) => Err(fault.refusal()),
        }
    }
}

/// Which rows does a decision on this call need, where this is remembered?
#[derive(Drop)]
pub(crate) struct RowsFor<'a> {
    pub(crate) remembered: Remembered,
    pub(crate) call: CallRef<'a>,
}

/// The rows that a decision on a call needs, and the sizes that are known since they were read.
#[derive(Drop)]
pub(crate) struct Viewed {
    pub(crate) view: View,
    pub(crate) sizes: KnownSizes,
}

impl<'a> Question for RowsFor<'a> {
    type Answer = Viewed;

    ghost tells = { λ q viewed owner cs. IsCurrent q.remembered (tables owner cs)
        → Shows viewed.view (tables owner cs) q.call × AreRight viewed.sizes (tables owner cs) };

    ghost bounds = { λ q viewed. HoldsNoRowBeyond viewed.view q.call };

    fn read<S: Alter>(
        &self,
        alloc: Global,
        tx: &mut Transaction<'_, S>,
    ) -> Result<Viewed, Refusal> {
        let mut remembered = self.remembered.without_person();
        match view(alloc, tx, &mut remembered, &self.call) {
            Ok(view) => Ok(Viewed {
                view,
                sizes: remembered.sizes,
            }),
            Err(failure) => Err(failure),
        }
    }
}
