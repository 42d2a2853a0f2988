//! Desks: made, opened, and released.
ghost use Rattle.std.specs.Prelude.{◌≡◌, ◌≢◌, ◌⊎◌, ℕ, List, [], length, Err, false, true};
ghost use Rattle.std.specs.Prelude.{IfErr, IfOk, IsErrOf, IsTrue, OnOk};
ghost use Rattle.sqlite.specs.Held.{state};
ghost use Rattle.sqlite.specs.State.{HasCleanDisk, Survives};
ghost use Rattle.desk_history.specs.Calls.{History};
ghost use Rattle.desk_history.specs.Formed.{IsHistory};
ghost use Rattle.store_schema.specs.Names.{takes_a_desk_name};
ghost use Rattle.store_schema.specs.Tables.{no_schema};
ghost use Rattle.store_sql.specs.States.{Spares};
ghost use Rattle.desk_history.specs.Tables.{tables};
ghost use Rattle.store_decision_rows.specs.lists.Lists.{HoldsNoOther};
ghost use Rattle.desk_history.specs.Called.{called};
ghost use Rattle.desk_history.specs.Runs.{is_accepted};
ghost use Rattle.desk_rules.specs.Shown.{Shows};
ghost use Rattle.desk_rules.specs.Views.{ShowsLists, keys_of};
ghost use Rattle.store_decision_rows.specs.Named.{HoldsNoRowBeyond};
ghost use Rattle.store_desk.specs.Acts.{IsNamed};
ghost use Rattle.store_desk.specs.Desks.{CommitsOnlyAccepted, ForEachShown, IsAnswered};
ghost use Rattle.store_desk.specs.Desks.{IsCallRefusal, KeepsDesk, MayStop, ReadsDesk, Refuses};
ghost use Rattle.store_desk.specs.Desks.{Replies, ShowsDesk};
ghost use Rattle.store_desk.specs.Founding.{Founded, HasFoundedBeside};
ghost use Rattle.store_desk.specs.Headline.{Recovers};
ghost use Rattle.store_desk.specs.Reopening.{FindsADesk};
ghost use Rattle.store_schema.specs.rows.Histories.{LeavesHistory, ShowsFirst, ShowsHistory};
ghost use Rattle.store_reads.specs.Failures.{IsFailure};
ghost use Rattle.store_migration.specs.Migrations.{KeepsShown};
ghost use Rattle.store_desk.specs.Steps.{Brings, FindsKnown, FindsNone, FindsOther, IsReadRefusal};

use crate::acting::{result_of, run};
use crate::founding::{found_at_once, names_are_free};
use crate::owned::open_expected;
use crate::questions::{ListsFor, RowsFor};
use base::{Guid, Refusal};
use desk_history::Answer;
use desk_rules::{CallRef, ListView, View};
use desk_types::{Caller, Command, Facts, Key, Reply, call_is_formed};
use sbat::Stamp;
use sqlite::{Alter, Connection};
use std::alloc::Global;
use store_decision_rows::Remembered;
use store_sql::stop_leaves_what_is_shown;

/// A desk in a store. It has the connection, the owner of each entry that it exports, and what it
/// remembers between calls: the level's stamp, the sizes of its tables that it has counted, and the
/// person whom `person_of` found, for the next call.
#[derive(Drop)]
pub struct Desk<S: Alter> {
    pub(crate) alloc: Global,
    pub(crate) conn: Connection<S>,
    pub(crate) owner: Guid,
    pub(crate) remembered: Remembered,
    pub(crate) needs_reopening: bool,
}

impl<S: Alter + Drop> Desk<S> {
    /// Makes a desk without calls, in one transaction: its fifteen tables, and its own row with the
    /// owner of each entry that it exports. The connection must be outside a transaction
    /// (`is_autocommit`); a refusal returns it. Other tables of the store keep their rows, where
    /// their schema `AllowsDesk` (`beside`). Takes memory.
    ///
    /// `Exists`: a table, an index or a view of the store has a name of the desk's tables, whatever
    /// the case of ASCII letters. `NoMemory`: memory was refused, and nothing was committed.
    /// `Store`: the store failed, and committed nothing or everything.
    pub fn create(
        alloc: Global,
        mut conn: Connection<S>,
        owner: &Guid,
    ) -> Result<Desk<S>, (Refusal, Connection<S>)>
        requires outside { conn.in_transaction ≡ false }
        ensures ok { IfOk result (λ desk. HasCleanDisk (state S.Store desk.conn)
            → (state S.Store conn).now.schema ≡ no_schema
            → ShowsDesk S.Store desk owner.now []) }
        ensures beside { IfOk result (λ desk. HasCleanDisk (state S.Store desk.conn)
            → HasFoundedBeside (state S.Store conn) (state S.Store desk.conn) owner.now) }
        ensures own { IfOk result (λ desk. desk.owner ≡ owner.now) }
        ensures usable { IfOk result (λ desk. desk.needs_reopening ≡ false) }
        ensures free { OnOk result
            (takes_a_desk_name (state S.Store conn).now.schema ≡ false) }
        ensures taken { IfErr result (λ e. e.0 ≡ Refusal.Exists
            → IsTrue (takes_a_desk_name (state S.Store conn).now.schema) × (e.1 ≡ conn)) }
        ensures kept { IfErr result (λ e. HasCleanDisk (state S.Store e.1) → e.0 ≢ Refusal.Store
            → KeepsShown (state S.Store conn) (state S.Store e.1)) }
        ensures refused { IfErr result (λ e. e.0 ≢ Refusal.Store → Spares S.Store conn e.1) }
        ensures stopped { IfOk result (λ desk.
            Survives (state S.Store conn) (state S.Store desk.conn)
            (Founded (state S.Store conn) owner.now)) }
        ensures failed { IfErr result (λ e. Survives (state S.Store conn) (state S.Store e.1)
            (Founded (state S.Store conn) owner.now)) }
        ensures outside { IfErr result (λ e. e.1.in_transaction ≡ false) }
        ensures named { IfErr result (λ e. (e.0 ≡ Refusal.Exists) ⊎ IsFailure e.0) }
    {
        if !names_are_free(&conn) {
            return Err((Refusal::Exists, conn));
        }
        match found_at_once(&mut conn, owner) {
            Ok(()) => {
                stop_leaves_what_is_shown(&conn);
                Ok(Desk {
                    alloc,
                    conn,
                    owner: *owner,
                    remembered: Remembered::of_stamp(Stamp::original()),
                    needs_reopening: false,
                })
            }
            Err(refusal) => Err((refusal, conn)),
        }
    }

    /// Opens the desk that the store holds, by the desk's own row. A desk of version 1 becomes one
    /// of version 2 with the same calls and rows, by one commit, the last call; one of version 2
    /// doesn't change. Whatever stops the desk's earlier lives met, and whichever version they
    /// left, the desk answers for a history that they may leave: it holds each call that was
    /// answered Ok, with its reply, and bars each image that was barred when a call was answered.
    /// The connection must be outside a transaction (`is_autocommit`); a refusal returns it. Takes
    /// memory.
    ///
    /// `NotADesk`: the store has no table `desk` whose only row reads as a desk's, with an owner of
    /// 16 bytes and a stamp of ten digits; or its desk is of version 1, and a table, an index or a
    /// view has one of the three names that version 2 adds. `Version`: its desk is of a version
    /// other than 1 and 2. `NoMemory`: memory was refused. After any of these nothing was
    /// committed. `Store`: the store failed; it committed nothing, or, for a desk of version 1, all
    /// of version 2.
    pub fn open(alloc: Global, conn: Connection<S>) -> Result<Desk<S>, (Refusal, Connection<S>)>
        requires outside { conn.in_transaction ≡ false }
        ensures ok { IfOk result (λ desk. HasCleanDisk (state S.Store desk.conn)
            → (owner : List ℕ) (cs : History) → IsHistory cs
            → ShowsHistory (state S.Store conn) owner cs
            → LeavesHistory (state S.Store conn) owner cs
            → ShowsDesk S.Store desk owner cs) }
        ensures usable { IfOk result (λ desk. desk.needs_reopening ≡ false) }
        ensures migrated { IfOk result (λ desk. HasCleanDisk (state S.Store desk.conn)
            → (owner : List ℕ) (cs : History) → IsHistory cs
            → ShowsFirst (state S.Store conn) owner cs
            → ShowsDesk S.Store desk owner cs) }
        ensures read { IfOk result (λ desk. HasCleanDisk (state S.Store desk.conn)
            → FindsKnown S.Store conn) }
        ensures other { IfErr result (λ e. HasCleanDisk (state S.Store e.1) → e.0 ≡ Refusal.Version
            → FindsOther S.Store conn) }
        ensures unread { IfErr result (λ e. HasCleanDisk (state S.Store e.1)
            → e.0 ≡ Refusal.NotADesk
            → FindsNone S.Store conn) }
        ensures known { IfErr result (λ e. HasCleanDisk (state S.Store e.1)
            → (owner : List ℕ) (cs : History) → length owner ≡ 16 → IsHistory cs
            → ShowsHistory (state S.Store conn) owner cs
            → IsFailure e.0 × ShowsHistory (state S.Store e.1) owner cs) }
        ensures known_first { IfErr result (λ e. HasCleanDisk (state S.Store e.1)
            → (owner : List ℕ) (cs : History) → length owner ≡ 16 → IsHistory cs
            → ShowsFirst (state S.Store conn) owner cs
            → IsFailure e.0 × (e.0 ≢ Refusal.Store → ShowsFirst (state S.Store e.1) owner cs)) }
        ensures lives { IfOk result (λ desk. HasCleanDisk (state S.Store desk.conn)
            → Recovers S.Store conn desk) }
        ensures found { IfErr result (λ e. HasCleanDisk (state S.Store e.1)
            → FindsADesk S.Store conn e.0) }
        ensures stopped { IfOk result (λ desk. Survives (state S.Store conn)
            (state S.Store desk.conn) (Brings (state S.Store conn))) }
        ensures failed { IfErr result (λ e. Survives (state S.Store conn) (state S.Store e.1)
            (Brings (state S.Store conn))) }
        ensures refused { IfErr result (λ e. e.0 ≢ Refusal.Store → Spares S.Store conn e.1) }
        ensures spares { IfOk result (λ desk. (owner : List ℕ) (cs : History)
            → ShowsHistory (state S.Store conn) owner cs → Spares S.Store conn desk.conn) }
        ensures spared { IfErr result (λ e. (owner : List ℕ) (cs : History)
            → ShowsHistory (state S.Store conn) owner cs → Spares S.Store conn e.1) }
        ensures outside { IfErr result (λ e. e.1.in_transaction ≡ false) }
        ensures named { IfErr result (λ e. (e.0 ≡ Refusal.Version) ⊎ IsReadRefusal e.0) }
    {
        match open_expected(alloc, conn, None) {
            Ok(desk) => Ok(desk),
            Err((refusal, refused)) => Err((refusal, refused)),
        }
    }

    /// Answers the call, in one transaction whose commit is the last step: an accepted call's rows,
    /// and its minute with the reply, are stored before it is answered. A repeated key gets its
    /// earlier reply again, and a refusal by the rules is an answer; both change nothing. Takes
    /// memory.
    ///
    /// `NoMemory`: memory was refused, and nothing was stored. `Store`: the store failed, or isn't
    /// as a desk left it; the call was stored or it wasn't. `Reopen`: an earlier call answered
    /// `Store`; nothing is done.
    pub fn answer(
        &mut self,
        caller: &Caller,
        key: &Key,
        command: &Command,
    ) -> Result<Answer, Refusal>
        ensures ok { HasCleanDisk (state S.Store self.new.conn) → IfOk result
            (IsAnswered S.Store self.old self.new (called caller.now key.now command.now)) }
        ensures failed { HasCleanDisk (state S.Store self.new.conn) → IfErr result (λ e.
            e ≢ Refusal.Store → KeepsDesk S.Store self.old self.new) }
        ensures stopped { MayStop S.Store self.old self.new
            (called caller.now key.now command.now) }
        ensures spares { CommitsOnlyAccepted S.Store self.old self.new
            (called caller.now key.now command.now) }
        ensures unwritten { IfErr result (λ e. e ≢ Refusal.Store
            → Spares S.Store self.old.conn self.new.conn) }
        ensures idle { IfOk result (λ given. is_accepted given ≡ false
            → Spares S.Store self.old.conn self.new.conn) }
        ensures clean { HasCleanDisk (state S.Store self.new.conn)
            → HasCleanDisk (state S.Store self.old.conn) }
        ensures poisons { IsErrOf result Refusal.Store → self.new.needs_reopening ≡ true }
        ensures steady { result ≢ Err Refusal.Store
            → self.new.needs_reopening ≡ self.old.needs_reopening }
        ensures closed { self.old.needs_reopening ≡ true
            → (result ≡ Err Refusal.Reopen) × (self.new ≡ self.old) }
        ensures named { self.old.needs_reopening ≡ false → IfErr result IsFailure }
        ensures ruled { IfOk result IsNamed }
    {
        if self.needs_reopening {
            return Err(Refusal::Reopen);
        }
        call_is_formed(caller, key, command);
        let remembered = self.remembered.take();
        let call = CallRef {
            caller,
            key,
            command,
        };
        match run(self.alloc, &mut self.conn, remembered, &call) {
            Ok(acted) => {
                stop_leaves_what_is_shown(&self.conn);
                self.remembered = acted.remembered;
                Ok(acted.answer)
            }
            Err(refusal) => {
                self.needs_reopening = refusal == Refusal::Store;
                Err(refusal)
            }
        }
    }

    /// The reply to the call, as `answer` gives it, whether it was accepted or is a repeat. Takes
    /// memory.
    ///
    /// A refusal by the rules changes nothing. `NoMemory`, `Store`, `Reopen`: as for `answer`.
    pub fn apply(&mut self, caller: &Caller, key: &Key, command: &Command) -> Result<Reply, Refusal>
        ensures ok { HasCleanDisk (state S.Store self.new.conn) → IfOk result
            (Replies S.Store self.old self.new (called caller.now key.now command.now)) }
        ensures refused { HasCleanDisk (state S.Store self.new.conn) → IfErr result
            (Refuses S.Store self.old self.new (called caller.now key.now command.now)) }
        ensures stopped { MayStop S.Store self.old self.new
            (called caller.now key.now command.now) }
        ensures spares { CommitsOnlyAccepted S.Store self.old self.new
            (called caller.now key.now command.now) }
        ensures unwritten { IfErr result (λ e. e ≢ Refusal.Store
            → Spares S.Store self.old.conn self.new.conn) }
        ensures clean { HasCleanDisk (state S.Store self.new.conn)
            → HasCleanDisk (state S.Store self.old.conn) }
        ensures poisons { IsErrOf result Refusal.Store → self.new.needs_reopening ≡ true }
        ensures steady { result ≢ Err Refusal.Store
            → self.new.needs_reopening ≡ self.old.needs_reopening }
        ensures closed { self.old.needs_reopening ≡ true
            → (result ≡ Err Refusal.Reopen) × (self.new ≡ self.old) }
        ensures named { self.old.needs_reopening ≡ false → IfErr result IsCallRefusal }
    {
        match self.answer(caller, key, command) {
            Ok(answer) => result_of(answer),
            Err(refusal) => Err(refusal),
        }
    }

    /// The rows for a decision on the call, and no others. Nothing changes. Takes memory.
    ///
    /// `NoMemory`: memory was refused. `Store`: the store failed, or isn't as a desk left it.
    /// `Reopen`: an earlier call answered `Store`.
    pub fn view(&mut self, caller: &Caller, key: &Key, command: &Command) -> Result<View, Refusal>
        ensures shown { HasCleanDisk (state S.Store self.new.conn) → IfOk result (λ v.
            ForEachShown S.Store self.old (λ owner cs.
            Shows v (tables owner cs) (called caller.now key.now command.now))) }
        ensures only { IfOk result (λ v. HoldsNoRowBeyond v
            (called caller.now key.now command.now)) }
        ensures reads { ReadsDesk S.Store IsFailure self.old self.new result }
    {
        let question = RowsFor {
            remembered: self.remembered.without_person(),
            call: CallRef {
                caller,
                key,
                command,
            },
        };
        match self.answer_question(&question) {
            Ok(viewed) => {
                self.remembered.sizes = viewed.sizes;
                Ok(viewed.view)
            }
            Err(failure) => Err(failure),
        }
    }

    /// The rows for a verdict on the image, and no others. Nothing changes. Takes memory.
    ///
    /// `NoMemory`: memory was refused. `Store`: the store failed, or isn't as a desk left it.
    /// `Reopen`: an earlier call answered `Store`.
    pub fn list_view(&mut self, facts: &Facts) -> Result<ListView, Refusal>
        ensures shown { HasCleanDisk (state S.Store self.new.conn) → IfOk result (λ v.
            ForEachShown S.Store self.old (λ owner cs.
            ShowsLists v (tables owner cs) (keys_of facts.now))) }
        ensures only { IfOk result (λ v. HoldsNoOther v (keys_of facts.now)) }
        ensures reads { ReadsDesk S.Store IsFailure self.old self.new result }
    {
        self.answer_question(&ListsFor { facts })
    }

    /// Returns the connection, in whatever state it is.
    pub fn release(self) -> Connection<S>
        ensures { result ≡ self.conn }
    {
        let Desk { conn, .. } = self;
        conn
    }
}
