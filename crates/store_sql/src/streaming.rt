//! Queries outside a transaction, whose rows are passed on one at a time.
ghost use Rattle.std.specs.Prelude.{◌≡◌, false, IsTrue, OnErr, OnOk};
ghost use Rattle.sqlite.specs.Given.{IsPlain};
ghost use Rattle.sqlite.specs.Held.{state};
ghost use Rattle.sqlite.specs.Listing.{understood};
ghost use Rattle.sqlite.specs.Order.{Row as Shown};
ghost use Rattle.sqlite.specs.State.{CommitsShowing, HasCleanDisk, IsUnchanged, Survives};
ghost use Rattle.sqlite.specs.Values.{bound};
ghost use Rattle.store_sql.specs.Effects.{HandsOver};
ghost use Rattle.store_sql.specs.States.{Spares};
ghost use Rattle.store_sql.specs.Streaming.{HandsFirst, SparesShown, StaysOrUndoes, StaysShown};

use sqlite::types::ValueRef;
use sqlite::{Alter, Connection, Error, Row};

/// A taker of an answer's rows, one after another.
pub trait TakesRow {
    /// Why a row isn't taken.
    type Fault;

    /// How taking a row changes the taker: the taker before, the row, the taker after.
    ghost takes: { Self → Shown → Self → Type 0 };

    /// How a row that isn't taken changes the taker, in the same order.
    ghost gives_up: { Self → Shown → Self → Type 0 };

    /// Takes the next row. After an error no more rows come.
    fn take(&mut self, row: &Row) -> Result<(), Self::Fault>
        ensures ok { OnOk result (takes self.old row.now self.new) }
        ensures err { OnErr result (gives_up self.old row.now self.new) };
}

/// Why the rows of an answer weren't passed on to its end.
#[derive(Debug, Drop)]
pub enum Halt<F> {
    /// The store failed, or refused the query.
    Store(Error),
    /// The taker didn't take a row.
    Taker(F),
}

/// Compiles the text, which shows that the connection is open. Nothing is run.
fn compile<S: Alter>(conn: &mut Connection<S>, sql: &str) -> Result<(), Error>
    ensures same { HasCleanDisk (state S.Store conn.new)
        → OnOk result (IsUnchanged (state S.Store conn.old) (state S.Store conn.new)) }
    ensures failed { HasCleanDisk (state S.Store conn.new)
        → OnErr result (StaysOrUndoes (state S.Store conn.old) (state S.Store conn.new)) }
    ensures mode { conn.old.in_transaction ≡ false → conn.new.in_transaction ≡ false }
    ensures survives { Spares S.Store conn.old conn.new }
{
    let _statement = conn.prepare(sql)?;
    Ok(())
}

/// Passes each row to the taker, on a connection that was found open.
fn hand_over<S: Alter, T: TakesRow>(
    conn: &mut Connection<S>,
    sql: &str,
    params: &[ValueRef<'_>],
    taker: &mut T,
) -> Result<(), Halt<T::Fault>>
    ensures value { HasCleanDisk (state S.Store conn.new)
        → OnOk result (HandsOver T.TakesRow.takes sql.now (bound params.now)
        (state S.Store conn.old) (state S.Store conn.new) taker.old taker.new) }
    ensures begins { HasCleanDisk (state S.Store conn.new) → IsTrue (state S.Store conn.old).is_open
        → OnErr result (HandsFirst T.TakesRow.takes T.TakesRow.gives_up sql.now
        (bound params.now) (state S.Store conn.old) taker.old taker.new) }
    ensures same { HasCleanDisk (state S.Store conn.new)
        → IsPlain (understood (state S.Store conn.old).now.schema sql.now)
        → StaysOrUndoes (state S.Store conn.old) (state S.Store conn.new) }
    ensures mode { conn.old.in_transaction ≡ false → conn.new.in_transaction ≡ false }
    ensures survives { Survives (state S.Store conn.old) (state S.Store conn.new)
        (CommitsShowing sql.now (bound params.now) (state S.Store conn.old)) }
{
    let mut rows = match conn.query(sql, params) {
        Ok(rows) => rows,
        Err(error) => return Err(Halt::Store(error)),
    };
    'rows: for _ in 0..u64::MAX {
        let next = match rows.next() {
            Ok(next) => next,
            Err(error) => return Err(Halt::Store(error)),
        };
        let Some(row) = next else {
            return Ok(());
        };
        match taker.take(row) {
            Ok(()) => {}
            Err(fault) => return Err(Halt::Taker(fault)),
        }
    }
    Err(Halt::Store(Error::InvalidQuery))
}

/// `SELECT .. FROM .. WHERE .. ORDER BY ..`: passes each row to the taker as the store gives it,
/// and keeps none. Takes no memory for the rows.
///
/// A query changes nothing, even if it ends early: the rows taken until then begin an answer.
pub fn stream<S: Alter, T: TakesRow>(
    conn: &mut Connection<S>,
    sql: &str,
    params: &[ValueRef<'_>],
    taker: &mut T,
) -> Result<(), Halt<T::Fault>>
    ensures value { HasCleanDisk (state S.Store conn.new)
        → OnOk result (HandsOver T.TakesRow.takes sql.now (bound params.now)
        (state S.Store conn.old) (state S.Store conn.new) taker.old taker.new) }
    ensures opened { HasCleanDisk (state S.Store conn.new)
        → OnOk result (IsTrue (state S.Store conn.old).is_open) }
    ensures begins { HasCleanDisk (state S.Store conn.new)
        → OnErr result (HandsFirst T.TakesRow.takes T.TakesRow.gives_up sql.now
        (bound params.now) (state S.Store conn.old) taker.old taker.new) }

    ensures same { StaysShown sql.now (state S.Store conn.old) (state S.Store conn.new) }
    ensures spares { SparesShown S.Store sql.now conn.old conn.new }
    ensures survives { Survives (state S.Store conn.old) (state S.Store conn.new)
        (CommitsShowing sql.now (bound params.now) (state S.Store conn.old)) }
{
    match compile(conn, sql) {
        Ok(()) => {}
        Err(error) => return Err(Halt::Store(error)),
    }
    hand_over(conn, sql, params, taker)
}
