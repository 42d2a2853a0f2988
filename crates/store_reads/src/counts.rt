//! Counts of rows. A count visits every row of its table.
ghost use Rattle.std.specs.Prelude.{◌≡◌, [], ◌∷◌, MatchOption};
ghost use Rattle.sqlite.specs.Values.{bound};
ghost use Rattle.sqlite.specs.declared.types.Value.TheVariants.{Text};
ghost use Rattle.store_reads.specs.Counting.{count_params, count_text, counted};
ghost use Rattle.store_reads.specs.Reads.{IsCounted, ReadsTables};
ghost use Rattle.store_sql.specs.States.{DoesInside, CommitsNothing, Spares, StaysInside};

use crate::ReadFault;
use desk_types::{ListedKind, State};
use sqlite::types::ValueRef;
use sqlite::{Alter, Transaction, params};
use store_schema::{
    COUNT_CALLS, COUNT_COMPONENTS, COUNT_LISTED, COUNT_LISTED_OF, COUNT_PEOPLE, COUNT_PROPOSALS,
    COUNT_REQUESTS, COUNT_REQUESTS_IN, COUNT_REVOKED_CERTIFICATES, COUNT_REVOKED_DIGESTS,
};
use store_sql::count as count_rows;

/// The greatest integer of SQL, at which counts stop.
const MOST: u64 = 9_223_372_036_854_775_807;

/// A count of a desk.
#[derive(Clone, Copy)]
pub enum Counted {
    /// All people.
    People,
    /// All accepted calls.
    Calls,
    /// All requests.
    Requests,
    /// The requests in a state.
    RequestsIn(State),
    /// All listed entries, of both kinds.
    Listed,
    /// The listed entries of a kind.
    ListedOf(ListedKind),
    /// The revoked digests of images.
    RevokedDigests,
    /// The revoked certificates.
    RevokedCertificates,
    /// The components of the level.
    Components,
    /// All proposals.
    Proposals,
}

/// The text of the count's statement.
fn text_of(what: Counted) -> &'static str
    ensures { result.now ≡ count_text what }
{
    match what {
        Counted::People => COUNT_PEOPLE,
        Counted::Calls => COUNT_CALLS,
        Counted::Requests => COUNT_REQUESTS,
        Counted::RequestsIn(_) => COUNT_REQUESTS_IN,
        Counted::Listed => COUNT_LISTED,
        Counted::ListedOf(_) => COUNT_LISTED_OF,
        Counted::RevokedDigests => COUNT_REVOKED_DIGESTS,
        Counted::RevokedCertificates => COUNT_REVOKED_CERTIFICATES,
        Counted::Components => COUNT_COMPONENTS,
        Counted::Proposals => COUNT_PROPOSALS,
    }
}

/// The word that is the text's parameter, if it has one.
fn word_of(what: Counted) -> Option<&'static str>
    ensures { MatchOption result (count_params what ≡ [])
        (λ word. count_params what ≡ Text word.now ∷ []) }
{
    match what {
        Counted::RequestsIn(state) => Some(state.text()),
        Counted::ListedOf(kind) => Some(kind.text()),
        Counted::People => None,
        Counted::Calls => None,
        Counted::Requests => None,
        Counted::Listed => None,
        Counted::RevokedDigests => None,
        Counted::RevokedCertificates => None,
        Counted::Components => None,
        Counted::Proposals => None,
    }
}

/// The count of a text. `Store`: more rows than SQL counts.
fn count_of<S: Alter>(
    tx: &mut Transaction<'_, S>,
    sql: &str,
    params: &[ValueRef<'_>],
) -> Result<u64, ReadFault>
    ensures same_reference { tx.new.conn.ghost_name ≡ tx.old.conn.ghost_name }
    ensures value { DoesInside S.Store tx.old.conn.now tx.new.conn.now result
        (λ n. IsCounted sql.now (bound params.now) n) }
    ensures inside { StaysInside S.Store tx.old.conn.now tx.new.conn.now result }
    ensures kept { CommitsNothing S.Store tx.old.conn.now tx.new.conn.now }
    ensures survives { Spares S.Store tx.old.conn.now tx.new.conn.now }
{
    let counted = count_rows(tx, sql, params)?;
    if counted >= MOST {
        return Err(ReadFault::Store);
    }
    Ok(counted)
}

/// The count of these rows. It visits every row of the table.
///
/// `Store`: more rows than SQL counts, or the store failed. `NoMemory`: memory was refused to the
/// store.
pub fn count<S: Alter>(tx: &mut Transaction<'_, S>, what: Counted) -> Result<u64, ReadFault>
    ensures same_reference { tx.new.conn.ghost_name ≡ tx.old.conn.ghost_name }
    ensures value { DoesInside S.Store tx.old.conn.now tx.new.conn.now result
        (λ n. ReadsTables (λ t. n ≡ counted what t)) }
    ensures inside { StaysInside S.Store tx.old.conn.now tx.new.conn.now result }
    ensures kept { CommitsNothing S.Store tx.old.conn.now tx.new.conn.now }
    ensures survives { Spares S.Store tx.old.conn.now tx.new.conn.now }
{
    let sql = text_of(what);
    match word_of(what) {
        Some(word) => count_of(tx, sql, params![word]),
        None => count_of(tx, sql, &[]),
    }
}
