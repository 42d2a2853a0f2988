//! Calls, by caller and key, and by number.
ghost use Rattle.std.specs.Prelude.{◌≡◌, ◌==◌, All, IfOk, filter, map, pos};
ghost use Rattle.sqlite.specs.declared.types.Value.TheVariants.{Int, Text};
ghost use Rattle.sqlite_value.specs.Order.{column};
ghost use Rattle.desk_types.specs.Callers.{caller_name};
ghost use Rattle.desk_types.specs.ReplyTexts.{reply_text_of};
ghost use Rattle.desk_history.specs.Formed.{IsReadable};
ghost use Rattle.desk_history.specs.Runs.{has_key};
ghost use Rattle.store_reads.specs.CallColumns.{call_columns, texts_of};
ghost use Rattle.store_reads.specs.Reads.{ReadsTables, listed};
ghost use Rattle.store_sql.specs.States.{DoesInside, CommitsNothing, Spares, StaysInside};
ghost use Rattle.desk_history.specs.declared.rows.Minute.{Minute as Told};

use crate::ReadFault;
use crate::call_texts::{CallTexts, ColumnText};
use crate::columns::column_of;
use crate::from_row::FromRow;
use crate::reading::row_of;
use desk_history::{CommandText, Minute};
use desk_types::{Caller, Key, Reply, TextFault};
use sqlite::types::Value;
use sqlite::{Alter, Row, Transaction, params};
use std::alloc::Global;
use store_schema::{SELECT_CALL, SELECT_CALL_NUMBERED};

/// The text in a column. Takes memory for it.
fn text_at(row: &Row, at: usize) -> Result<ColumnText, ReadFault>
    ensures { IfOk result (λ text. column row.now at ≡ Text text) }
{
    let text: String = column_of(row, at)?;
    Ok(ColumnText::new(text))
}

/// The key in a column. Takes memory for it. `Row`: the text isn't a key.
fn key_at(alloc: Global, row: &Row, at: usize) -> Result<Key, ReadFault>
    ensures { IfOk result (λ key. column row.now at ≡ Text key) }
{
    let text: String = column_of(row, at)?;
    match Key::parse(alloc, text.as_bytes()) {
        Ok(key) => Ok(key),
        Err(TextFault::NoMemory) => Err(ReadFault::NoMemory),
        Err(TextFault::Form) => Err(ReadFault::Row),
    }
}

/// The text of a command in a column. Takes memory for it.
fn command_at(row: &Row, at: usize) -> Result<CommandText, ReadFault>
    ensures { IfOk result (λ text. column row.now at ≡ Text text) }
{
    let text: String = column_of(row, at)?;
    Ok(CommandText::new(text))
}

impl FromRow for CallTexts {
    ghost shown = { call_columns };

    fn from_row(alloc: Global, row: &Row) -> Result<CallTexts, ReadFault> {
        if row.column_count() != 5 {
            return Err(ReadFault::Row);
        }
        let number = column_of(row, 0)?;
        let caller = text_at(row, 1)?;
        let key = key_at(alloc, row, 2)?;
        let text = command_at(row, 3)?;
        let reply = text_at(row, 4)?;
        Ok(CallTexts {
            number,
            caller,
            key,
            text,
            reply,
        })
    }
}

/// The caller of a name. `Row`: the name isn't a caller's.
fn caller_of(alloc: Global, name: &[u8]) -> Result<Caller, ReadFault>
    ensures { IfOk result (λ caller. (m : Told) → IsReadable m → name.now ≡ caller_name m.caller
        → caller ≡ m.caller) }
{
    match Caller::parse(alloc, name) {
        Ok(caller) => Ok(caller),
        Err(TextFault::NoMemory) => Err(ReadFault::NoMemory),
        Err(TextFault::Form) => Err(ReadFault::Row),
    }
}

/// The reply of a text. `Row`: the text isn't a reply's.
fn reply_of(alloc: Global, text: &[u8]) -> Result<Reply, ReadFault>
    ensures { IfOk result (λ reply. (m : Told) → IsReadable m → text.now ≡ reply_text_of m.reply
        → reply ≡ m.reply) }
{
    match Reply::parse(alloc, text) {
        Ok(reply) => Ok(reply),
        Err(TextFault::NoMemory) => Err(ReadFault::NoMemory),
        Err(TextFault::Form) => Err(ReadFault::Row),
    }
}

/// The minute of these texts. `Row`: the name isn't a caller's, or the reply's text not a reply's.
fn minute_of(alloc: Global, texts: CallTexts) -> Result<Minute, ReadFault>
    ensures { IfOk result (λ minute. (m : Told) → IsReadable m → texts ≡ texts_of m → minute ≡ m) }
{
    let caller = caller_of(alloc, texts.caller.as_bytes())?;
    let reply = reply_of(alloc, texts.reply.as_bytes())?;
    Ok(Minute {
        number: texts.number,
        caller,
        key: texts.key,
        text: texts.text,
        reply,
    })
}

/// The call of a caller's name with a key, if there is one. Takes memory for the row.
pub fn call_of<S: Alter>(
    alloc: Global,
    tx: &mut Transaction<'_, S>,
    caller: &str,
    key: &Key,
) -> Result<Option<Minute>, ReadFault>
    ensures same_reference { tx.new.conn.ghost_name ≡ tx.old.conn.ghost_name }
    ensures value { DoesInside S.Store tx.old.conn.now tx.new.conn.now result
        (λ minute. ReadsTables (λ t. All IsReadable t.calls
        → filter (has_key caller.now key.now) t.calls ≡ listed minute)) }
    ensures inside { StaysInside S.Store tx.old.conn.now tx.new.conn.now result }
    ensures kept { CommitsNothing S.Store tx.old.conn.now tx.new.conn.now }
    ensures survives { Spares S.Store tx.old.conn.now tx.new.conn.now }
{
    let found: Option<CallTexts> = row_of(alloc, tx, SELECT_CALL, params![caller, key.as_str()])?;
    let Some(texts) = found else {
        return Ok(None);
    };
    let minute = minute_of(alloc, texts)?;
    Ok(Some(minute))
}

/// The number of a call as an integer of SQL. `Store`: it is above 2^63 - 1, the greatest of those.
fn call_key(number: u64) -> Result<Value, ReadFault>
    ensures { IfOk result (λ key. key ≡ Int (pos number)) }
{
    match i64::try_from(number) {
        Ok(number) => Ok(Value::Int(number)),
        Err(_) => Err(ReadFault::Store),
    }
}

/// The call of a number, if there is one, as its texts: nothing is parsed but the key. Takes memory
/// for the row.
///
/// `Store`: the number is above 2^63 - 1, or the store failed.
pub fn call_numbered<S: Alter>(
    alloc: Global,
    tx: &mut Transaction<'_, S>,
    number: u64,
) -> Result<Option<CallTexts>, ReadFault>
    ensures same_reference { tx.new.conn.ghost_name ≡ tx.old.conn.ghost_name }
    ensures value { DoesInside S.Store tx.old.conn.now tx.new.conn.now result
        (λ texts. ReadsTables (λ t. map texts_of (filter (λ m. number == m.number) t.calls)
        ≡ listed texts)) }
    ensures inside { StaysInside S.Store tx.old.conn.now tx.new.conn.now result }
    ensures kept { CommitsNothing S.Store tx.old.conn.now tx.new.conn.now }
    ensures survives { Spares S.Store tx.old.conn.now tx.new.conn.now }
{
    let key = call_key(number)?;
    let texts = row_of(alloc, tx, SELECT_CALL_NUMBERED, params![&key])?;
    Ok(texts)
}
