//! Columns of a call's row.
ghost use Rattle.std.specs.Prelude.{◌≡◌, IfOk, pos};
ghost use Rattle.sqlite.specs.declared.types.Value.TheVariants.{Int, Text};
ghost use Rattle.sqlite_value.specs.Order.{column};

use sqlite::Row;
use sqlite::types::ValueRef;
use store_reads::ReadFault;

/// The text of a column. `Row`: it holds something else, or there is none.
pub fn text_at(row: &Row, at: usize) -> Result<&[u8], ReadFault>
    ensures { IfOk result (λ text. column row.now at ≡ Text text.now) }
{
    match row.get_ref(at) {
        Ok(ValueRef::Text(text)) => Ok(text),
        _ => Err(ReadFault::Row),
    }
}

/// The number of a column. `Row`: it holds something else, or there is none.
pub fn number_at(row: &Row, at: usize) -> Result<u64, ReadFault>
    ensures { IfOk result (λ n. column row.now at ≡ Int (pos n)) }
{
    match row.get(at) {
        Ok(number) => Ok(number),
        Err(_) => Err(ReadFault::Row),
    }
}
