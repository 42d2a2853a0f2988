//! Numbers as integers of SQL.
ghost use Rattle.std.specs.Prelude.{◌≡◌, ◌<◌, IfOk, OnErr, pos};
ghost use Rattle.sqlite.specs.declared.types.Value.TheVariants.{Int};

use sqlite::types::Value;
use store_sql::StoreFault;

/// The number as an integer of SQL; `Store` above 2^63 - 1, the greatest of those.
pub(crate) fn integer_value(number: u64) -> Result<Value, StoreFault>
    ensures value { IfOk result (λ value. value ≡ Int (pos number)) }
    ensures only { OnErr result (9223372036854775807 < number) }
{
    match i64::try_from(number) {
        Ok(number) => Ok(Value::Int(number)),
        Err(_) => Err(StoreFault::Store),
    }
}
