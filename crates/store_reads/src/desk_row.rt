//! The row of the desk itself, as it reads.
ghost use Rattle.std.specs.Prelude.{◌≡◌, ◌<◌, ℕ, ℤ, List, codes, length, pos, Some, IfSome, IsTrue};
ghost use Rattle.sqlite.specs.declared.types.Value.TheVariants.{Blob, Int, Text};
ghost use Rattle.sqlite_value.specs.Order.{column};
ghost use Rattle.store_reads.specs.Own.{IsGuid, ReadsBy};
ghost use Rattle.store_reads.specs.declared.desk_row.OwnRow.{OwnRow as Own};

use base::Guid;
use sbat::Stamp;
use sqlite::Row;
use sqlite::types::ValueRef;
use store_schema::MARK;

/// What a desk's own row says: the version of the tables, the owner of the lists that it exports,
/// and the stamp of its level.
#[derive(Clone, Copy, Debug)]
pub struct OwnRow {
    pub version: i64,
    pub owner: Guid,
    pub stamp: Stamp,
}

/// The integer in a column.
fn integer_at(row: &Row, at: usize) -> Option<i64>
    ensures found { (n : ℤ) → at < length row.now → column row.now at ≡ Int n → result ≡ Some n }
    ensures read { IfSome result (λ n. column row.now at ≡ Int n) }
{
    match row.get_ref(at) {
        Ok(ValueRef::Int(number)) => Some(number),
        _ => None,
    }
}

/// The natural number in a column.
fn number_at(row: &Row, at: usize) -> Option<u64>
    ensures found { (n : ℕ) → at < length row.now → column row.now at ≡ Int (pos n)
        → result ≡ Some n }
    ensures read { IfSome result (λ n. column row.now at ≡ Int (pos n)) }
{
    match row.get_ref(at) {
        Ok(ValueRef::Int(number)) => match u64::try_from(number) {
            Ok(number) => Some(number),
            Err(_) => None,
        },
        _ => None,
    }
}

/// Whether a column has the mark.
fn has_mark(row: &Row, at: usize) -> bool
    ensures found { at < length row.now → column row.now at ≡ Text (codes "boot-desk")
        → IsTrue result }
    ensures read { IsTrue result → column row.now at ≡ Text (codes "boot-desk") }
{
    match row.get_ref(at) {
        Ok(ValueRef::Text(text)) => text == MARK.as_bytes(),
        _ => false,
    }
}

/// The GUID in a column.
fn guid_at(row: &Row, at: usize) -> Option<Guid>
    ensures found { (guid : List ℕ) → at < length row.now → IsGuid (column row.now at) guid
        → result ≡ Some guid }
    ensures read { IfSome result (IsGuid (column row.now at)) }
{
    match row.get_ref(at) {
        Ok(ValueRef::Blob(bytes)) => match <[u8; 16]>::try_from(bytes) {
            Ok(bytes) => Some(Guid::from(bytes)),
            Err(_) => None,
        },
        _ => None,
    }
}

/// What the only row says, if it reads as a desk's: the id 1, the mark, a version, an owner of 16
/// bytes, a stamp of ten digits.
pub(crate) fn own_row_in(rows: &[Row]) -> Option<OwnRow>
    ensures found { (own : Own) → ReadsBy rows.now own → result ≡ Some own }
    ensures read { IfSome result (ReadsBy rows.now) }
{
    let [row] = rows else {
        return None;
    };
    if row.column_count() != 5 {
        return None;
    }
    let id = number_at(row, 0)?;
    let version = integer_at(row, 2)?;
    let owner = guid_at(row, 3)?;
    let stamp = number_at(row, 4)?;
    let stamp = Stamp::new(stamp)?;
    if id == 1 && has_mark(row, 1) {
        Some(OwnRow {
            version,
            owner,
            stamp,
        })
    } else {
        None
    }
}
