//! Columns of proposals, as their values. Places are counted from 0.
//!
//! `Row`: the column has another kind or isn't in its form, or there is none.
ghost use Rattle.std.specs.Prelude.{◌≡◌, IfOk, pos};
ghost use Rattle.sqlite.specs.declared.types.Value.TheVariants.{Int, Text};
ghost use Rattle.sqlite_value.specs.Order.{column};
ghost use Rattle.desk_types.specs.Words.{item_kind_text, proposal_kind_text, proposal_state_text};

use crate::ReadFault;
use crate::columns::column_of;
use desk_types::{ItemKind, ProposalKind, ProposalNumber, ProposalState};
use sqlite::Row;
use sqlite::types::Value;

/// The proposal's number in a column. `Row` also for 0 or above 999,999.
pub(crate) fn proposal_at(row: &Row, at: usize) -> Result<ProposalNumber, ReadFault>
    ensures { IfOk result (λ proposal. column row.now at ≡ Int (pos proposal)) }
{
    let number: u64 = column_of(row, at)?;
    match ProposalNumber::new(number) {
        Some(proposal) => Ok(proposal),
        None => Err(ReadFault::Row),
    }
}

/// The kind of a proposal whose word is in a column. Takes memory for the word.
pub(crate) fn proposal_kind_at(row: &Row, at: usize) -> Result<ProposalKind, ReadFault>
    ensures { IfOk result (λ kind. column row.now at ≡ Text (proposal_kind_text kind)) }
{
    let word: String = column_of(row, at)?;
    match ProposalKind::parse(word.as_bytes()) {
        Some(kind) => Ok(kind),
        None => Err(ReadFault::Row),
    }
}

/// The state of a proposal whose word is in a column. Takes memory for the word.
pub(crate) fn proposal_state_at(row: &Row, at: usize) -> Result<ProposalState, ReadFault>
    ensures { IfOk result (λ state. column row.now at ≡ Text (proposal_state_text state)) }
{
    let word: String = column_of(row, at)?;
    match ProposalState::parse(word.as_bytes()) {
        Some(state) => Ok(state),
        None => Err(ReadFault::Row),
    }
}

/// The kind of an item whose word is in a column. Takes memory for the word.
pub(crate) fn item_kind_at(row: &Row, at: usize) -> Result<ItemKind, ReadFault>
    ensures { IfOk result (λ kind. column row.now at ≡ Text (item_kind_text kind)) }
{
    let word: String = column_of(row, at)?;
    match ItemKind::parse(word.as_bytes()) {
        Some(kind) => Ok(kind),
        None => Err(ReadFault::Row),
    }
}

/// The proposal's number as an integer of SQL.
pub(crate) fn number_of(proposal: ProposalNumber) -> Value
    ensures { result ≡ Int (pos proposal) }
{
    Value::Int(proposal.value() as i64)
}
