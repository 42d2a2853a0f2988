//! Rows out of the fifteen tables of a desk, inside a transaction.
#![tactic(auto)]

mod call_texts;
mod calls;
mod columns;
mod counts;
mod desk_row;
mod digest_numbers;
mod fault;
mod from_row;
mod list_rows;
mod lists;
mod own;
mod people;
mod proposal_columns;
mod proposal_head;
mod proposal_items;
mod proposals;
mod reading;
mod request_rows;
mod requests;

pub use call_texts::{CallTexts, ColumnText};
pub use calls::{call_numbered, call_of};
pub use counts::{Counted, count};
pub use desk_row::OwnRow;
pub use digest_numbers::{DigestColumn, numbers_with};
pub use fault::ReadFault;
pub use from_row::FromRow;
pub use lists::{component_named, entry_of, revoked_of};
pub use own::own_row;
pub use people::{kept_named, people_all, person_named, person_of_token};
pub use proposal_head::ProposalHead;
pub use proposals::{head_numbered, heads_all, items_of};
pub use requests::{certificates_of, components_of, request_numbered, return_of, votes_of};
