//! Proposals with all of their items, read from a desk's tables inside a transaction.
#![tactic(auto)]

mod comparing;
mod laws;
mod listing;
mod naming;
mod numbered;
mod reading;

pub use laws::{items_stand_once, proposals_are_listable, stamps_are_above_none};
pub use listing::proposals;
pub use numbered::proposals_after;
pub use reading::proposal_of;
