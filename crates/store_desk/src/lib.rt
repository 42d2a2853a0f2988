//! A desk in a store of SQLite, and the state that any number of its lives leave to the next
//! opening.
#![tactic(auto)]

mod acting;
mod answering;
mod answers;
mod asking;
mod closing;
mod desk;
mod exports;
mod founding;
mod impacts;
mod laws;
mod living;
mod opening;
mod own_lines;
mod owned;
mod questions;
mod reading;
mod remains;
mod restarting;
mod showing;
mod shown_each;

pub use desk::Desk;
pub use desk_exports::RequestList;
pub use laws::notes_allow_a_desk;
pub use living::{calls_make_lives, openings_begin_lives};
pub use opening::found_is_shown;
pub use remains::Remains;
pub use restarting::{reopen, restart, stop};
pub use store_counts::{Counts, KindCounts, ListCounts, RequestCounts};
