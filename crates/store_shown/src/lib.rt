//! A desk's requests, proposals, people and minutes as a person may see them, read inside a
//! transaction.
#![tactic(auto)]

mod all_people;
mod changes;
mod choice;
mod listing;
mod making;
mod minute_lines;
mod officer;
mod parts;
mod proposed;
mod reader;
mod readings;
mod searching;
mod showing;
mod waiting;
mod whole_proposal;

pub use minute_lines::line_numbered;
pub use officer::{is_officer, officer_of};
pub use readings::shown_to;
