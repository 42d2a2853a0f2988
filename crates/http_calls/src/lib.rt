//! Calls of the desk, and the answers to them of any desk that shows a history.
#![tactic(auto)]

mod answers;
mod bodies;
mod call;
mod laws;
mod matching;
mod reading;
mod refusing;
mod serving;
mod taking;

pub use answers::TaskAnswer;
pub use call::{Task, TaskAsked};
pub use laws::{
    matched_commands_are_about_their_tag, refusals_change_nothing, repeats_match, shown_tags_stay,
    submitters_are_answered_by_own, tags_stay,
};
pub use serving::{answer, caller};
