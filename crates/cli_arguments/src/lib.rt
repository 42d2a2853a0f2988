//! The words of the program's command line, what they mean, and the subcommands that need no desk.
#![tactic(auto)]

mod alone;
mod calls;
mod causes;
mod given;
mod jobs;
mod line;
mod telling;
mod values;
mod words_reading;

pub use alone::{ending_after, pack_lines, tell_facts, tell_lists, tell_ranges};
pub use calls::{Calls, run, run_words};
pub use causes::{Opened, opened_by};
pub use given::{Given, given_words, words_in};
pub use jobs::{Job, job_of};
pub use line::{AuditWords, FollowWords, PersonWords, ServeWords, Words, WordsFault};
pub use telling::tell_run;
pub use values::{
    Newcomer, Place, Stop, TokenForm, Word, export_named, newcomer_from, owner_from, person_from,
    place_from, proposal_from,
};
pub use words_reading::words;
