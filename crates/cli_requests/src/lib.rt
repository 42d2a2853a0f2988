//! Requests to the desk in a file.
#![tactic(auto)]

mod living;
mod requests;

pub use living::requests_make_lives;
pub use requests::{answer_from, serve_from};
