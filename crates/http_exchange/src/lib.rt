//! One request of HTTP/1.1, and its response: from the bytes of the one to those of the other.
#![tactic(auto)]

mod asking;
mod intake;
mod laws;
mod living;
mod reading;
mod responding;
mod served;
mod serving;
mod tasks;

pub use intake::RequestReader;
pub use laws::{
    matched_inputs_are_about_their_tag, one_thing_is_asked, what_follows_changes_nothing,
};
pub use living::exchanges_add_events;
pub use served::{Answered, HttpFault, Said, Served};
pub use serving::serve_one;
