//! Minutes of a desk, read back: a line of minutes, and the histories whose minutes some bytes are.
#![tactic(auto)]

mod fields;
mod laws;
mod reading;
mod replies;

pub use laws::{
    beginnings_follow, exports_grow, growth_is_written, lines_differ, minutes_tell_exports,
    minutes_tell_history,
};
pub use reading::{MinuteRead, read_minute};
pub use replies::is_same_reply;
