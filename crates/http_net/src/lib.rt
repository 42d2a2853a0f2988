//! Requests over connections, one connection after another.
#![tactic(auto)]

mod allowance;
mod connection;
mod living;
mod peers;
mod reading_off;
mod served;
mod serving;
mod timed;

pub use connection::answer_connection;
pub use living::connections_add_events;
pub use reading_off::read_off;
pub use served::outcome;
pub use serving::{listen, serve};
pub use timed::{Timed, Waits};
