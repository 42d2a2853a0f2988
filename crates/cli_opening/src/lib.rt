//! A desk's file: made, opened and closed, and worked on in between.
#![tactic(auto)]

mod closing;
mod connecting;
mod desk_file;
mod ended;
mod laws;
mod left;
mod opener;
mod working;

pub use closing::close_after;
pub use connecting::CacheSize;
pub use desk_file::{FileDesk, make, open, open_or_make};
pub use ended::Ended;
pub use laws::{a_failed_close_is_a_device, closed_files_hold_the_desk};
pub use left::{Left, Rest};
pub use working::{Work, Worked, make_desk, on_desk, work_on_desk};
