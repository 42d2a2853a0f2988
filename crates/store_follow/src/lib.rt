//! A desk in a store that follows minutes: those of its own history are compared, and the others
//! followed.
#![tactic(auto)]

mod living;
mod restarting;
mod running;

pub use living::{openings_recover_runs, refused_runs_make_lives, runs_make_lives};
pub use restarting::restart_after_run;
pub use running::follow;
pub use store_audit::Followed;
pub use store_minutes::{AuditFault, LineWatch};
