//! Lines of minutes, read one after another: a desk in a store compares them with its own, or
//! follows them by the second rules.
#![tactic(auto)]

mod applying;
mod auditing;
mod comparing;
mod following;
mod lines;

pub use auditing::{AuditFault, at_line, follow_rest};
pub use comparing::{Compared, compare};
pub use following::{FollowFault, follow, read_line};
pub use lines::LineWatch;
