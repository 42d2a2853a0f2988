//! Counts of a desk (people, accepted calls, requests by state, listed and revoked entries), and
//! its report.
#![tactic(auto)]

mod counting;
mod laws;
mod numbers;
mod reports;

pub use counting::counts;
pub use laws::tables_count_their_history;
pub use numbers::{Counts, KindCounts, ListCounts, RequestCounts};
pub use reports::{report, report_is_the_history};
