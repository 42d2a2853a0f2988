//! The report of a desk: its counts, as fourteen lines of text.

mod laws;
mod text;

pub use laws::report_is_the_history;
pub use text::report;
