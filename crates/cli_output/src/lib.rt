//! The lines that the program prints, and the exit status after them.
#![tactic(auto)]

mod buffered;
mod ending;
mod facts_lines;
mod fault;
mod file;
mod impact_lines;
mod list_lines;
mod printing;
mod range_lines;
mod telling;
mod verdict_lines;

pub use buffered::Buffered;
pub use ending::{Ending, WorkOutcome};
pub use facts_lines::print_facts;
pub use fault::Fault;
pub use file::{open_file, read_file, read_image};
pub use impact_lines::print_impact;
pub use list_lines::{MOST_BYTES, print_list};
pub use printing::{Printed, print_fault, put_fault};
pub use range_lines::print_ranges;
pub use telling::print_ending;
pub use verdict_lines::print_verdict;
