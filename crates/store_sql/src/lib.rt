//! The effect of SQL statements on the rows of a store, for any schema.
#![tactic(auto)]

mod catalog;
mod fault;
mod laws;
mod reading;
mod streaming;
mod writing;

pub use catalog::catalog_lists_one_schema;
pub use fault::StoreFault;
pub use laws::{stop_leaves_what_is_shown, what_is_made_later_fits};
pub use reading::{count, select};
pub use streaming::{Halt, TakesRow, stream};
pub use writing::{create_tables, delete, insert, update};
