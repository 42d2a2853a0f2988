//! Exports of a desk, written row by row as the store gives them.
#![tactic(auto)]

mod columns;
mod db;
mod dbx;
mod exporting;
mod fault;
mod forms;
mod gathered;
mod gathering;
mod heads;
mod level;
mod lines;
mod listed_forms;
mod shim;
mod taking;

pub use columns::{number_at, text_at};
pub use exporting::export;
