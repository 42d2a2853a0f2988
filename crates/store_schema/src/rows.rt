//! The fifteen tables of a desk as rows of SQL: definitions and laws.

mod laws;

pub use laws::{first_tables_are_rows, rows_have_their_columns, worked_tables_are_rows};
