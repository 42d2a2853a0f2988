//! The program's command line: its subcommands, their words, and the texts of help.
#![tactic(auto)]

mod command;
mod help;

pub use command::{desk_command, id_at};
