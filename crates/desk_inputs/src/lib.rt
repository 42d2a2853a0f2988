//! Inputs of the desk, read and checked: facts of images, tokens of people, imports of revocations
//! (room `imports`).
#![tactic(auto)]

mod collecting;
mod fault;
mod given_token;
mod hashing;
mod imports;
mod part;
mod token;

pub use collecting::facts;
pub use fault::FactsFault;
pub use given_token::read_token_digest;
pub use imports::{ImportFault, import_csv, import_dbx, import_is_one, import_level, tbs_is_read};
pub use token::{is_token, read_token, token_digest};
