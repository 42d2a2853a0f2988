//! Signature lists (UEFI 2.10, section 32.4.1), read and written.
#![tactic(auto)]

mod entry;
mod fault;
mod head;
mod kind;
mod laws;
mod list;
mod lists_reading;
mod packing;
mod part_writing;
mod row;
mod writing;

pub use entry::{Entries, Entry};
pub use fault::{ListsFault, PackFault};
pub use kind::Kind;
pub use laws::{
    fault_is_one, list_is_its_parts, packed_list_is_one, row_is_not_refused, row_is_one,
    row_is_spelt,
};
pub use list::SignatureList;
pub use lists_reading::lists;
pub use packing::pack;
pub use part_writing::{sha256_entry, sha256_head, x509_sha256_entry, x509_sha256_head};
pub use row::Lists;
pub use writing::{write_sha256, write_x509, write_x509_sha256};
