//! The Authenticode digest of an EFI image, and the certificates that the image carries.
#![tactic(auto)]

mod carrying;
mod entry;
mod fault;
mod hashing;
mod image_sums;
mod laws;
mod row;
mod signed_data;
mod summing;
mod walk;

pub use carrying::carried;
pub use fault::CarriedFault;
pub use hashing::digest;
pub use image_sums::Sums;
pub use laws::{
    carried_is_not_refused, carried_is_one, certificates_are_nested, fault_is_one,
    padding_is_fewest,
};
pub use summing::sums;
