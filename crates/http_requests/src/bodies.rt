//! The JSON bodies of requests (RFC 8259, as `serde_json` reads it): exactly the named keys, each
//! value in its form.

mod fault;
mod members;
mod reading;
mod values;

pub use fault::BodyFault;
pub use reading::{read_digest, read_explanation, read_level, read_review, read_unlist};
