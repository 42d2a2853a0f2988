//! The listed and revoked entries and the components of the level that an image's facts or a
//! command name, by keyed statements inside a transaction.

mod finding;
mod gathering;
mod keys;
mod naming;
mod reading;
mod viewing;

pub use naming::list_view;
pub(crate) use viewing::lists_asked;
