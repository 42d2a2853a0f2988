//! The values of a subcommand's words, or the first word that is malformed.

mod export;
mod newcomer;
mod numbers;
mod owner;
mod place;
mod proposal;
mod stop;
mod token;

pub(crate) use export::asked_export;
pub use export::export_named;
pub use newcomer::{Newcomer, newcomer_from};
pub use owner::owner_from;
pub use place::{Place, place_from};
pub use proposal::proposal_from;
pub use stop::{Stop, Word};
pub use token::{TokenForm, person_from};
