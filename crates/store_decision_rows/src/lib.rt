//! The rows that a decision on a call needs: by the call's own keys, with the sizes of tables.
#![tactic(auto)]

mod keyed;
mod lists;
mod loading;
mod pushing;
mod remembered;
mod sizes;
mod sizing;
mod viewing;

pub use lists::list_view;
pub use remembered::Remembered;
pub use sizes::{KnownSizes, may_put};
pub use viewing::{view, view_to_confirm};
