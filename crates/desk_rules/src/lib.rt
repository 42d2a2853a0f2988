//! Decisions of the desk over rows of its tables: the answer to a call with the rows that it
//! writes, and the verdict on an image.
#![tactic(auto)]

mod call_ref;
mod deciding;
mod decisions;
mod entries;
mod first;
mod foreseeing;
mod laws;
mod list_view;
mod room;
mod rows;
mod view;

pub use call_ref::CallRef;
pub use deciding::decide;
pub use entries::Entries;
pub use first::decide_first;
pub use foreseeing::{Foreseen, foresee};
pub use laws::whole_tables_show;
pub use list_view::{ListView, verdict};
pub use room::count;
pub use view::{Changes, LimitedTable, Sizes, View};
