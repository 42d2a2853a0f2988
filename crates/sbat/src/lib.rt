//! SBAT: the components of an image, and the level that it is checked against (shim's SBAT.md).
#![tactic(auto)]

mod component;
mod component_list;
mod digits;
mod fault;
mod field;
mod generation;
mod image;
mod laws;
mod level;
mod level_reading;
mod level_writing;
mod name;
mod row;
mod stamp;
mod text;

pub use component::Component;
pub use component_list::Components;
pub use digits::{are_digits, decimal};
pub use fault::SbatFault;
pub use generation::Generation;
pub use image::components;
pub use laws::{greatest_counts, level_is_its_lines, level_reads_back};
pub use level::{Level, LevelIter};
pub use level_reading::read_level;
pub use level_writing::{level_head, level_row};
pub use name::{ComponentName, NameFault};
pub use stamp::Stamp;
pub use text::rows;
