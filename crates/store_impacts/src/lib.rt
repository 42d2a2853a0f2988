//! The images of a desk that a Confirm of a proposal would bar, found in its store: by one pass
//! over its calls, and then by their own keys.
#![tactic(auto)]

mod barring;
mod laws;
mod passed;
mod passing;
mod reader;
mod touched_image;

pub use barring::barred_images;
pub use laws::{images_are_brought, untouched_bars_none};
pub use passing::touched_images;
pub use reader::refusal_to;
pub use touched_image::TouchedImage;
