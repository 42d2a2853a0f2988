//! The bytes of HTTP/1.x requests: the head, its parts, and a body of a known length.

mod begun;
mod body_reading;
mod head;
mod head_parts;
mod head_reading;
mod head_spans;
mod laws;
mod parsed_head;

pub use begun::HeadRead;
pub use body_reading::read_body;
pub use head::{Given, Head};
pub use head_reading::read_head;
pub use laws::{head_is_one, what_follows_changes_nothing};
pub use parsed_head::ParsedHead;
