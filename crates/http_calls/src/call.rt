//! Calls of the desk: a person, and a task.
use base::Digest;
use desk_exports::{Octets, Reading};
use desk_types::{Command, Key, Person};
use http_requests::{BytesAsked, ImageAsked};
use pe_image::Pieces;

/// A call of the desk: the caller, the tag that the caller sent, if any, and the task.
#[derive(Drop)]
pub struct TaskAsked {
    pub person: Person,
    /// The tag that what the command is about must have (If-Match; RFC 9110, section 13.1.1).
    pub tag: Option<Digest>,
    pub task: Task,
}

/// The task of a person's call. A command has the key under which the person gives it.
#[derive(Drop)]
pub enum Task {
    /// Reads this.
    Read(Reading),
    /// A request with an image.
    Image(ImageAsked, Pieces),
    /// A command whose parts are all known.
    Command(Key, Command),
    /// The command of these bytes, in a format of its own.
    Bytes(Key, BytesAsked, Octets),
}
