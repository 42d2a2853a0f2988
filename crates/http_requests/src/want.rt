//! A head, checked.

use crate::{Given, Route};

/// The route and the body's length of a checked head, with the values of its fields unchanged.
#[derive(Clone, Copy, Debug)]
pub struct CheckedHead<'b> {
    pub route: Route,
    /// The length of the body in bytes, 0 for GET.
    pub size: usize,
    /// The bytes of the target that `{no}` or `{digest}` stands for where the path has it: those
    /// between the second `/` and the third or the end; at a part of a list and at requests by a
    /// digest, between the third and the fourth or the end.
    pub part: &'b [u8],
    pub token: Option<&'b [u8]>,
    pub key: Option<&'b [u8]>,
    pub title: Option<&'b [u8]>,
    pub stamp: Option<&'b [u8]>,
    /// If-Match, whose form counts only where a command takes a precondition.
    pub if_match: Given<'b>,
}
