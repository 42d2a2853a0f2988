//! HTTP requests: heads, bodies, routes, checks of a head, and the values of its fields.
#![tactic(auto)]

mod ask;
mod asking;
mod bodies;
mod fault;
mod fields;
mod heads;
mod laws;
mod resource;
mod route;
mod routing;
mod tags;
mod target;
mod want;
mod wanting;

pub use ask::{BytesAsked, CommandAsked, ImageAsked, JsonAsked, KeyedCommand};
pub use asking::{command_asked, image_asked, read_asked};
pub use bodies::{BodyFault, read_digest, read_explanation, read_level, read_review, read_unlist};
pub use fault::{AskedFault, WantedFault};
pub use heads::{
    Given, Head, HeadRead, ParsedHead, head_is_one, read_body, read_head,
    what_follows_changes_nothing,
};
pub use laws::{
    no_other_path_is_found, other_paths_are_found, paths_of_lists_are_found,
    paths_of_parts_are_found, paths_of_proposals_are_found, paths_of_records_are_found,
    paths_of_requests_are_found, tags_are_read_alone,
};
pub use resource::{Methods, Resource};
pub use route::{CommandRoute, GetRoute, ImageRoute, PostRoute, Route};
pub use routing::Routes;
pub use tags::tag_asked;
pub use want::CheckedHead;
pub use wanting::check_head;
