//! Images that some entries bar by themselves.

use desk_history::WhichFile;
use desk_types::RequestNumber;

/// An image that some entries bar by themselves: the number of the call that brought it, from 1,
/// the request, and which file of the request it is.
#[derive(Clone, Copy)]
pub struct TouchedImage {
    pub call: u64,
    pub request: RequestNumber,
    pub file: WhichFile,
}
