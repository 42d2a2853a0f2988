//! The spans of the parts of a head.
use crate::heads::head_reading::MOST_FIELDS;
use httparse::spans::{HeaderSpan, RequestSpans};

/// The spans of the parts of a head in its bytes.
#[derive(Debug, Drop)]
pub(crate) struct HeadSpans {
    pub(crate) request: RequestSpans,
    /// As many as the head has fields, and empty ones after them.
    pub(crate) fields: [HeaderSpan; MOST_FIELDS],
}
