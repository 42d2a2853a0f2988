//! A head.

/// What a head gives under one field's name.
#[derive(Clone, Copy, Debug, PartialEq, Eq)]
pub enum Given<'b> {
    Missing,
    /// The value of the one field of that name, without the spaces and tabs round it.
    Once(&'b [u8]),
    /// There are two such fields or more.
    Repeated,
}

/// The parts of a request's head that count. All other fields have no effect.
#[derive(Clone, Copy, Debug)]
pub struct Head<'b> {
    pub method: &'b [u8],
    /// The request target as it stands in the request line, with its query if it has one.
    pub target: &'b str,
    pub transfer_encoding: Given<'b>,
    pub content_length: Given<'b>,
    pub desk_token: Given<'b>,
    pub desk_key: Given<'b>,
    pub desk_title: Given<'b>,
    pub desk_stamp: Given<'b>,
    /// The precondition of a command (RFC 9110, section 13.1.1).
    pub if_match: Given<'b>,
}
