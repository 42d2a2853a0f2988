//! Answers to calls.
use base::Refusal;
use desk_types::Reply;

/// The answer to a call.
#[derive(Drop)]
pub enum Answer {
    /// It was accepted, with this reply.
    Accepted(Reply),
    /// The caller gave the same command under this key before; this is the reply of that time.
    Repeated(Reply),
    /// It was refused, and nothing changed.
    Refused(Refusal),
}
