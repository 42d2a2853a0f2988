//! Answers to calls.
use desk_exports::Shown;
use desk_history::Verdict;
use desk_types::{Facts, Reply};
use http_responses::{Outage, Refused, RequestsText};

/// What the desk answers to a call.
#[derive(Drop)]
pub enum TaskAnswer {
    /// The command was accepted, now or under the same key before.
    Reply(Reply),
    /// What the person asked to read. A list of requests is its text.
    Shown(Shown<RequestsText>),
    /// On the image of these facts.
    Verdict(Verdict, Facts),
    /// Of an image.
    Facts(Facts),
    /// With the place that the refusal tells, if it tells one.
    Refused(Refused),
    /// The desk can't answer.
    Unavailable(Outage),
}
