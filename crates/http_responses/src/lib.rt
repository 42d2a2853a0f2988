//! The responses of the desk over HTTP/1.1, to the byte, and the status of each refusal.
#![tactic(auto)]

mod content;
mod heads;
mod json;
mod outage;
mod refused;
mod refused_texts;
mod responses;
mod status;

pub use content::Content;
pub use json::{
    RequestsText, changes_json, each_verdict_is_said, facts_json, impact_json, people_json,
    person_json, proposal_json, proposals_json, reply_json, request_json, verdict_json,
    waiting_json,
};
pub use outage::{Outage, outage_response};
pub use refused::Refused;
pub use refused_texts::refused_json;
pub use responses::{refused_response, response};
pub use status::Status;
