//! Replies, requests, facts, proposals, impacts, people, verdicts, what waits and the number of
//! changes in JSON (RFC 8259): no space between tokens, keys in ascending order, but of what waits
//! the requests first.

mod arrays;
mod changes;
mod facts;
mod impacts;
mod in_json;
mod laws;
mod people;
mod proposals;
mod replies;
mod requests;
mod requests_text;
mod values;
mod verdicts;
mod waiting;
mod whole_proposals;

pub use changes::changes_json;
pub use facts::facts_json;
pub use impacts::impact_json;
pub use laws::each_verdict_is_said;
pub use people::{people_json, person_json};
pub use proposals::proposals_json;
pub use replies::reply_json;
pub use requests::request_json;
pub use requests_text::RequestsText;
pub use verdicts::verdict_json;
pub use waiting::waiting_json;
pub use whole_proposals::proposal_json;
