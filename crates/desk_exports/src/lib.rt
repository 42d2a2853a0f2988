//! What a desk shows after a history of calls: its exports (dbx, also in shim's form, db, the
//! level, the minutes), its report, and what each person can read, as definitions, worked examples
//! of the exports and the report, and the promises of a desk that answers calls.
#![tactic(auto)]

mod answering;
mod export;
mod laws;
mod octets;
mod published;
mod reading;
mod request_list;
mod shown;
mod shown_people;
mod shown_proposals;
mod tag;

pub use answering::AnswersCalls;
pub use export::Export;
pub use laws::{
    exports_are_in_order, exports_are_spelt, exports_are_their_parts, exports_are_written,
    found_is_written, lengths_come_true, lists_come_in_parts, minutes_come_in_parts, minutes_go_on,
    numbers_tell_of_changes, shim_revokes_the_same, waiting_is_written,
};
pub use octets::Octets;
pub use published::Published;
pub use reading::Reading;
pub use request_list::RequestList;
pub use shown::Shown;
pub use shown_people::ShownPeople;
pub use shown_proposals::ShownProposals;
pub use tag::proposal_tag;
