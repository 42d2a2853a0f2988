//! Definitions of the desk's decisions, for auditors to read: the meaning of a history of accepted
//! calls, the answer to each call after it, the histories that a stop may leave, and the laws of
//! these definitions.
#![tactic(auto)]

mod answer;
mod barring;
mod file_words;
mod finding;
mod form_laws;
mod impact;
mod impact_laws;
mod laws;
mod limits;
mod proposal_laws;
mod rows;
mod rules;
mod shown_person;
mod standing;
mod verdicts;
mod worked;
mod write;

pub use answer::Answer;
pub use barring::rule_of;
pub use finding::{Below, Verdict};
pub use form_laws::{
    all_rows_stand_once, answered_calls_stand, callers_are_told, level_has_no_sbat,
    lives_keep_what_was_answered, minutes_are_readable, minutes_differ, series_leave_histories,
};
pub use impact::{BarredImage, Rule, ShownImpact, WhichFile};
pub use impact_laws::{
    confirms_are_foretold, each_rule_bars, entries_bar_alone, images_are_all, images_have_requests,
    impacts_come_true, impacts_last, listed_is_allowed,
};
pub use laws::{
    allows_exactly, answers_are_kept, answers_have_histories, keys_stand_once,
    legal_histories_are_runs, listed_rows_are_listed, rows_stand_once, runs_go_on,
    series_are_legal, submitters_see_own, what_is_barred_stays_barred,
};
pub use limits::{
    MOST_CALLS, MOST_LEVEL_COMPONENTS, MOST_LISTED, MOST_PEOPLE, MOST_PROPOSALS, MOST_REQUESTS,
    MOST_REVOKED_CERTIFICATES, MOST_REVOKED_DIGESTS,
};
pub use proposal_laws::{
    explanations_change_no_row, first_rules_close_none, next_proposal_is_open, proposals_are_shown,
    proposals_close_once, proposals_stay, two_officers_put_into_force,
};
pub use rows::{
    CommandText, Entry, EntryBody, Minute, ProposalItem, ProposalItemRow, ProposalRow,
    RequestCertificateRow, RequestComponentRow, RequestRow, ReturnRow, VoteRow,
};
pub use rules::{
    confirm_by, drop_by, image_refusal, is_above, is_for, is_for_console, is_later, is_same,
    refuse_if, return_by, review_by, withdraw_by,
};
pub use shown_person::ShownPerson;
pub use standing::Standing;
pub use verdicts::{bars, lists_image, verdict_of};
pub use worked::{
    first_rules_are_answered, impacts_are_shown, imports_are_answered, keys_are_answered,
    levels_are_answered, proposals_are_answered, requests_are_shown, returns_are_answered,
    reviews_are_answered,
};
pub use write::Write;
