//! The statements of a desk over its fifteen tables, and their meanings there.
#![tactic(auto)]

mod changing;
mod counting;
mod creating;
mod inserting;
mod laws;
mod names;
mod rows;
mod selecting;
mod versions;

pub use changing::{
    DELETE_LISTED, UPDATE_GENERATION, UPDATE_PROPOSAL_STATE, UPDATE_STAMP, UPDATE_STATE,
    UPDATE_VERSION,
};
pub use counting::{
    COUNT_CALLS, COUNT_COMPONENTS, COUNT_LISTED, COUNT_LISTED_OF, COUNT_PEOPLE, COUNT_PROPOSALS,
    COUNT_REQUESTS, COUNT_REQUESTS_IN, COUNT_REVOKED_CERTIFICATES, COUNT_REVOKED_DIGESTS,
};
pub use creating::{CREATE_ADDED_TABLES, CREATE_TABLES, make, make_added};
pub use inserting::{
    INSERT_CALL, INSERT_COMPONENT, INSERT_DESK, INSERT_LISTED, INSERT_MIGRATED, INSERT_PERSON,
    INSERT_PROPOSAL, INSERT_PROPOSAL_ITEM, INSERT_REQUEST, INSERT_REQUEST_CERTIFICATE,
    INSERT_REQUEST_COMPONENT, INSERT_RETURN, INSERT_REVOKED_CERTIFICATE, INSERT_REVOKED_DIGEST,
    INSERT_VOTE,
};
pub use laws::{
    calls_statements, components_statements, desk_statements, listed_statements,
    migrated_statements, people_statements, proposal_items_statements, proposals_statements,
    request_certificates_statements, request_components_statements, requests_statements,
    returns_statements, revoked_certificates_statements, revoked_digests_statements,
    votes_statements,
};
pub use names::{takes_a_desk_name, takes_an_added_name};
pub use rows::{first_tables_are_rows, rows_have_their_columns, worked_tables_are_rows};
pub use selecting::{
    SELECT_CALL, SELECT_CALL_NUMBERED, SELECT_CALLS, SELECT_COMPONENT, SELECT_COMPONENTS,
    SELECT_DESK, SELECT_LISTED, SELECT_LISTED_OF, SELECT_NUMBERS_OF_CERTIFICATE,
    SELECT_NUMBERS_OF_DIGEST, SELECT_NUMBERS_OF_FILE, SELECT_NUMBERS_OF_RETURNED_DIGEST,
    SELECT_NUMBERS_OF_RETURNED_FILE, SELECT_NUMBERS_OF_SIGNING, SELECT_PEOPLE, SELECT_PERSON,
    SELECT_PERSON_OF_TOKEN, SELECT_PROPOSAL, SELECT_PROPOSAL_ITEMS, SELECT_PROPOSALS,
    SELECT_REQUEST, SELECT_REQUEST_CERTIFICATES, SELECT_REQUEST_COMPONENTS, SELECT_RETURN,
    SELECT_REVOKED_CERTIFICATE, SELECT_REVOKED_CERTIFICATES, SELECT_REVOKED_DIGEST,
    SELECT_REVOKED_DIGESTS, SELECT_VOTES,
};
pub use versions::{FIRST_VERSION, MARK, VERSION};
