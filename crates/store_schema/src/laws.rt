//! The meaning of each statement over the fifteen tables, a function a table. Other tables and
//! indexes may come after the fifteen.
ghost use Rattle.std.specs.Prelude.{[], ◌∷◌, codes};
ghost use Rattle.store_sql.specs.Meanings.{CountsRows, DeletesRows, InsertsRow, SelectsRows, UpdatesRows};
ghost use Rattle.store_schema.specs.Columns.{by_first, columns_after, columns_of, names_of, values_of};
ghost use Rattle.store_schema.specs.Named.{column_named, equals, set_to};
ghost use Rattle.store_schema.specs.Tables.{desk_layout, first_layout, desk, people, calls, requests, request_certificates, request_components, votes, returns, listed, revoked_digests, revoked_certificates, components, proposals, proposal_items, migrated};

use crate::changing::{
    DELETE_LISTED, UPDATE_GENERATION, UPDATE_PROPOSAL_STATE, UPDATE_STAMP, UPDATE_STATE,
    UPDATE_VERSION,
};
use crate::counting::{
    COUNT_CALLS, COUNT_COMPONENTS, COUNT_LISTED, COUNT_LISTED_OF, COUNT_PEOPLE, COUNT_PROPOSALS,
    COUNT_REQUESTS, COUNT_REQUESTS_IN, COUNT_REVOKED_CERTIFICATES, COUNT_REVOKED_DIGESTS,
};
use crate::inserting::{
    INSERT_CALL, INSERT_COMPONENT, INSERT_DESK, INSERT_LISTED, INSERT_MIGRATED, INSERT_PERSON,
    INSERT_PROPOSAL, INSERT_PROPOSAL_ITEM, INSERT_REQUEST, INSERT_REQUEST_CERTIFICATE,
    INSERT_REQUEST_COMPONENT, INSERT_RETURN, INSERT_REVOKED_CERTIFICATE, INSERT_REVOKED_DIGEST,
    INSERT_VOTE,
};
use crate::selecting::{
    SELECT_CALL, SELECT_CALL_NUMBERED, SELECT_CALLS, SELECT_COMPONENT, SELECT_COMPONENTS,
    SELECT_DESK, SELECT_LISTED, SELECT_LISTED_OF, SELECT_NUMBERS_OF_CERTIFICATE,
    SELECT_NUMBERS_OF_DIGEST, SELECT_NUMBERS_OF_FILE, SELECT_NUMBERS_OF_RETURNED_DIGEST,
    SELECT_NUMBERS_OF_RETURNED_FILE, SELECT_NUMBERS_OF_SIGNING, SELECT_PEOPLE, SELECT_PERSON,
    SELECT_PERSON_OF_TOKEN, SELECT_PROPOSAL, SELECT_PROPOSAL_ITEMS, SELECT_PROPOSALS,
    SELECT_REQUEST, SELECT_REQUEST_CERTIFICATES, SELECT_REQUEST_COMPONENTS, SELECT_RETURN,
    SELECT_REVOKED_CERTIFICATE, SELECT_REVOKED_CERTIFICATES, SELECT_REVOKED_DIGEST,
    SELECT_REVOKED_DIGESTS, SELECT_VOTES,
};

/// The row of the desk: written whole, its stamp and its version set, read, also where the tables
/// are those of version 1.
pub fn desk_statements()
    ensures inserted { InsertsRow desk_layout 0 desk INSERT_DESK.now (values_of desk) }
    ensures stamped { UpdatesRows desk_layout 0 desk UPDATE_STAMP.now []
        (set_to desk (codes "stamp") 0) }
    ensures migrated { UpdatesRows desk_layout 0 desk UPDATE_VERSION.now []
        (set_to desk (codes "version") 0) }
    ensures shown { SelectsRows desk_layout 0 desk SELECT_DESK.now [] (by_first 1 desk)
        (columns_after 1 desk) (names_of desk) }
    ensures shown_first { SelectsRows first_layout 0 desk SELECT_DESK.now [] (by_first 1 desk)
        (columns_after 1 desk) (names_of desk) }
{}

/// People: put in, found by name and by token, listed by name, counted.
pub fn people_statements()
    ensures inserted { InsertsRow desk_layout 1 people INSERT_PERSON.now (values_of people) }
    ensures named { SelectsRows desk_layout 1 people SELECT_PERSON.now
        (equals people (codes "name") 0 ∷ []) [] (columns_of people) (names_of people) }
    ensures by_token { SelectsRows desk_layout 1 people SELECT_PERSON_OF_TOKEN.now
        (equals people (codes "token") 0 ∷ []) [] (columns_of people) (names_of people) }
    ensures all { SelectsRows desk_layout 1 people SELECT_PEOPLE.now [] (by_first 1 people)
        (columns_after 1 people) (names_of people) }
    ensures counted { CountsRows desk_layout 1 people COUNT_PEOPLE.now [] (codes "count(*)" ∷ []) }
{}

/// Calls: put in, found by caller and key and by number, listed by number, counted.
pub fn calls_statements()
    ensures inserted { InsertsRow desk_layout 2 calls INSERT_CALL.now (values_of calls) }
    ensures of_key { SelectsRows desk_layout 2 calls SELECT_CALL.now
        (equals calls (codes "caller") 0 ∷ equals calls (codes "key") 1 ∷ []) [] (columns_of calls)
        (names_of calls) }
    ensures numbered { SelectsRows desk_layout 2 calls SELECT_CALL_NUMBERED.now
        (equals calls (codes "no") 0 ∷ []) [] (columns_of calls) (names_of calls) }
    ensures all { SelectsRows desk_layout 2 calls SELECT_CALLS.now [] (by_first 1 calls)
        (columns_after 1 calls) (names_of calls) }
    ensures counted { CountsRows desk_layout 2 calls COUNT_CALLS.now [] (codes "count(*)" ∷ []) }
{}

/// Requests: put in, given a state, found by number, their numbers found by a digest, counted.
pub fn requests_statements()
    ensures inserted { InsertsRow desk_layout 3 requests INSERT_REQUEST.now (values_of requests) }
    ensures decided { UpdatesRows desk_layout 3 requests UPDATE_STATE.now
        (equals requests (codes "no") 0 ∷ []) (set_to requests (codes "state") 1) }
    ensures numbered { SelectsRows desk_layout 3 requests SELECT_REQUEST.now
        (equals requests (codes "no") 0 ∷ []) [] (columns_of requests) (names_of requests) }
    ensures of_file { SelectsRows desk_layout 3 requests SELECT_NUMBERS_OF_FILE.now
        (equals requests (codes "file") 0 ∷ []) [] (column_named requests (codes "no") ∷ [])
        (codes "no" ∷ []) }
    ensures of_digest { SelectsRows desk_layout 3 requests SELECT_NUMBERS_OF_DIGEST.now
        (equals requests (codes "digest") 0 ∷ []) [] (column_named requests (codes "no") ∷ [])
        (codes "no" ∷ []) }
    ensures of_signing { SelectsRows desk_layout 3 requests SELECT_NUMBERS_OF_SIGNING.now
        (equals requests (codes "signing") 0 ∷ []) [] (column_named requests (codes "no") ∷ [])
        (codes "no" ∷ []) }
    ensures counted { CountsRows desk_layout 3 requests COUNT_REQUESTS.now [] (codes "count(*)"
        ∷ []) }
    ensures counted_in { CountsRows desk_layout 3 requests COUNT_REQUESTS_IN.now
        (equals requests (codes "state") 0 ∷ []) (codes "count(*)" ∷ []) }
{}

/// Certificates of a request: put in, listed by digest; the numbers of the requests with one.
pub fn request_certificates_statements()
    ensures inserted { InsertsRow desk_layout 4 request_certificates INSERT_REQUEST_CERTIFICATE.now
        (values_of request_certificates) }
    ensures of_request { SelectsRows desk_layout 4 request_certificates
        SELECT_REQUEST_CERTIFICATES.now (equals request_certificates (codes "request") 0 ∷ [])
        (by_first 2 request_certificates) (columns_after 2 request_certificates)
        (names_of request_certificates) }
    ensures of_certificate { SelectsRows desk_layout 4 request_certificates
        SELECT_NUMBERS_OF_CERTIFICATE.now (equals request_certificates (codes "digest") 0 ∷ []) []
        (column_named request_certificates (codes "request") ∷ []) (codes "request" ∷ []) }
{}

/// Components of a request: put in, listed by place.
pub fn request_components_statements()
    ensures inserted { InsertsRow desk_layout 5 request_components INSERT_REQUEST_COMPONENT.now
        (values_of request_components) }
    ensures of_request { SelectsRows desk_layout 5 request_components SELECT_REQUEST_COMPONENTS.now
        (equals request_components (codes "request") 0 ∷ []) (by_first 2 request_components)
        (columns_after 2 request_components) (names_of request_components) }
{}

/// Votes: put in, listed by reviewer.
pub fn votes_statements()
    ensures inserted { InsertsRow desk_layout 6 votes INSERT_VOTE.now (values_of votes) }
    ensures of_request { SelectsRows desk_layout 6 votes SELECT_VOTES.now
        (equals votes (codes "request") 0 ∷ []) (by_first 2 votes) (columns_after 2 votes)
        (names_of votes) }
{}

/// Returned files: put in, found by their request, the numbers of their requests found by a digest.
pub fn returns_statements()
    ensures inserted { InsertsRow desk_layout 7 returns INSERT_RETURN.now (values_of returns) }
    ensures of_request { SelectsRows desk_layout 7 returns SELECT_RETURN.now
        (equals returns (codes "request") 0 ∷ []) [] (columns_of returns) (names_of returns) }
    ensures of_file { SelectsRows desk_layout 7 returns SELECT_NUMBERS_OF_RETURNED_FILE.now
        (equals returns (codes "file") 0 ∷ []) [] (column_named returns (codes "request") ∷ [])
        (codes "request" ∷ []) }
    ensures of_digest { SelectsRows desk_layout 7 returns SELECT_NUMBERS_OF_RETURNED_DIGEST.now
        (equals returns (codes "digest") 0 ∷ []) [] (column_named returns (codes "request") ∷ [])
        (codes "request" ∷ []) }
{}

/// Listed entries: put in, taken out, found by kind and digest, listed by digest for one kind,
/// counted.
pub fn listed_statements()
    ensures inserted { InsertsRow desk_layout 8 listed INSERT_LISTED.now (values_of listed) }
    ensures unlisted { DeletesRows desk_layout 8 listed DELETE_LISTED.now
        (equals listed (codes "kind") 0 ∷ equals listed (codes "digest") 1 ∷ []) }
    ensures keyed { SelectsRows desk_layout 8 listed SELECT_LISTED.now
        (equals listed (codes "kind") 0 ∷ equals listed (codes "digest") 1 ∷ []) []
        (columns_of listed) (names_of listed) }
    ensures of_kind { SelectsRows desk_layout 8 listed SELECT_LISTED_OF.now
        (equals listed (codes "kind") 0 ∷ []) (by_first 2 listed) (columns_after 2 listed)
        (names_of listed) }
    ensures counted { CountsRows desk_layout 8 listed COUNT_LISTED.now [] (codes "count(*)" ∷ []) }
    ensures counted_of_kind { CountsRows desk_layout 8 listed COUNT_LISTED_OF.now
        (equals listed (codes "kind") 0 ∷ []) (codes "count(*)" ∷ []) }
{}

/// Revoked digests: put in, found, listed in order, counted.
pub fn revoked_digests_statements()
    ensures inserted { InsertsRow desk_layout 9 revoked_digests INSERT_REVOKED_DIGEST.now
        (values_of revoked_digests) }
    ensures found { SelectsRows desk_layout 9 revoked_digests SELECT_REVOKED_DIGEST.now
        (equals revoked_digests (codes "digest") 0 ∷ []) [] (columns_of revoked_digests)
        (names_of revoked_digests) }
    ensures all { SelectsRows desk_layout 9 revoked_digests SELECT_REVOKED_DIGESTS.now []
        (by_first 1 revoked_digests) (columns_after 1 revoked_digests) (names_of revoked_digests) }
    ensures counted { CountsRows desk_layout 9 revoked_digests COUNT_REVOKED_DIGESTS.now []
        (codes "count(*)" ∷ []) }
{}

/// Revoked certificates: put in, found, listed in order, counted.
pub fn revoked_certificates_statements()
    ensures inserted { InsertsRow desk_layout 10 revoked_certificates
        INSERT_REVOKED_CERTIFICATE.now (values_of revoked_certificates) }
    ensures found { SelectsRows desk_layout 10 revoked_certificates SELECT_REVOKED_CERTIFICATE.now
        (equals revoked_certificates (codes "digest") 0 ∷ []) [] (columns_of revoked_certificates)
        (names_of revoked_certificates) }
    ensures all { SelectsRows desk_layout 10 revoked_certificates SELECT_REVOKED_CERTIFICATES.now []
        (by_first 1 revoked_certificates) (columns_after 1 revoked_certificates)
        (names_of revoked_certificates) }
    ensures counted { CountsRows desk_layout 10 revoked_certificates COUNT_REVOKED_CERTIFICATES.now
        [] (codes "count(*)" ∷ []) }
{}

/// Components of the level: put in, raised, found by name, listed by name, counted.
pub fn components_statements()
    ensures inserted { InsertsRow desk_layout 11 components INSERT_COMPONENT.now
        (values_of components) }
    ensures raised { UpdatesRows desk_layout 11 components UPDATE_GENERATION.now
        (equals components (codes "name") 0 ∷ []) (set_to components (codes "generation") 1) }
    ensures named { SelectsRows desk_layout 11 components SELECT_COMPONENT.now
        (equals components (codes "name") 0 ∷ []) [] (columns_of components) (names_of components) }
    ensures all { SelectsRows desk_layout 11 components SELECT_COMPONENTS.now []
        (by_first 1 components) (columns_after 1 components) (names_of components) }
    ensures counted { CountsRows desk_layout 11 components COUNT_COMPONENTS.now []
        (codes "count(*)" ∷ []) }
{}

/// Proposals: put in, given a state, found by number, listed by number, counted.
pub fn proposals_statements()
    ensures inserted { InsertsRow desk_layout 12 proposals INSERT_PROPOSAL.now
        (values_of proposals) }
    ensures closed { UpdatesRows desk_layout 12 proposals UPDATE_PROPOSAL_STATE.now
        (equals proposals (codes "no") 0 ∷ []) (set_to proposals (codes "state") 1) }
    ensures numbered { SelectsRows desk_layout 12 proposals SELECT_PROPOSAL.now
        (equals proposals (codes "no") 0 ∷ []) [] (columns_of proposals) (names_of proposals) }
    ensures all { SelectsRows desk_layout 12 proposals SELECT_PROPOSALS.now []
        (by_first 1 proposals) (columns_after 1 proposals) (names_of proposals) }
    ensures counted { CountsRows desk_layout 12 proposals COUNT_PROPOSALS.now [] (codes "count(*)"
        ∷ []) }
{}

/// Items of a proposal: put in, listed by place.
pub fn proposal_items_statements()
    ensures inserted { InsertsRow desk_layout 13 proposal_items INSERT_PROPOSAL_ITEM.now
        (values_of proposal_items) }
    ensures of_proposal { SelectsRows desk_layout 13 proposal_items SELECT_PROPOSAL_ITEMS.now
        (equals proposal_items (codes "proposal") 0 ∷ []) (by_first 2 proposal_items)
        (columns_after 2 proposal_items) (names_of proposal_items) }
{}

/// How many calls were accepted by the first rules: put in.
pub fn migrated_statements()
    ensures { InsertsRow desk_layout 14 migrated INSERT_MIGRATED.now (values_of migrated) }
{}
