//! SELECT: whole rows, by key or in the order of the key; and numbers of requests, by a digest.

/// Every row of the desk, by id.
pub const SELECT_DESK: &str = "SELECT id, mark, version, owner, stamp FROM desk ORDER BY id";

/// The person with a name (`?1`).
pub const SELECT_PERSON: &str = "SELECT name, role, token FROM people WHERE name = ?1";

/// The person with the digest of a token (`?1`).
pub const SELECT_PERSON_OF_TOKEN: &str = "SELECT name, role, token FROM people WHERE token = ?1";

/// Every person, by name.
pub const SELECT_PEOPLE: &str = "SELECT name, role, token FROM people ORDER BY name";

/// The call of a caller (`?1`) with a key (`?2`).
pub const SELECT_CALL: &str =
    "SELECT no, caller, key, text, reply FROM calls WHERE caller = ?1 AND key = ?2";

/// The call with a number (`?1`).
pub const SELECT_CALL_NUMBERED: &str =
    "SELECT no, caller, key, text, reply FROM calls WHERE no = ?1";

/// Every call, by number.
pub const SELECT_CALLS: &str = "SELECT no, caller, key, text, reply FROM calls ORDER BY no";

/// The request with a number (`?1`).
pub const SELECT_REQUEST: &str =
    "SELECT no, submitter, title, length, gap, file, digest, signing, state FROM requests WHERE no = ?1";

/// The numbers of the requests with the digest of a file (`?1`).
pub const SELECT_NUMBERS_OF_FILE: &str = "SELECT no FROM requests WHERE file = ?1";

/// The numbers of the requests with an image's digest (`?1`).
pub const SELECT_NUMBERS_OF_DIGEST: &str = "SELECT no FROM requests WHERE digest = ?1";

/// The numbers of the requests with the digest that a signature of an image holds (`?1`).
pub const SELECT_NUMBERS_OF_SIGNING: &str = "SELECT no FROM requests WHERE signing = ?1";

/// The certificates of a request (`?1`), by digest.
pub const SELECT_REQUEST_CERTIFICATES: &str =
    "SELECT request, digest FROM request_certificates WHERE request = ?1 ORDER BY request, digest";

/// The numbers of the requests whose image carries a certificate (`?1`).
pub const SELECT_NUMBERS_OF_CERTIFICATE: &str =
    "SELECT request FROM request_certificates WHERE digest = ?1";

/// The components of a request (`?1`), by place.
pub const SELECT_REQUEST_COMPONENTS: &str =
    "SELECT request, place, name, generation FROM request_components WHERE request = ?1 ORDER BY request, place";

/// The votes on a request (`?1`), by reviewer.
pub const SELECT_VOTES: &str =
    "SELECT request, reviewer, vote, note FROM votes WHERE request = ?1 ORDER BY request, reviewer";

/// The file that was returned for a request (`?1`).
pub const SELECT_RETURN: &str =
    "SELECT request, signer, length, file, digest FROM returns WHERE request = ?1";

/// The numbers of the requests with the digest of a returned file (`?1`).
pub const SELECT_NUMBERS_OF_RETURNED_FILE: &str = "SELECT request FROM returns WHERE file = ?1";

/// The numbers of the requests with the digest of a returned image (`?1`).
pub const SELECT_NUMBERS_OF_RETURNED_DIGEST: &str = "SELECT request FROM returns WHERE digest = ?1";

/// The entry with a kind (`?1`) and a digest (`?2`).
pub const SELECT_LISTED: &str =
    "SELECT kind, digest, body FROM listed WHERE kind = ?1 AND digest = ?2";

/// The entries of a kind (`?1`), by digest.
pub const SELECT_LISTED_OF: &str =
    "SELECT kind, digest, body FROM listed WHERE kind = ?1 ORDER BY kind, digest";

/// The row of a digest (`?1`), if it is revoked.
pub const SELECT_REVOKED_DIGEST: &str = "SELECT digest FROM revoked_digests WHERE digest = ?1";

/// Every revoked digest, by bytes.
pub const SELECT_REVOKED_DIGESTS: &str = "SELECT digest FROM revoked_digests ORDER BY digest";

/// The row of a certificate's digest (`?1`), if it is revoked.
pub const SELECT_REVOKED_CERTIFICATE: &str =
    "SELECT digest FROM revoked_certificates WHERE digest = ?1";

/// Every revoked certificate, by digest.
pub const SELECT_REVOKED_CERTIFICATES: &str =
    "SELECT digest FROM revoked_certificates ORDER BY digest";

/// The component with a name (`?1`).
pub const SELECT_COMPONENT: &str = "SELECT name, generation FROM components WHERE name = ?1";

/// Every component, by name.
pub const SELECT_COMPONENTS: &str = "SELECT name, generation FROM components ORDER BY name";

/// The proposal with a number (`?1`).
pub const SELECT_PROPOSAL: &str =
    "SELECT no, officer, kind, stamp, passed, state FROM proposals WHERE no = ?1";

/// Every proposal, by number.
pub const SELECT_PROPOSALS: &str =
    "SELECT no, officer, kind, stamp, passed, state FROM proposals ORDER BY no";

/// The items of a proposal (`?1`), by place.
pub const SELECT_PROPOSAL_ITEMS: &str =
    "SELECT proposal, place, kind, digest, name, generation FROM proposal_items WHERE proposal = ?1 ORDER BY proposal, place";
