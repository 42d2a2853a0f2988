//! INSERT: one row, a parameter for each column in the order of the table.

/// Inserts the row of the desk: id, mark, version, owner, stamp.
pub const INSERT_DESK: &str =
    "INSERT INTO desk (id, mark, version, owner, stamp) VALUES (?1, ?2, ?3, ?4, ?5)";

/// Inserts a person: name, role, token.
pub const INSERT_PERSON: &str = "INSERT INTO people (name, role, token) VALUES (?1, ?2, ?3)";

/// Inserts a call: no, caller, key, text, reply.
pub const INSERT_CALL: &str =
    "INSERT INTO calls (no, caller, key, text, reply) VALUES (?1, ?2, ?3, ?4, ?5)";

/// Inserts a request: no, submitter, title, length, gap, file, digest, signing, state.
pub const INSERT_REQUEST: &str =
    "INSERT INTO requests (no, submitter, title, length, gap, file, digest, signing, state) VALUES (?1, ?2, ?3, ?4, ?5, ?6, ?7, ?8, ?9)";

/// Inserts a certificate of a request: request, digest.
pub const INSERT_REQUEST_CERTIFICATE: &str =
    "INSERT INTO request_certificates (request, digest) VALUES (?1, ?2)";

/// Inserts a component of a request: request, place, name, generation.
pub const INSERT_REQUEST_COMPONENT: &str =
    "INSERT INTO request_components (request, place, name, generation) VALUES (?1, ?2, ?3, ?4)";

/// Inserts a vote: request, reviewer, vote, note.
pub const INSERT_VOTE: &str =
    "INSERT INTO votes (request, reviewer, vote, note) VALUES (?1, ?2, ?3, ?4)";

/// Inserts a returned file: request, signer, length, file, digest.
pub const INSERT_RETURN: &str =
    "INSERT INTO returns (request, signer, length, file, digest) VALUES (?1, ?2, ?3, ?4, ?5)";

/// Inserts a listed entry: kind, digest, body.
pub const INSERT_LISTED: &str = "INSERT INTO listed (kind, digest, body) VALUES (?1, ?2, ?3)";

/// Inserts a revoked digest: digest.
pub const INSERT_REVOKED_DIGEST: &str = "INSERT INTO revoked_digests (digest) VALUES (?1)";

/// Inserts a revoked certificate: digest.
pub const INSERT_REVOKED_CERTIFICATE: &str =
    "INSERT INTO revoked_certificates (digest) VALUES (?1)";

/// Inserts a component of the level: name, generation.
pub const INSERT_COMPONENT: &str = "INSERT INTO components (name, generation) VALUES (?1, ?2)";

/// Inserts a proposal: no, officer, kind, stamp, passed, state.
pub const INSERT_PROPOSAL: &str =
    "INSERT INTO proposals (no, officer, kind, stamp, passed, state) VALUES (?1, ?2, ?3, ?4, ?5, ?6)";

/// Inserts an item of a proposal: proposal, place, kind, digest, name, generation.
pub const INSERT_PROPOSAL_ITEM: &str =
    "INSERT INTO proposal_items (proposal, place, kind, digest, name, generation) VALUES (?1, ?2, ?3, ?4, ?5, ?6)";

/// Inserts how many calls were accepted by the first rules: id, calls.
pub const INSERT_MIGRATED: &str = "INSERT INTO migrated (id, calls) VALUES (?1, ?2)";
