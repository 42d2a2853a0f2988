//! SELECT count(*), which visits every row of the table.

/// The number of people.
pub const COUNT_PEOPLE: &str = "SELECT count(*) FROM people";

/// The number of calls.
pub const COUNT_CALLS: &str = "SELECT count(*) FROM calls";

/// The number of requests.
pub const COUNT_REQUESTS: &str = "SELECT count(*) FROM requests";

/// The number of requests in a state (`?1`).
pub const COUNT_REQUESTS_IN: &str = "SELECT count(*) FROM requests WHERE state = ?1";

/// The number of listed entries, of both kinds.
pub const COUNT_LISTED: &str = "SELECT count(*) FROM listed";

/// The number of listed entries of a kind (`?1`).
pub const COUNT_LISTED_OF: &str = "SELECT count(*) FROM listed WHERE kind = ?1";

/// The number of revoked digests.
pub const COUNT_REVOKED_DIGESTS: &str = "SELECT count(*) FROM revoked_digests";

/// The number of revoked certificates.
pub const COUNT_REVOKED_CERTIFICATES: &str = "SELECT count(*) FROM revoked_certificates";

/// The number of components of the level.
pub const COUNT_COMPONENTS: &str = "SELECT count(*) FROM components";

/// The number of proposals.
pub const COUNT_PROPOSALS: &str = "SELECT count(*) FROM proposals";
