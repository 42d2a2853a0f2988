//! UPDATE and DELETE, by key.

/// Sets the stamp (`?1`) of every row: the table has one.
pub const UPDATE_STAMP: &str = "UPDATE desk SET stamp = ?1";

/// Sets the state (`?2`) of the request with a number (`?1`).
pub const UPDATE_STATE: &str = "UPDATE requests SET state = ?2 WHERE no = ?1";

/// Sets the state (`?2`) of the proposal with a number (`?1`).
pub const UPDATE_PROPOSAL_STATE: &str = "UPDATE proposals SET state = ?2 WHERE no = ?1";

/// Sets the version of the tables (`?1`) in every row: the table has one.
pub const UPDATE_VERSION: &str = "UPDATE desk SET version = ?1";

/// Sets the generation (`?2`) of the component with a name (`?1`).
pub const UPDATE_GENERATION: &str = "UPDATE components SET generation = ?2 WHERE name = ?1";

/// Deletes the entry with a kind (`?1`) and a digest (`?2`).
pub const DELETE_LISTED: &str = "DELETE FROM listed WHERE kind = ?1 AND digest = ?2";
