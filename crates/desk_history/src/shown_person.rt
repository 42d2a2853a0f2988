//! People as an officer is shown them, and everybody themselves.
use desk_types::{PersonName, Role};

/// A person, without the SHA-256 of the token.
#[derive(Debug, Drop)]
pub struct ShownPerson {
    pub name: PersonName,
    pub role: Role,
}
