//! A law of the crate's definitions.
ghost use Rattle.store_desk.specs.Founding.{NotesAllowADesk};

/// A desk can be made beside a table that somebody else made: `beside` of `Desk::create` speaks of
/// such a store.
pub fn notes_allow_a_desk()
    ensures { NotesAllowADesk }
{}
