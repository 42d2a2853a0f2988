//! People as they are shown.
ghost use Rattle.std.specs.Prelude.{◌≡◌, List};
ghost use Rattle.desk_history.specs.declared.shown_person.ShownPerson.{ShownPerson};

use desk_history::ShownPerson;
use std::marker::Model;

/// People as an officer is shown them, in their order. A contract sees the list of them.
#[derive(Debug, Drop)]
pub struct ShownPeople {
    people: Vec<ShownPerson>,
}

impl Model for ShownPeople {
    ghost Value = { List ShownPerson };

    ghost view = { λ s. s.people.items };
}

impl ShownPeople {
    /// These people.
    pub fn new(people: Vec<ShownPerson>) -> ShownPeople
        ensures { result ≡ people.items }
    {
        ShownPeople { people }
    }

    /// The people.
    pub fn as_slice(&self) -> &[ShownPerson]
        ensures { result.now ≡ self.now }
    {
        &self.people
    }
}
