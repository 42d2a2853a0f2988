//! What an open desk remembers between calls: the level's stamp, the sizes that are known, and a
//! person.
ghost use Rattle.std.specs.Prelude.{◌≡◌, None};
ghost use Rattle.store_decision_rows.specs.remembered.Current as spec;
ghost use Rattle.store_decision_rows.specs.remembered.Steps as steps;
ghost use Rattle.store_decision_rows.specs.sizes.Sizes.{IsUnknown};

use crate::KnownSizes;
use desk_history::Write;
use desk_types::{Command, Person};
use sbat::Stamp;

/// The level's stamp, the sizes of the counted tables that are known, and the person who was looked
/// up for the next call.
#[derive(Drop)]
pub struct Remembered {
    /// The level's stamp.
    pub stamp: Stamp,
    /// The sizes.
    pub sizes: KnownSizes,
    /// The person, if there is one.
    pub person: Option<Person>,
}

/// The stamp after a write.
fn stamp_after(stamp: Stamp, write: &Write) -> Stamp
    ensures { result ≡ steps.stamp_after stamp write.now }
{
    match write {
        Write::Stamp(next) => *next,
        Write::Person(_)
        | Write::Call(_)
        | Write::Request(_)
        | Write::RequestCertificate(_)
        | Write::RequestComponent(_)
        | Write::Vote(_)
        | Write::State(_)
        | Write::Return(_)
        | Write::List(_)
        | Write::Unlist(_)
        | Write::Revoke(_)
        | Write::Component(_)
        | Write::Generation(_)
        | Write::Propose(_)
        | Write::ProposalState(_) => stamp,
    }
}

impl Remembered {
    /// This stamp, with no size known and nobody looked up.
    pub fn of_stamp(stamp: Stamp) -> Remembered
        ensures told { result.stamp ≡ stamp }
        ensures unknown { IsUnknown result.sizes }
        ensures nobody { result.person ≡ None }
    {
        Remembered {
            stamp,
            sizes: KnownSizes::unknown(),
            person: None,
        }
    }

    /// The same, with nobody looked up.
    pub fn without_person(&self) -> Remembered
        ensures { result ≡ record self.now { person = None } }
    {
        Remembered {
            stamp: self.stamp,
            sizes: self.sizes,
            person: None,
        }
    }

    /// All of it, for one call: the person is moved out.
    pub fn take(&mut self) -> Remembered
        ensures taken { result ≡ self.old }
        ensures left { self.new ≡ record self.old { person = None } }
    {
        Remembered {
            stamp: self.stamp,
            sizes: self.sizes,
            person: self.person.take(),
        }
    }

    /// The stamp after these writes: that of the last one that writes a stamp.
    fn next_stamp(&self, writes: &[Write]) -> Stamp
        ensures { result ≡ steps.last_stamp self.now.stamp writes.now }
    {
        writes
            .iter()
            .fold(self.stamp, |stamp, write| stamp_after(stamp, write))
    }

    /// The stamp and the sizes after a command that either rules accept, from those before it and
    /// the command's writes: current if those were, and no size is lost. Nobody is looked up. It
    /// looks at writes, never at rows.
    pub fn after(&self, command: &Command, writes: &[Write]) -> Remembered
        ensures { spec.StaysCurrent self.now command.now writes.now result }
    {
        Remembered {
            stamp: self.next_stamp(writes),
            sizes: self.sizes.after(command, writes),
            person: None,
        }
    }
}
