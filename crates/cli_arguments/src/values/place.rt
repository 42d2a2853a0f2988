//! The address to listen at, and the count of connections.
ghost use Rattle.std.specs.Prelude.{◌≡◌};
ghost use Rattle.cli_arguments.specs.values.Numbers.{place_of};

use crate::values::numbers::{count, port};
use crate::values::stop::{Stop, Word};

/// The port where connections are accepted, and how many.
#[derive(Clone, Copy, Debug, PartialEq, Eq)]
pub struct Place {
    /// The port, 1 to 65,535.
    pub port: u16,
    /// The count of connections, 1 to 1,000,000.
    pub count: u32,
}

/// The place that the words spell, in decimal digits without a sign. Leading zeros are allowed. The
/// port is checked first.
pub fn place_from(port_word: &str, count_word: &str) -> Result<Place, Stop>
    ensures { result ≡ place_of port_word.now count_word.now }
{
    let Some(port) = port(port_word) else {
        return Err(Stop::Word(Word::Port));
    };
    let Some(count) = count(count_word) else {
        return Err(Stop::Word(Word::Count));
    };
    Ok(Place { port, count })
}
