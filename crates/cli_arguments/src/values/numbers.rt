//! Numbers among the words of a command line.
ghost use Rattle.std.specs.Prelude.{◌≡◌, ◌-◌, ◌<◌, ◌^◌, min, true};
ghost use Rattle.std.specs.Char.{is_ascii_digit};
ghost use Rattle.std.specs.List.{list_all};
ghost use Rattle.sbat.specs.Fields.{decimal_of};
ghost use Rattle.cli_arguments.specs.values.Numbers as spec;

use sbat::are_digits;

/// The greatest port.
const MOST_PORT: u32 = 65_535;

/// The most connections that are served.
const MOST_COUNT: u32 = 1_000_000;

/// The number that decimal digits spell, at most `most`.
fn decimal_up_to(digits: &[u8], most: u32) -> u32
    requires { list_all is_ascii_digit digits.now ≡ true }
    ensures { result ≡ min most (decimal_of digits.now) }
{
    let most = u64::from(most);
    let mut number = 0;
    for digit in digits {
        number = (10 * number + u64::from(*digit - b'0')).min(most);
    }
    number as u32
}

/// The number that the text spells, if it is at least `low` and at most `high`.
fn number_between(low: u32, high: u32, text: &str) -> Option<u32>
    requires { high < 2 ^ 32 - 1 }
    ensures { result ≡ spec.number_between low high text.now }
{
    let digits = text.as_bytes();
    if digits.is_empty() || !are_digits(digits) {
        return None;
    }
    let number = decimal_up_to(digits, high + 1);
    if low <= number && number <= high {
        Some(number)
    } else {
        None
    }
}

/// The port that a word spells, 1 to 65,535, in decimal digits without a sign. Leading zeros are
/// allowed. Takes no memory.
pub(crate) fn port(text: &str) -> Option<u16>
    ensures { result ≡ spec.port_of text.now }
{
    let number = number_between(1, MOST_PORT, text)?;
    Some(number as u16)
}

/// The count of connections that a word spells, 1 to 1,000,000, as `port` reads it.
pub(crate) fn count(text: &str) -> Option<u32>
    ensures { result ≡ spec.count_of text.now }
{
    number_between(1, MOST_COUNT, text)
}
