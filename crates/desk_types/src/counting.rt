//! Numbers read back from their decimal texts.
ghost use Rattle.std.specs.Prelude.{◌≡◌, ◌≢◌, ◌∷◌, ◌++◌, ℕ, List, IfNone, IfSome, decimal};
ghost use Rattle.desk_types.specs.Commands.{IsCount};

use crate::forms;
use std::str;

/// The number whose decimal text this is, without leading zeros.
pub(crate) fn count_of(text: &[u8]) -> Option<u64>
    ensures found { IfSome result (λ number. text.now ≡ decimal number) }
    ensures only { IfNone result ((number : ℕ) → IsCount number → text.now ≢ decimal number) }
{
    if !forms::is_numeral(text) {
        return None;
    }
    let Ok(text) = str::from_utf8(text) else {
        return None;
    };
    text.parse::<u64>().ok()
}

/// The number whose decimal text is before the first space, and the text after that space.
pub(crate) fn count_before(text: &[u8]) -> Option<(u64, &[u8])>
    ensures found { IfSome result (λ parts. IsCount parts.0
        × (text.now ≡ decimal parts.0 ++ (32 ∷ parts.1.now))) }
    ensures only { IfNone result ((number : ℕ) (rest : List ℕ) → IsCount number
        → text.now ≢ decimal number ++ (32 ∷ rest)) }
{
    let (first, rest) = forms::parted_at_space(text)?;
    let number = count_of(first)?;
    Some((number, rest))
}
