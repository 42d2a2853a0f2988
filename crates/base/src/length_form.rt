//! Length octets of elements (X.690, section 8.1.3).
ghost use Rattle.std.specs.Prelude.{◌≡◌, ◌≤◌, ◌<◌, ◌^◌, length, IfSome};
ghost use Rattle.base.specs.Elements.{number_of};
ghost use Rattle.base.specs.Parts.{form_of};

/// The number that at most four bytes spell, the high one first.
fn number(bytes: &[u8]) -> usize
    requires { length bytes.now ≤ 4 }
    ensures value { result ≡ number_of bytes.now }
    ensures bound { result < 2 ^ 32 }
{
    match bytes {
        [] => 0,
        [a] => usize::from(*a),
        [a, b] => usize::from(u16::from_be_bytes([*a, *b])),
        [a, b, c] => u32::from_be_bytes([0, *a, *b, *c]) as usize,
        [a, b, c, d] => u32::from_be_bytes([*a, *b, *c, *d]) as usize,
        _ => unreachable!(),
    }
}

/// The length form at the front: how many bytes it has, and the length that it encodes.
#[tactic(auto, unfolding(crate::specs::Parts::form_of))]
pub(crate) fn length_form(bytes: &[u8]) -> Option<(usize, usize)>
    ensures value { result ≡ form_of bytes.now }
    ensures bound { IfSome result (λ p. (p.0 ≤ 5) × (p.1 < 2 ^ 32)) }
{
    let (first, rest) = bytes.split_first()?;
    if *first < 0x80 {
        return Some((1, usize::from(*first)));
    }
    if *first < 0x81 || 0x84 < *first {
        return None;
    }
    let count = usize::from(*first) - 0x80;
    if rest.len() < count {
        return None;
    }
    Some((count + 1, number(&rest[..count])))
}
