//! Little-endian numbers in bytes.
ghost use Rattle.std.specs.Prelude.{◌≡◌, ◌+◌, ◌≤◌, length};
ghost use Rattle.base.specs.Numbers as spec;

/// The little-endian number in the two bytes from an offset on.
#[tactic(auto, unfolding(crate::specs::Numbers::u16_at))]
pub fn u16_at(bytes: &[u8], at: usize) -> u16
    requires { at + 2 ≤ length bytes.now }
    ensures { result ≡ spec.u16_at bytes.now at }
{
    let two = &bytes[at..at + 2];
    u16::from_le_bytes([two[0], two[1]])
}

/// The little-endian number in the four bytes from an offset on.
#[tactic(auto, unfolding(crate::specs::Numbers::u32_at))]
pub fn u32_at(bytes: &[u8], at: usize) -> u32
    requires { at + 4 ≤ length bytes.now }
    ensures { result ≡ spec.u32_at bytes.now at }
{
    let four = &bytes[at..at + 4];
    u32::from_le_bytes([four[0], four[1], four[2], four[3]])
}
