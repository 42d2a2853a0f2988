//! GUIDs (UEFI 2.10, appendix A).
ghost use Rattle.std.specs.Prelude.{◌≡◌, ◌*◌, ℕ, List, ◌++◌, ◌∷◌, IfOk, OnErr, OnOk, length, string_bytes};
ghost use Rattle.std.specs.Result.{result_ok};
ghost use Rattle.hex.specs.Hex.{decode_of, encode_lower};
ghost use Rattle.base.specs.Guids as spec;
ghost use Rattle.base.specs.Guids.{IsGuidText, text_of};

use byteorder::{BigEndian, ByteOrder, LittleEndian};
use hex::FromHex;
use std::alloc::{AllocError, Global};
use std::marker::Model;
use thiserror::Error;

/// A GUID, as the 16 bytes that a signature list holds: a u32 and two u16, little-endian, then 8
/// bytes in the order of the text. A contract sees the list of the 16 bytes.
#[derive(Clone, Copy, Debug, PartialEq, Eq)]
pub struct Guid([u8; 16]);

impl Model for Guid {
    ghost Value = { List ℕ };

    ghost view = { λ g. g.0 };

    ghost invariant = { λ g. length g.0 ≡ 16 };

    ghost inverse = { λ bytes. record { 0 = bytes } };
}

/// The text isn't a GUID's.
#[derive(Clone, Copy, Debug, PartialEq, Eq, Error)]
#[error("not a GUID")]
pub struct BadGuid;

impl From<[u8; 16]> for Guid {
    ghost from_gives = { λ bytes guid. guid ≡ bytes };

    fn from(bytes: [u8; 16]) -> Guid {
        Guid(bytes)
    }
}

/// The bytes reordered from storage order to text order, or back.
fn swap_groups(bytes: &[u8; 16]) -> [u8; 16]
    ensures { result ≡ spec.swapped bytes.now }
{
    let mut other = *bytes;
    LittleEndian::write_u32(&mut other, BigEndian::read_u32(bytes));
    LittleEndian::write_u16(&mut other[4..], BigEndian::read_u16(&bytes[4..]));
    LittleEndian::write_u16(&mut other[6..], BigEndian::read_u16(&bytes[6..]));
    other
}

/// The bytes of one group of digits.
fn read_group<const N: usize>(digits: &[u8]) -> Result<[u8; N], BadGuid>
    requires { length digits.now ≡ 2 * N }
    ensures { result_ok result ≡ result_ok (decode_of digits.now) }
{
    <[u8; N]>::from_hex(digits).map_err(|_| BadGuid)
}

/// Adds a hyphen and the digits of one group.
fn push_group(alloc: Global, text: &mut String, bytes: &[u8]) -> Result<(), AllocError>
    ensures { OnOk result (string_bytes text.new
        ≡ string_bytes text.old ++ 45 ∷ encode_lower bytes.now) }
{
    let digits = hex::encode(alloc, bytes)?;
    text.push('-')?;
    text.push_str(digits.as_str())
}

impl Guid {
    /// The 16 bytes, as a signature list holds them.
    pub fn as_bytes(&self) -> &[u8]
        ensures value { result.now ≡ self.now }
        ensures len { length result.now ≡ 16 }
    {
        &self.0
    }

    /// Reads the 36 characters of a GUID, in either case.
    pub fn parse(text: &str) -> Result<Guid, BadGuid>
        ensures ok { IfOk result (IsGuidText text.now) }
        ensures err { OnErr result ((g : List ℕ) → IsGuidText text.now g → ⊥) }
    {
        let text = text.as_bytes();
        if text.len() != 36 {
            return Err(BadGuid);
        }
        if text[8] != b'-' || text[13] != b'-' || text[18] != b'-' || text[23] != b'-' {
            return Err(BadGuid);
        }
        let first: [u8; 4] = read_group(&text[..8])?;
        let second: [u8; 2] = read_group(&text[9..13])?;
        let third: [u8; 2] = read_group(&text[14..18])?;
        let fourth: [u8; 2] = read_group(&text[19..23])?;
        let fifth: [u8; 6] = read_group(&text[24..36])?;
        let bytes = [
            first[0], first[1], first[2], first[3], second[0], second[1], third[0], third[1],
            fourth[0], fourth[1], fifth[0], fifth[1], fifth[2], fifth[3], fifth[4], fifth[5],
        ];
        Ok(Guid(swap_groups(&bytes)))
    }

    /// The text in lower case. Takes memory for it.
    pub fn text(&self, alloc: Global) -> Result<String, AllocError>
        ensures { IfOk result (λ text. string_bytes text ≡ text_of self.now) }
    {
        let bytes = swap_groups(&self.0);
        let mut text = hex::encode(alloc, &bytes[..4])?;
        push_group(alloc, &mut text, &bytes[4..6])?;
        push_group(alloc, &mut text, &bytes[6..8])?;
        push_group(alloc, &mut text, &bytes[8..10])?;
        push_group(alloc, &mut text, &bytes[10..])?;
        Ok(text)
    }
}
