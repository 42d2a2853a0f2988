//! SHA-256 values (FIPS 180-4).
ghost use Rattle.std.specs.Prelude.{◌≡◌, ℕ, List, Some, length};
ghost use Rattle.std.specs.Result.{result_ok};
ghost use Rattle.hex.specs.Hex.{encode_lower};
ghost use Rattle.base.specs.Digests.{digest_of};

use std::marker::Model;
use std::{fmt, str};
use thiserror::Error;

/// A SHA-256 value, ordered by its bytes and shown as 64 hexadecimal digits in lower case. A
/// contract sees the list of its bytes.
#[derive(Clone, Copy, Debug, PartialEq, Eq, PartialOrd, Ord)]
pub struct Digest([u8; 32]);

impl Model for Digest {
    ghost Value = { List ℕ };

    ghost view = { λ d. d.0 };

    ghost invariant = { λ d. length d.0 ≡ 32 };

    ghost inverse = { λ bytes. record { 0 = bytes } };
}

/// The text isn't 64 hexadecimal digits.
#[derive(Clone, Copy, Debug, PartialEq, Eq, Error)]
#[error("not 64 hexadecimal digits")]
pub struct BadDigest;

impl From<[u8; 32]> for Digest {
    ghost from_gives = { λ bytes digest. digest ≡ bytes };

    fn from(bytes: [u8; 32]) -> Digest {
        Digest(bytes)
    }
}

impl Digest {
    /// The 32 bytes.
    pub fn as_bytes(&self) -> &[u8]
        ensures value { result.now ≡ self.now }
        ensures len { length result.now ≡ 32 }
    {
        &self.0
    }

    /// The digest that 64 hexadecimal digits of either case spell.
    pub fn parse(text: &[u8]) -> Result<Digest, BadDigest>
        ensures { result_ok result ≡ digest_of text.now }
    {
        let mut bytes = [0; 32];
        match hex::decode_to_slice(text, &mut bytes) {
            Ok(()) => Ok(Digest(bytes)),
            Err(_) => Err(BadDigest),
        }
    }

    /// The 64 hexadecimal digits in lower case.
    pub fn text(&self) -> [u8; 64]
        ensures { result ≡ encode_lower self.now }
    {
        let mut digits = [0; 64];
        let encoded = hex::encode_to_slice(&self.0, &mut digits);
        prove!(encoded.is_ok());
        digits
    }
}

impl fmt::Display for Digest {
    ghost output = { λ digest. Some (encode_lower digest) };

    fn fmt<W: fmt::Write>(&self, f: &mut fmt::Formatter<W>) -> fmt::Result {
        let digits = self.text();
        match str::from_utf8(&digits) {
            Ok(text) => f.write_str(text),
            Err(_) => unreachable!(),
        }
    }
}
