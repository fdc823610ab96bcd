//! Digests as text.
ghost use Rattle.std.specs.Prelude.{◌≡◌, ◌↔◌, ◌<◌, ◌*◌, All, IfSome, IsSome, IsTrue, length};
ghost use Rattle.auth_hash.specs.HexText.{IsHexText, is_lower_digit};
ghost use Rattle.hex.specs.Hex.{encode_lower};

use std::fmt;
use std::marker::Model;

/// A text of 32 or 64 lower-case hexadecimal digits. Contracts see it as that list of bytes. It may be a secret, so
/// `Debug` prints none of it.
#[derive(Drop, Clone, Copy, PartialEq, Eq)]
pub struct HexText {
    digits: Digits,
}

#[derive(Drop, Clone, Copy, PartialEq, Eq)]
enum Digits {
    Short([u8; 32]),
    Long([u8; 64]),
}

impl Model for HexText {
    ghost use Rattle.std.specs.Prelude.{List, ℕ};

    ghost Value = { List ℕ };

    ghost use Rattle.auth_hash.specs.Digits.{digits_text, HasItsLength, digits_of};
    ghost use Rattle.auth_hash.specs.HexText.{IsHexText};

    ghost view = { λ t. digits_text t.digits };

    ghost invariant = { λ t. HasItsLength t.digits × IsHexText (digits_text t.digits) };

    ghost inverse = { λ text. record { digits = digits_of text } };
}

impl fmt::Debug for HexText {
    fn fmt<W: fmt::Write>(&self, f: &mut fmt::Formatter<W>) -> fmt::Result {
        f.write_str("HexText { ... }")
    }
}

impl HexText {
    /// The text itself, where it is 32 or 64 lower-case hexadecimal digits.
    pub fn read(text: &[u8]) -> Option<HexText>
        ensures value { IfSome result (λ t. t ≡ text.now) }
        ensures form { IsSome result ↔ IsHexText text.now }
    {
        if !text.iter().all(|&digit| is_lower(digit)) {
            return None;
        }
        let digits = match text.len() {
            32 => {
                let mut short = [0; 32];
                short.copy_from_slice(text);
                Digits::Short(short)
            }
            64 => {
                let mut long = [0; 64];
                long.copy_from_slice(text);
                Digits::Long(long)
            }
            _ => return None,
        };
        Some(HexText { digits })
    }

    pub fn bytes(&self) -> &[u8]
        ensures value { result.now ≡ self.now }
        ensures form { IsHexText self.now }
    {
        match &self.digits {
            Digits::Short(short) => short,
            Digits::Long(long) => long,
        }
    }

    /// The text of a digest of 16 bytes.
    pub(crate) fn of_short(digest: &[u8; 16]) -> HexText
        ensures { result ≡ encode_lower digest.now }
    {
        let mut short = [0; 32];
        let _ = hex::encode_to_slice(digest, &mut short);
        HexText {
            digits: Digits::Short(short),
        }
    }

    /// The text of a digest of 32 bytes.
    pub(crate) fn of_long(digest: &[u8; 32]) -> HexText
        ensures { result ≡ encode_lower digest.now }
    {
        let mut long = [0; 64];
        let _ = hex::encode_to_slice(digest, &mut long);
        HexText {
            digits: Digits::Long(long),
        }
    }
}

fn is_lower(digit: u8) -> bool
    ensures { result ≡ is_lower_digit digit }
{
    digit.is_ascii_digit() || (b'a' <= digit && digit <= b'f')
}
