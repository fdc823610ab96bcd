//! The count of a nonce's uses.
ghost use Rattle.std.specs.Prelude.{◌≡◌, ◌≤◌, ◌<◌, IfOk, IsTrue};
ghost use Rattle.std.specs.Char.{digit_value};
ghost use Rattle.std.specs.List.{list_all};
ghost use Rattle.digest_fields.specs.Nc.{IsNc, is_hex_digit, is_nc_text, nc_from, nc_number, nc_of, nc_text};

use crate::field::{FieldError, FieldName, required};
use auth_grammar::Param;
use std::marker::Model;

/// A count as it is sent: eight hexadecimal digits in either case that don't write 0. Contracts see
/// it as that text.
#[derive(Debug, Drop, Clone, Copy, PartialEq, Eq)]
pub struct Nc {
    pub text: [u8; 8],
}

impl Model for Nc {
    ghost use Rattle.std.specs.Prelude.{List, ℕ, IsTrue};
    ghost use Rattle.digest_fields.specs.Nc.{IsNc};

    ghost Value = { List ℕ };

    ghost view = { λ nc. nc.text };

    ghost invariant = { λ nc. IsNc nc.text };

    ghost inverse = { λ text. record { text = text } };
}

impl Nc {
    /// The count itself.
    pub fn number(&self) -> u32
        ensures value { result ≡ nc_number self.now }
        ensures positive { 0 < result }
    {
        number_of(&self.text)
    }

    /// The text of a count, in lower case.
    pub fn of(count: u32) -> Nc
        requires { 1 ≤ count }
        ensures text { result ≡ nc_text count }
        ensures number { nc_number result ≡ count }
        ensures form { IsNc result }
    {
        let mut text = [0; 8];
        let _ = hex::encode_to_slice(count.to_be_bytes(), &mut text);
        Nc { text }
    }

    /// The count that a text writes.
    #[tactic(auto, unfolding(crate::specs::Nc::nc_from))]
    pub(crate) fn read(text: &[u8]) -> Result<Nc, FieldError>
        ensures value { result ≡ nc_from text.now }
        ensures form { IfOk result IsNc }
    {
        if !is_nc_text(text) {
            return Err(FieldError::BadValue {
                name: FieldName::Nc,
            });
        }
        if number_of(text) == 0 {
            return Err(FieldError::NcZero);
        }
        let mut digits = [0; 8];
        digits.copy_from_slice(text);
        Ok(Nc { text: digits })
    }

    /// The count that the parameters say.
    #[tactic(auto, unfolding(crate::specs::Nc::nc_of))]
    pub(crate) fn given(params: &[Param]) -> Result<Nc, FieldError>
        ensures value { result ≡ nc_of params.now }
        ensures form { IfOk result IsNc }
    {
        Nc::read(required(params, FieldName::Nc)?)
    }
}

/// Whether a text is eight hexadecimal digits.
fn is_nc_text(text: &[u8]) -> bool
    ensures { result ≡ is_nc_text text.now }
{
    text.len() == 8 && are_hex_digits(text)
}

fn are_hex_digits(text: &[u8]) -> bool
    ensures { result ≡ list_all is_hex_digit text.now }
{
    text.iter().all(|&byte| is_hex_digit(byte))
}

#[tactic(auto, unfolding(crate::specs::Nc::is_hex_digit))]
fn is_hex_digit(byte: u8) -> bool
    ensures { result ≡ is_hex_digit byte }
{
    char::from(byte).is_digit(16)
}

#[tactic(auto, unfolding(crate::specs::Nc::is_hex_digit))]
fn digit_value(digit: u8) -> u32
    requires { IsTrue (is_hex_digit digit) }
    ensures { result ≡ digit_value digit }
{
    char::from(digit).to_digit(16).unwrap()
}

/// The number that the digits write.
#[tactic(auto, unfolding(crate::specs::Nc::nc_number))]
fn number_of(digits: &[u8]) -> u32
    requires { IsTrue (is_nc_text digits.now) }
    ensures { result ≡ nc_number digits.now }
{
    let mut number = 0;
    for &digit in digits {
        number = number * 16 + digit_value(digit);
    }
    number
}
