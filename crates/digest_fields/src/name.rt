//! Names of users.
ghost use Rattle.std.specs.Prelude.{◌≡◌, ◌⊎◌, IfOk, MatchResult, OnOk};
ghost use Rattle.percent_encoding.specs.Percent.{percent_decode};
ghost use Rattle.digest_fields.specs.Name.{IsName, name_from, name_of};

use crate::extended::escaped_name;
use crate::field::{FieldError, FieldName, at_most, given};
use auth_grammar::{NAME_LIMIT, Octets, OutOfMemory, Param, is_plain_name};
use std::alloc::Global;

/// The user that credentials name (RFC 7616 section 3.4.4).
#[derive(Drop, Clone, PartialEq)]
pub enum UserName {
    /// The name itself.
    Plain(Octets),
    /// The hash of name and realm, in hexadecimal digits.
    Hashed(Octets),
}

/// The name that the parameters say, in the one or the other parameter.
#[tactic(auto, unfolding(crate::specs::Name::name_of))]
pub(crate) fn name_of(alloc: Global, params: &[Param]) -> Result<Octets, FieldError>
    ensures value { MatchResult result
        (λ name. name_of params.now ≡ Ok name)
        (λ error. (error ≡ FieldError.OutOfMemory) ⊎ (name_of params.now ≡ Err error)) }
    ensures form { IfOk result IsName }
{
    let plain = given(params, FieldName::Username);
    let extended = given(params, FieldName::UsernameStar);
    match (plain, extended) {
        (Some(_), Some(_)) => Err(FieldError::BothNames),
        (None, None) => Err(FieldError::NoName),
        (Some(plain), None) => {
            check_name(FieldName::Username, plain)?;
            Ok(Octets::of(alloc, plain)?)
        }
        (None, Some(extended)) => {
            let Some(escaped) = escaped_name(extended) else {
                return Err(FieldError::BadValue {
                    name: FieldName::UsernameStar,
                });
            };
            let name = unescaped(alloc, escaped)?;
            check_name(FieldName::UsernameStar, name.bytes())?;
            Ok(name)
        }
    }
}

/// Refuses what isn't a name of 1 to 64 bytes.
#[tactic(auto, unfolding(crate::specs::Name::name_from))]
fn check_name(field: FieldName, name: &[u8]) -> Result<(), FieldError>
    ensures value { MatchResult result
        (λ _. name_from field name.now ≡ Ok name.now)
        (λ error. name_from field name.now ≡ Err error) }
    ensures form { OnOk result (IsName name.now) }
{
    at_most(NAME_LIMIT as u32, field, name)?;
    if !is_plain_name(name) {
        return Err(FieldError::BadValue { name: field });
    }
    Ok(())
}

/// The bytes that an escaped text stands for.
fn unescaped(alloc: Global, text: &[u8]) -> Result<Octets, OutOfMemory>
    ensures { IfOk result (λ bytes. bytes ≡ percent_decode text.now) }
{
    let mut bytes = Vec::new(alloc);
    percent_encoding::percent_decode(text).append_to(&mut bytes)?;
    Ok(Octets::from_vec(bytes))
}
