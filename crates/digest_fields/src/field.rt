//! The parameters' names, and the faults that they can have.
ghost use Rattle.std.specs.Prelude.{◌≡◌, ◌<◌, ◌≤◌, IfOk, MatchResult, OnOk, length, option_copied};
ghost use Rattle.digest_fields.specs.Field.{at_most, field_text, given, not_empty, required};
ghost use Rattle.digest_fields.specs.declared.field.FieldError.TheVariants.{OutOfMemory as NoMemory};

use auth_grammar::{Octets, OutOfMemory, Param, value_of};
use std::alloc::Global;
use thiserror::Error;

/// A parameter of HTTP Digest.
#[derive(Debug, Drop, Clone, Copy, PartialEq, Eq)]
pub enum FieldName {
    Username,
    UsernameStar,
    Realm,
    Domain,
    Nonce,
    Uri,
    Response,
    Algorithm,
    Cnonce,
    Opaque,
    Qop,
    Nc,
    Userhash,
    Stale,
    Nextnonce,
    Rspauth,
}

/// Why parameters are refused.
#[derive(Debug, Drop, Clone, Copy, PartialEq, Eq, Error)]
pub enum FieldError {
    /// Both `username` and `username*` are there.
    #[error("both username and username*")]
    BothNames,
    /// Neither `username` nor `username*` is there.
    #[error("neither username nor username*")]
    NoName,
    /// A parameter isn't there that has to be.
    #[error("{name:?} is missing")]
    Missing { name: FieldName },
    /// A value has more bytes than the limit.
    #[error("{name:?} has more than {limit} bytes")]
    TooLong { name: FieldName, limit: u32 },
    /// A value isn't in its parameter's form.
    #[error("{name:?} is out of form")]
    BadValue { name: FieldName },
    /// The count `nc` is zero.
    #[error("nc is zero")]
    NcZero,
    /// There was no memory for what was asked.
    #[error("out of memory")]
    OutOfMemory,
}

impl From<OutOfMemory> for FieldError {
    ghost from_gives = { λ _ e. e ≡ NoMemory };

    fn from(_error: OutOfMemory) -> FieldError {
        FieldError::OutOfMemory
    }
}

impl FieldName {
    /// How the parameter is written.
    pub fn text(self) -> &'static [u8]
        ensures { result.now ≡ field_text self }
    {
        match self {
            FieldName::Username => b"username",
            FieldName::UsernameStar => b"username*",
            FieldName::Realm => b"realm",
            FieldName::Domain => b"domain",
            FieldName::Nonce => b"nonce",
            FieldName::Uri => b"uri",
            FieldName::Response => b"response",
            FieldName::Algorithm => b"algorithm",
            FieldName::Cnonce => b"cnonce",
            FieldName::Opaque => b"opaque",
            FieldName::Qop => b"qop",
            FieldName::Nc => b"nc",
            FieldName::Userhash => b"userhash",
            FieldName::Stale => b"stale",
            FieldName::Nextnonce => b"nextnonce",
            FieldName::Rspauth => b"rspauth",
        }
    }
}

/// The value of a parameter, where it is there.
#[tactic(auto, unfolding(crate::specs::Field::given))]
pub(crate) fn given(params: &[Param], name: FieldName) -> Option<&[u8]>
    ensures { option_copied result ≡ given name params.now }
{
    value_of(params, name.text()).map(Octets::bytes)
}

/// The value of a parameter that has to be there.
#[tactic(auto, unfolding(crate::specs::Field::required))]
pub(crate) fn required(params: &[Param], name: FieldName) -> Result<&[u8], FieldError>
    ensures { MatchResult result
        (λ value. required name params.now ≡ Ok value.now)
        (λ error. required name params.now ≡ Err error) }
{
    given(params, name).ok_or(FieldError::Missing { name })
}

/// Refuses a value of more bytes than the limit.
#[tactic(auto, unfolding(crate::specs::Field::at_most))]
pub(crate) fn at_most(limit: u32, name: FieldName, value: &[u8]) -> Result<(), FieldError>
    ensures value { MatchResult result
        (λ _. at_most limit name value.now ≡ Ok value.now)
        (λ error. at_most limit name value.now ≡ Err error) }
    ensures form { OnOk result (length value.now ≤ limit) }
{
    if value.len() > limit as usize {
        return Err(FieldError::TooLong { name, limit });
    }
    Ok(())
}

/// Refuses an empty value.
#[tactic(auto, unfolding(crate::specs::Field::not_empty))]
pub(crate) fn not_empty(name: FieldName, value: &[u8]) -> Result<(), FieldError>
    ensures value { MatchResult result
        (λ _. not_empty name value.now ≡ Ok value.now)
        (λ error. not_empty name value.now ≡ Err error) }
    ensures form { OnOk result (0 < length value.now) }
{
    if value.is_empty() {
        return Err(FieldError::BadValue { name });
    }
    Ok(())
}

/// A copy of a value that may be there.
pub(crate) fn copied(alloc: Global, value: Option<&[u8]>) -> Result<Option<Octets>, OutOfMemory>
    ensures { IfOk result (λ copy. copy ≡ option_copied value.entry) }
{
    match value {
        Some(value) => Ok(Some(Octets::of(alloc, value)?)),
        None => Ok(None),
    }
}
