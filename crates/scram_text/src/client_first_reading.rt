//! What a client's first message is refused for, and the message.
ghost use Rattle.std.specs.Prelude.{◌≡◌, ◌≤◌, ◌∷◌, ℕ, List, length, IfNone, IfSome};
ghost use Rattle.scram_text.specs.ClientFirsts.{IsBare, IsPlainFirst};
ghost use Rattle.scram_text.specs.Flags.{flag_letter};
ghost use Rattle.scram_text.specs.ClientFirstAnswers.{AnswersClientFirst, Fits, RefusesClientFirst};
ghost use Rattle.scram_text.specs.Contents.{WritesName};

use crate::client_first::ClientFirst;
use crate::error::{ScramError, ScramField};
use crate::flag::Flag;
use crate::limits::{BARE_LIMIT, NONCE_LIMIT};
use crate::names::name_written;
use auth_grammar::{NAME_LIMIT, Octets, behind};
use std::alloc::Global;

/// What the text is refused for, whatever else stands in it.
pub(crate) fn refused(text: &[u8]) -> Option<ScramError>
    requires { Fits text.now }
    ensures some { IfSome result (λ error. RefusesClientFirst text.now error) }
    ensures none { IfNone result (IsPlainFirst text.now) }
{
    if let Some(_) = behind(text, b"p=") {
        return Some(ScramError::ChannelBinding);
    }
    if let Some(_) = behind(text, b"n,a=") {
        return Some(ScramError::Authzid);
    }
    if let Some(_) = behind(text, b"y,a=") {
        return Some(ScramError::Authzid);
    }
    if let Some(_) = behind(text, b"n,,m=") {
        return Some(ScramError::Extension);
    }
    if let Some(_) = behind(text, b"y,,m=") {
        return Some(ScramError::Extension);
    }
    None
}

/// The message of these parts, if they are short enough.
pub(crate) fn message_of(
    alloc: Global,
    flag: Flag,
    bare: &[u8],
    written: &[u8],
    nonce: &[u8],
) -> Result<ClientFirst, ScramError>
    requires short { length bare.now ≤ BARE_LIMIT }
    requires bare { IsBare bare.now written.now nonce.now }
    requires name { (name : List ℕ) × WritesName written.now name }
    ensures { AnswersClientFirst (flag_letter flag ∷ 44 ∷ 44 ∷ bare.now) result }
{
    let name = name_written(alloc, written)?;
    if name.len() > NAME_LIMIT {
        return Err(ScramError::TooLong {
            field: ScramField::Name,
            limit: NAME_LIMIT as u32,
        });
    }
    if nonce.len() > NONCE_LIMIT {
        return Err(ScramError::TooLong {
            field: ScramField::Nonce,
            limit: NONCE_LIMIT as u32,
        });
    }
    Ok(ClientFirst {
        flag,
        name,
        nonce: Octets::of(alloc, nonce)?,
        bare: Octets::of(alloc, bare)?,
    })
}
