//! Reading what credentials of SCRAM-SHA-256 say.
ghost use Rattle.std.specs.Prelude.{◌≡◌, ◌≤◌, IfOk, codes, length, nat_eq, option_copied};
ghost use Rattle.std.specs.List.{starts_with};
ghost use Rattle.std.specs.Option.{option_and_then};
ghost use Rattle.auth_grammar.specs.Names.{value_of};
ghost use Rattle.scram_text.specs.Bytes.{base64_bytes};
ghost use Rattle.scram_text.specs.ClientFirstAnswers.{parts_of};
ghost use Rattle.scram_text.specs.ClientFinalAnswers.{client_final_parts};
ghost use Rattle.auth_decide.specs.Messages.{FinalSays, FirstSays, Names, ParamsSay, SaysAgain, SaysMessage, TextSays, exchange_flag, final_parts, first_message, scram_params};

use crate::credentials::CredentialsField;
use crate::scram_message::{Again, FinalMessage, FirstMessage, ScramMessage};
use arrayvec::ArrayVec;
use auth_grammar::{Octets, OutOfMemory, Param, same_name, value_of};
use nonce_shard::{Exchange, ExchangeFlag, TableName};
use scram_text::{
    BARE_LIMIT, ClientFinal, ClientFirst, Flag, ReauthNonce, SCRAM_SCHEME, ScramError, read_base64,
};
use std::alloc::Global;

/// What a field says in SCRAM-SHA-256.
pub(crate) fn message_in(
    alloc: Global,
    field: &CredentialsField,
) -> Result<ScramMessage, OutOfMemory>
    ensures { IfOk result (λ message. SaysMessage (scram_params field.now) message) }
{
    match field {
        CredentialsField::Item(item) if same_name(item.scheme.bytes(), SCRAM_SCHEME) => {
            params_message(alloc, item.rest.params())
        }
        _ => Ok(ScramMessage::Absent),
    }
}

/// What the parameters say.
fn params_message(alloc: Global, params: &[Param]) -> Result<ScramMessage, OutOfMemory>
    ensures { IfOk result (λ message. ParamsSay params.now message) }
{
    let Some(text) = data_of(alloc, params)? else {
        return Ok(ScramMessage::Malformed);
    };
    let sid = value_of(params, b"sid");
    let realm = value_of(params, b"realm");
    text_message(alloc, sid, realm, text.bytes())
}

/// The bytes of `data`, if it is there and strict base64.
fn data_of(alloc: Global, params: &[Param]) -> Result<Option<Octets>, OutOfMemory>
    ensures { IfOk result (λ found. found ≡ option_and_then base64_bytes (value_of (codes "data") params.now)) }
{
    match value_of(params, b"data") {
        None => Ok(None),
        Some(text) => read_base64(alloc, text.bytes()),
    }
}

/// What the text says beside this `sid` and this `realm`.
fn text_message(
    alloc: Global,
    sid: Option<&Octets>,
    realm: Option<&Octets>,
    text: &[u8],
) -> Result<ScramMessage, OutOfMemory>
    ensures { IfOk result (λ message. TextSays (option_copied sid.entry) (option_copied realm.entry) text.now message) }
{
    match sid {
        Some(sid) => final_message(alloc, sid.bytes(), text),
        None if misses_sid(text) => Ok(ScramMessage::WithoutSid),
        None => first_message(alloc, realm, text),
    }
}

/// Whether it begins as a client's last message does.
fn misses_sid(text: &[u8]) -> bool
    ensures { result ≡ starts_with nat_eq text.now (codes "c=") }
{
    text.starts_with(b"c=")
}

/// The client's first message that the text is.
fn first_message(
    alloc: Global,
    realm: Option<&Octets>,
    text: &[u8],
) -> Result<ScramMessage, OutOfMemory>
    ensures { IfOk result (λ message. FirstSays (option_copied realm.entry) text.now message) }
{
    match ClientFirst::read(alloc, text) {
        Ok(message) => Ok(ScramMessage::First(first_of(copy_of(realm)?, message))),
        Err(error) => match error {
            ScramError::OutOfMemory => Err(OutOfMemory),
            _ => Ok(ScramMessage::Malformed),
        },
    }
}

fn copy_of(text: Option<&Octets>) -> Result<Option<Octets>, OutOfMemory>
    ensures { IfOk result (λ copy. copy ≡ option_copied text.entry) }
{
    match text {
        None => Ok(None),
        Some(text) => Ok(Some(text.copy()?)),
    }
}

/// The message with this realm beside it.
fn first_of(realm: Option<Octets>, message: ClientFirst) -> FirstMessage
    requires { length message.bare ≤ BARE_LIMIT }
    ensures { result ≡ first_message realm (parts_of message) }
{
    let mut bare = ArrayVec::new();
    let _ = bare.try_extend_from_slice(message.bare.bytes());
    FirstMessage {
        realm,
        exchange: Exchange {
            flag: exchange_flag(message.flag),
            bare,
        },
        name: message.name,
        nonce: message.nonce,
    }
}

fn exchange_flag(flag: Flag) -> ExchangeFlag
    ensures { result ≡ exchange_flag flag }
{
    match flag {
        Flag::N => ExchangeFlag::N,
        Flag::Y => ExchangeFlag::Y,
    }
}

/// The client's last message that the text is.
fn final_message(alloc: Global, sid: &[u8], text: &[u8]) -> Result<ScramMessage, OutOfMemory>
    ensures { IfOk result (λ message. FinalSays sid.now text.now message) }
{
    match ClientFinal::read(alloc, text) {
        Ok(message) => {
            let again = again_of(alloc, message.nonce.bytes())?;
            Ok(ScramMessage::Final(name_of(sid), final_of(message), again))
        }
        Err(error) => match error {
            ScramError::OutOfMemory => Err(OutOfMemory),
            _ => Ok(ScramMessage::Malformed),
        },
    }
}

fn final_of(message: ClientFinal) -> FinalMessage
    ensures { final_parts result ≡ client_final_parts message }
{
    let proof = proof_of(&message);
    FinalMessage {
        flag: message.flag,
        nonce: message.nonce,
        without: message.without,
        proof,
    }
}

fn proof_of(message: &ClientFinal) -> [u8; 32]
    ensures { result ≡ message.now.proof }
{
    message.proof
}

/// What the nonce says of an exchange that is used again.
fn again_of(alloc: Global, nonce: &[u8]) -> Result<Option<Again>, OutOfMemory>
    ensures { IfOk result (λ again. SaysAgain nonce.now again) }
{
    match ReauthNonce::read(alloc, nonce)? {
        None => Ok(None),
        Some(found) => Ok(Some(Again {
            count: found.count,
            sr: name_of(&found.sr),
        })),
    }
}

/// The name of the nonce table that the text is, if it is one.
pub(crate) fn name_of(text: &[u8]) -> Option<TableName>
    ensures { Names text.now result }
{
    TableName::read(text)
}
