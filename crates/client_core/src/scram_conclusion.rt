//! What a response means to an exchange of SCRAM-SHA-256.
ghost use Rattle.std.specs.Prelude.{◌≡◌, ◌≤◌, ◌&&◌, IfOk, Some, None, find, if◌then◌else◌, length, nat_le, nat_lt, option_copied, true};
ghost use Rattle.std.specs.Char.{is_ascii_digit};
ghost use Rattle.std.specs.List.{list_all};
ghost use Rattle.std.specs.Str.Parse.{digits_value};
ghost use Rattle.scram_text.specs.Bytes.{is_symbol};
ghost use Rattle.http_wire.specs.Values.{is_number};
ghost use Rattle.client_core.specs.Hearings.{continued};
ghost use Rattle.client_core.specs.ScramConclusions.{after_again, after_first, again_signed, again_told, exchange_of, final_signed, final_told, follows, has_message, is_of_scram, is_signature, is_signed, is_sr, reuse_of, reuse_with, signature_for, signed_told};

use crate::conclusion::{Conclusion, conclude};
use crate::hearing::{Heard, continued};
use crate::outcome::Outcome;
use crate::state::{Change, Exchange, First, Progress, Reuse, State, User};
use auth_grammar::{Item, ItemList, Octets, OutOfMemory, Param, same_name, value_of};
use auth_hash::same_bytes;
use scram_proof::{LEAST_ITERATIONS, MOST_ITERATIONS, salted, server_key, server_signature};
use scram_text::{ClientFinal, Flag, SCRAM_SCHEME, SR_LENGTH, ServerFinal, ServerFirst, is_symbol};
use std::alloc::Global;

/// The most seconds that nine digits write.
const LONGEST: u64 = 999_999_999;

/// What a challenge means in answer to the client's first message.
pub(crate) fn after_first(
    state: &State,
    items: &ItemList,
    heard: &Heard,
) -> Result<Conclusion, OutOfMemory>
    ensures { IfOk result (λ c. c ≡ after_first state.now (continued items.now) heard.now) }
{
    let Some((sid, _)) = continued(items.as_slice()) else {
        return Ok(conclude(Outcome::Refused, Change::Forget));
    };
    let Progress::Begun(first) = &state.progress else {
        return Ok(conclude(Outcome::Refused, Change::Forget));
    };
    let Heard::First(message) = heard else {
        return Ok(conclude(Outcome::Malformed { at: 0 }, Change::Keep));
    };
    if !follows(&first.nonce, message) {
        return Ok(conclude(Outcome::Malformed { at: 0 }, Change::Keep));
    }
    let exchange = exchange_of(&state.user, first, sid, message)?;
    Ok(conclude(Outcome::Retry, Change::Answer(exchange)))
}

/// Whether the server's nonce goes on where the client's ends, and the iteration count is one that a client makes.
fn follows(nonce: &[u8], message: &ServerFirst) -> bool
    ensures { result ≡ follows nonce.now message.now }
{
    nonce.len() < message.nonce.len()
        && message.nonce.bytes().starts_with(nonce)
        && LEAST_ITERATIONS <= message.i
        && message.i <= MOST_ITERATIONS
}

/// The exchange that the server's first message goes on with.
fn exchange_of(
    user: &User,
    first: &First,
    sid: &Octets,
    message: &ServerFirst,
) -> Result<Exchange, OutOfMemory>
    requires { 1 ≤ message.now.i }
    ensures { IfOk result (λ x. x ≡ exchange_of user.now first.now sid.now message.now) }
{
    Ok(Exchange {
        sid: sid.copy()?,
        bare: first.bare.copy()?,
        first: message.text.copy()?,
        nonce: message.nonce.copy()?,
        salted: salted(user.password.bytes(), message.salt.bytes(), message.i),
    })
}

/// What a challenge means in answer to an exchange that was used again.
pub(crate) fn after_again(items: &ItemList, moment: u64) -> Result<Conclusion, OutOfMemory>
    ensures { IfOk result (λ c. c ≡ after_again moment (find is_of_scram items.now)) }
{
    match first_scram(items.as_slice()) {
        Some(item) => {
            let reuse = reuse_of(item.rest.params(), moment)?;
            Ok(conclude(Outcome::Retry, Change::Replace(reuse)))
        }
        None => Ok(conclude(Outcome::Refused, Change::Forget)),
    }
}

/// The first item of SCRAM-SHA-256.
fn first_scram(items: &[Item]) -> Option<&Item>
    ensures { option_copied result ≡ find is_of_scram items.now }
{
    items.iter().find(|item| is_of_scram(item))
}

fn is_of_scram(item: &Item) -> bool
    ensures { result ≡ is_of_scram item.now }
{
    same_name(item.scheme.bytes(), SCRAM_SCHEME)
}

/// What an item gives to use an exchange again with.
pub(crate) fn reuse_of(params: &[Param], moment: u64) -> Result<Option<Reuse>, OutOfMemory>
    ensures { IfOk result (λ reuse. reuse ≡ reuse_of moment params.now) }
{
    let Some(sr) = value_of(params, b"sr") else {
        return Ok(None);
    };
    let Some(ttl) = value_of(params, b"ttl") else {
        return Ok(None);
    };
    reuse_with(sr, ttl.bytes(), moment)
}

fn reuse_with(sr: &Octets, ttl: &[u8], moment: u64) -> Result<Option<Reuse>, OutOfMemory>
    ensures { IfOk result (λ reuse. reuse ≡ reuse_with moment sr.now ttl.now) }
{
    if !is_sr(sr.bytes()) || !has_ttl_form(ttl) {
        return Ok(None);
    }
    let Some(ttl) = number(ttl) else {
        return Ok(None);
    };
    Ok(Some(Reuse {
        sr: sr.copy()?,
        since: moment,
        ttl: ttl as u32,
    }))
}

/// Whether the text is as many base64 characters as an `sr` has.
fn is_sr(text: &[u8]) -> bool
    ensures { result ≡ is_sr text.now }
{
    text.len() == SR_LENGTH && are_symbols(text)
}

fn are_symbols(text: &[u8]) -> bool
    ensures { result ≡ list_all is_symbol text.now }
{
    text.iter().all(|&byte| is_symbol(byte))
}

/// Whether the text is one to nine digits.
fn has_ttl_form(text: &[u8]) -> bool
    ensures { result ≡ ((nat_lt 0 (length text.now) && nat_le (length text.now) 9) && list_all is_ascii_digit text.now) }
{
    text.len() > 0 && text.len() <= 9 && are_digits(text)
}

fn are_digits(text: &[u8]) -> bool
    ensures { result ≡ list_all is_ascii_digit text.now }
{
    text.iter().all(|byte| byte.is_ascii_digit())
}

/// The number that the digits write, where nine digits can write it.
fn number(digits: &[u8]) -> Option<u64>
    requires { is_number digits.now ≡ true }
    ensures { result ≡ (if nat_le (digits_value 10 digits.now) 999999999 then Some (digits_value 10 digits.now) else None) }
{
    let mut n = 0;
    for b in digits {
        n = n * 10 + (*b - 48) as u64;
        if n > LONGEST {
            return None;
        }
    }
    Some(n)
}

/// What a response that is no challenge means in answer to a client-final message.
pub(crate) fn final_told(
    alloc: Global,
    state: &State,
    params: &[Param],
    heard: &Heard,
) -> Result<Conclusion, OutOfMemory>
    ensures { IfOk result (λ c. c ≡ final_told state.now params.now heard.now) }
{
    let signed = final_signed(alloc, heard, &state.progress)?;
    Ok(signed_told(has_message(params), Change::Fail, Change::Finish, signed))
}

/// What it means in answer to an exchange that was used again.
pub(crate) fn again_told(
    alloc: Global,
    state: &State,
    params: &[Param],
    heard: &Heard,
) -> Result<Conclusion, OutOfMemory>
    ensures { IfOk result (λ c. c ≡ again_told state.now params.now heard.now) }
{
    let signed = again_signed(alloc, heard, &state.progress)?;
    Ok(signed_told(has_message(params), Change::Pass, Change::Pass, signed))
}

/// Whether there is a message of the server.
fn has_message(params: &[Param]) -> bool
    ensures { result ≡ has_message params.now }
{
    value_of(params, b"data").is_some()
}

fn signed_told(there: bool, absent: Change, proved: Change, signed: bool) -> Conclusion
    ensures { result ≡ signed_told there absent proved signed }
{
    if !there {
        return conclude(Outcome::OneWay, absent);
    }
    if !signed {
        return conclude(Outcome::WrongProof, Change::Fail);
    }
    conclude(Outcome::Mutual, proved)
}

fn final_signed(alloc: Global, heard: &Heard, progress: &Progress) -> Result<bool, OutOfMemory>
    ensures { IfOk result (λ signed. signed ≡ final_signed heard.now progress.now) }
{
    match progress {
        Progress::Answered(exchange) => is_signed(alloc, heard, exchange, &exchange.nonce),
        _ => Ok(false),
    }
}

fn again_signed(alloc: Global, heard: &Heard, progress: &Progress) -> Result<bool, OutOfMemory>
    ensures { IfOk result (λ signed. signed ≡ again_signed heard.now progress.now) }
{
    match progress {
        Progress::Finished(exchange, nonce) => is_signed(alloc, heard, exchange, nonce),
        _ => Ok(false),
    }
}

/// Whether the server's last message is the signature of the exchange with this nonce.
fn is_signed(
    alloc: Global,
    heard: &Heard,
    exchange: &Exchange,
    nonce: &Octets,
) -> Result<bool, OutOfMemory>
    ensures { IfOk result (λ signed. signed ≡ is_signed heard.now exchange.now nonce.now) }
{
    let Heard::Final(message) = heard else {
        return Ok(false);
    };
    let right = signature_for(alloc, exchange, nonce.bytes())?;
    Ok(is_signature(message, &right))
}

fn is_signature(message: &ServerFinal, right: &[u8; 32]) -> bool
    ensures { result ≡ is_signature message.now right.now }
{
    match message {
        ServerFinal::Signature(signature) => same_bytes(signature, right),
        ServerFinal::Fault(_) => false,
    }
}

/// ServerSignature of an exchange with this nonce (RFC 5802 section 3).
fn signature_for(alloc: Global, exchange: &Exchange, nonce: &[u8]) -> Result<[u8; 32], OutOfMemory>
    ensures { IfOk result (λ signature. signature ≡ signature_for exchange.now nonce.now) }
{
    let without = ClientFinal::without(alloc, Flag::N, nonce)?;
    Ok(server_signature(
        &server_key(&exchange.salted),
        exchange.bare.bytes(),
        exchange.first.bytes(),
        without.bytes(),
    ))
}
