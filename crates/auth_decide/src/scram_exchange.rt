//! What a client's last message proves in an exchange.
ghost use Rattle.std.specs.Prelude.{◌≡◌, ◌∷◌, ◌++◌, IfOk};
ghost use Rattle.nonce_shard.specs.Names.{name_text};
ghost use Rattle.scram_proof.specs.Exchange.{auth_message};
ghost use Rattle.scram_text.specs.ServerFirsts.{server_first_text};
ghost use Rattle.auth_decide.specs.Exchanges.{first_parts, has_nonce, is_proof, new_exchange, recalled_user, same_flag, taken_user, user_by, user_with};

use crate::scram_message::{FinalMessage, FirstMessage};
use arrayvec::ArrayVec;
use auth_grammar::{Octets, OutOfMemory, behind};
use cred_store::Store;
use nonce_shard::{Exchange, ExchangeFlag, TableName};
use scram_proof::{SALT_LIMIT, ScramKeys, proof_matches, server_signature};
use scram_text::{ClientFirst, Flag, ScramError, ServerFirst};
use std::alloc::Global;
use std::fmt;

/// An exchange that is to be opened, and what its client is told (RFC 5802 section 5.1): the salt and the iteration
/// count of its user. `Debug` prints none of it.
#[derive(Drop)]
pub struct NewExchange {
    /// The client's nonce.
    pub nonce: Octets,
    pub exchange: Exchange,
    pub salt: ArrayVec<u8, SALT_LIMIT>,
    /// The iteration count.
    pub i: u32,
}

impl fmt::Debug for NewExchange {
    fn fmt<W: fmt::Write>(&self, f: &mut fmt::Formatter<W>) -> fmt::Result {
        f.write_str("NewExchange { ... }")
    }
}

/// A client's last message with the exchange that it names and the realm of the space. `Debug` prints none of it.
#[derive(Drop)]
pub struct Attempt {
    pub realm: Octets,
    pub sid: TableName,
    pub message: FinalMessage,
}

impl fmt::Debug for Attempt {
    fn fmt<W: fmt::Write>(&self, f: &mut fmt::Formatter<W>) -> fmt::Result {
        f.write_str("Attempt { ... }")
    }
}

/// A user that has proved itself in an exchange, and the server's signature for it. `Debug` prints none of it.
#[derive(Drop)]
pub struct ScramUser {
    pub name: Octets,
    pub sid: TableName,
    pub signature: [u8; 32],
}

impl fmt::Debug for ScramUser {
    fn fmt<W: fmt::Write>(&self, f: &mut fmt::Formatter<W>) -> fmt::Result {
        f.write_str("ScramUser { ... }")
    }
}

/// The name and the nonce that an exchange began with. `Debug` prints none of it.
#[derive(Drop)]
pub struct ExchangeParts {
    pub name: Octets,
    pub nonce: Octets,
}

impl fmt::Debug for ExchangeParts {
    fn fmt<W: fmt::Write>(&self, f: &mut fmt::Formatter<W>) -> fmt::Result {
        f.write_str("ExchangeParts { ... }")
    }
}

/// The exchange that a client's first message begins, with what its user's keys say.
pub(crate) fn new_exchange(
    message: &FirstMessage,
    keys: &ScramKeys,
) -> Result<NewExchange, OutOfMemory>
    ensures { IfOk result (λ new. new ≡ new_exchange message.now keys.now) }
{
    let mut salt = ArrayVec::new();
    let _ = salt.try_extend_from_slice(keys.salt.as_slice());
    Ok(NewExchange {
        nonce: message.nonce.copy()?,
        exchange: message.exchange.copy(),
        salt,
        i: keys.i,
    })
}

/// What a client's first message says that begins with this behind its flag, if it is one.
fn first_parts(alloc: Global, bare: &[u8]) -> Result<Option<ExchangeParts>, OutOfMemory>
    ensures { IfOk result (λ parts. parts ≡ first_parts bare.now) }
{
    let text = with_flag(alloc, bare)?;
    match ClientFirst::read(alloc, text.bytes()) {
        Ok(message) => Ok(Some(ExchangeParts {
            name: message.name,
            nonce: message.nonce,
        })),
        Err(error) => match error {
            ScramError::OutOfMemory => Err(OutOfMemory),
            _ => Ok(None),
        },
    }
}

/// The message that has this behind the flag `n`.
fn with_flag(alloc: Global, bare: &[u8]) -> Result<Octets, OutOfMemory>
    ensures { IfOk result (λ text. text ≡ 110 ∷ 44 ∷ 44 ∷ bare.now) }
{
    let mut text = Octets::of(alloc, b"n,,")?;
    text.extend(bare)?;
    Ok(text)
}

/// The server's first message in an exchange of this name (RFC 5802 section 7).
pub(crate) fn server_first(
    alloc: Global,
    nonce: &[u8],
    sid: &TableName,
    salt: &[u8],
    i: u32,
) -> Result<Octets, OutOfMemory>
    ensures { IfOk result (λ text. text ≡ server_first_text (nonce.now ++ name_text sid.now) salt.now i) }
{
    let mut whole = Octets::of(alloc, nonce)?;
    whole.extend(&sid.text())?;
    ServerFirst::text_of(alloc, whole.bytes(), salt, i)
}

fn same_flag(flag: Flag, other: ExchangeFlag) -> bool
    ensures { result ≡ same_flag flag other }
{
    match (flag, other) {
        (Flag::N, ExchangeFlag::N) | (Flag::Y, ExchangeFlag::Y) => true,
        _ => false,
    }
}

/// Whether the proof is one of these keys over the three texts.
fn is_proof(keys: &ScramKeys, bare: &[u8], first: &[u8], without: &[u8], proof: &[u8; 32]) -> bool
    ensures { result ≡ is_proof keys.now (auth_message bare.now first.now without.now) proof.now }
{
    proof_matches(&keys.stored, bare, first, without, proof)
}

/// The user with these keys, where the proof is one of them over the texts of the exchange.
fn user_with(
    alloc: Global,
    keys: &ScramKeys,
    attempt: &Attempt,
    exchange: &Exchange,
    parts: ExchangeParts,
) -> Result<Option<ScramUser>, OutOfMemory>
    ensures { IfOk result (λ user. user ≡ user_with keys.now attempt.now exchange.now parts) }
{
    let nonce = parts.nonce.bytes();
    let first = server_first(alloc, nonce, &attempt.sid, keys.salt.as_slice(), keys.i)?;
    let bare = exchange.bare.as_slice();
    let without = attempt.message.without.bytes();
    if !is_proof(keys, bare, first.bytes(), without, &attempt.message.proof) {
        return Ok(None);
    }
    Ok(Some(ScramUser {
        signature: server_signature(&keys.server, bare, first.bytes(), without),
        sid: attempt.sid,
        name: parts.name,
    }))
}

/// The user of the exchange, where it has keys, and the flag and the proof of the message are right.
fn user_by(
    alloc: Global,
    store: &Store,
    attempt: &Attempt,
    exchange: &Exchange,
    parts: ExchangeParts,
) -> Result<Option<ScramUser>, OutOfMemory>
    ensures { IfOk result (λ user. user ≡ user_by store.now attempt.now exchange.now parts) }
{
    match store.scram(parts.name.bytes(), attempt.realm.bytes()) {
        Some(keys) if same_flag(attempt.message.flag, exchange.flag) => {
            user_with(alloc, keys, attempt, exchange, parts)
        }
        _ => Ok(None),
    }
}

/// The user that the message proves in the exchange whose one try it takes. Its nonce has to be the exchange's own.
pub(crate) fn taken_user(
    alloc: Global,
    store: &Store,
    attempt: &Attempt,
    exchange: &Exchange,
) -> Result<Option<ScramUser>, OutOfMemory>
    ensures { IfOk result (λ user. user ≡ taken_user store.now attempt.now exchange.now) }
{
    match first_parts(alloc, exchange.bare.as_slice())? {
        Some(parts) if has_nonce(attempt, &parts) => {
            user_by(alloc, store, attempt, exchange, parts)
        }
        _ => Ok(None),
    }
}

/// Whether the message has the nonce of the exchange: the client's, and then the server's, which is the exchange's name.
fn has_nonce(attempt: &Attempt, parts: &ExchangeParts) -> bool
    ensures { result ≡ has_nonce attempt.now parts.now }
{
    let sid = attempt.sid.text();
    match behind(attempt.message.nonce.bytes(), parts.nonce.bytes()) {
        Some(rest) => rest == sid.as_slice(),
        None => false,
    }
}

/// The user that the message proves again in a finished exchange.
pub(crate) fn recalled_user(
    alloc: Global,
    store: &Store,
    attempt: &Attempt,
    exchange: &Exchange,
) -> Result<Option<ScramUser>, OutOfMemory>
    ensures { IfOk result (λ user. user ≡ recalled_user store.now attempt.now exchange.now) }
{
    match first_parts(alloc, exchange.bare.as_slice())? {
        Some(parts) => user_by(alloc, store, attempt, exchange, parts),
        None => Ok(None),
    }
}
