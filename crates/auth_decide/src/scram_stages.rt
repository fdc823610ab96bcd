//! The stages of credentials of SCRAM-SHA-256.
ghost use Rattle.std.specs.Prelude.{◌≡◌, ◌<◌, IfOk, nat_eq};
ghost use Rattle.std.specs.List.{ends_with};
ghost use Rattle.nonce_shard.specs.Names.{name_text};
ghost use Rattle.auth_decide.specs.Stages.{again_stage, attempt_stage, final_stage, first_message_stage, keeping_stage, message_stage, proved_stage, reusing_stage, scram_stage, stage_after_keep, stage_after_open, stage_after_recall, stage_after_reuse, stage_after_take, stale_scram, takes_realm};

use crate::challenges::{Stale, offers_scram};
use crate::scram_exchange::{
    Attempt, NewExchange, ScramUser, new_exchange, recalled_user, taken_user,
};
use crate::scram_message::{Again, FinalMessage, FirstMessage, ScramMessage};
use crate::stages::{Purpose, Stage, challenge_stage, name_within};
use crate::verdict::Why;
use auth_grammar::{Octets, OutOfMemory};
use cred_store::Store;
use nonce_shard::{NameKind, Reply, TableName};
use spaces_map::Space;
use std::alloc::Global;

/// A new nonce is drawn for a challenge that says that the `sr` was stale.
fn stale_scram() -> Stage
    ensures { result ≡ stale_scram }
{
    Stage::Drawing(Purpose::Challenge {
        stale: Stale::Scram,
    })
}

/// The first stage, where the space offers SCRAM-SHA-256.
pub(crate) fn scram_stage(
    shards: u16,
    space: &Space,
    store: &Store,
    message: &ScramMessage,
) -> Result<Stage, OutOfMemory>
    ensures { IfOk result (λ stage. stage ≡ scram_stage shards space.now store.now message.now) }
{
    if offers_scram(space.offers.as_slice()) {
        message_stage(shards, &space.realm, store, message)
    } else {
        Ok(challenge_stage(false))
    }
}

/// The stage of a message.
fn message_stage(
    shards: u16,
    realm: &Octets,
    store: &Store,
    message: &ScramMessage,
) -> Result<Stage, OutOfMemory>
    ensures { IfOk result (λ stage. stage ≡ message_stage shards realm.now store.now message.now) }
{
    match message {
        ScramMessage::Absent | ScramMessage::WithoutSid => Ok(challenge_stage(false)),
        ScramMessage::Malformed => Ok(Stage::Bad(Why::Scram)),
        ScramMessage::First(message) => first_message_stage(realm.bytes(), store, message),
        ScramMessage::Final(sid, message, again) => {
            final_stage(shards, realm, name_within(shards, *sid), message, *again)
        }
    }
}

/// A client's first message of a user with keys begins an exchange.
fn first_message_stage(
    realm: &[u8],
    store: &Store,
    message: &FirstMessage,
) -> Result<Stage, OutOfMemory>
    ensures { IfOk result (λ stage. stage ≡ first_message_stage realm.now store.now message.now) }
{
    if !takes_realm(&message.realm, realm) {
        return Ok(challenge_stage(false));
    }
    match store.scram(message.name.bytes(), realm) {
        None => Ok(challenge_stage(false)),
        Some(keys) => Ok(Stage::Beginning(new_exchange(message, keys)?)),
    }
}

/// Whether a realm is that of the space, where it is there.
fn takes_realm(given: &Option<Octets>, realm: &[u8]) -> bool
    ensures { result ≡ takes_realm given.now realm.now }
{
    match given {
        None => true,
        Some(given) => given.bytes() == realm,
    }
}

/// A client's last message takes the one try of the exchange that its nonce ends with, or uses an exchange again.
fn final_stage(
    shards: u16,
    realm: &Octets,
    sid: Option<TableName>,
    message: &FinalMessage,
    again: Option<Again>,
) -> Result<Stage, OutOfMemory>
    ensures { IfOk result (λ stage. stage ≡ final_stage shards realm.now sid message.now again) }
{
    match sid {
        None => Ok(challenge_stage(false)),
        Some(sid) => Ok(attempt_stage(shards, attempt_of(realm, sid, message)?, again)),
    }
}

fn attempt_of(
    realm: &Octets,
    sid: TableName,
    message: &FinalMessage,
) -> Result<Attempt, OutOfMemory>
    ensures { IfOk result (λ attempt. attempt ≡ record { realm = realm.now; sid = sid; message = message.now }) }
{
    let message = FinalMessage {
        flag: message.flag,
        nonce: message.nonce.copy()?,
        without: message.without.copy()?,
        proof: message.proof,
    };
    Ok(Attempt {
        realm: realm.copy()?,
        sid,
        message,
    })
}

fn attempt_stage(shards: u16, attempt: Attempt, again: Option<Again>) -> Stage
    ensures { result ≡ attempt_stage shards attempt again }
{
    if ends_with_sid(&attempt) {
        Stage::Taking(attempt)
    } else {
        again_stage(shards, attempt, again)
    }
}

fn ends_with_sid(attempt: &Attempt) -> bool
    ensures { result ≡ ends_with nat_eq attempt.now.message.nonce (name_text attempt.now.sid) }
{
    attempt.message.nonce.bytes().ends_with(&attempt.sid.text())
}

fn again_stage(shards: u16, attempt: Attempt, again: Option<Again>) -> Stage
    ensures { result ≡ again_stage shards attempt again }
{
    match again {
        None => challenge_stage(false),
        Some(again) => Stage::Recalling(
            attempt,
            Again {
                count: again.count,
                sr: name_within(shards, again.sr),
            },
        ),
    }
}

/// The exchange was opened. The first of its random bytes has chosen the shard.
pub(crate) fn stage_after_open(
    shards: u16,
    new: NewExchange,
    words: [u8; 16],
    reply: &Reply,
) -> Stage
    requires { 0 < shards }
    ensures { result ≡ stage_after_open shards new words reply.now }
{
    match reply {
        Reply::Opened { serial } => Stage::Continued(
            new,
            TableName {
                kind: NameKind::Exchange,
                shard: u16::from(words[0]) % shards,
                serial: *serial,
                random: words,
            },
        ),
        _ => Stage::Mismatched,
    }
}

/// The one try was taken.
pub(crate) fn stage_after_take(
    alloc: Global,
    store: &Store,
    attempt: &Attempt,
    reply: &Reply,
) -> Result<Stage, OutOfMemory>
    ensures { IfOk result (λ stage. stage ≡ stage_after_take store.now attempt.now reply.now) }
{
    match reply {
        Reply::Taken { exchange } => {
            Ok(keeping_stage(taken_user(alloc, store, attempt, exchange)?))
        }
        Reply::Gone => Ok(challenge_stage(false)),
        _ => Ok(Stage::Mismatched),
    }
}

fn keeping_stage(user: Option<ScramUser>) -> Stage
    ensures { result ≡ keeping_stage user }
{
    match user {
        None => challenge_stage(false),
        Some(user) => Stage::Keeping(user),
    }
}

/// The exchange was to be finished. Whatever came of it, its user is admitted.
pub(crate) fn stage_after_keep(user: ScramUser, reply: &Reply) -> Stage
    ensures { result ≡ stage_after_keep user reply.now }
{
    match reply {
        Reply::Kept | Reply::Gone => Stage::Authenticated(user),
        _ => Stage::Mismatched,
    }
}

/// The finished exchange was looked up.
pub(crate) fn stage_after_recall(
    alloc: Global,
    store: &Store,
    attempt: &Attempt,
    again: Again,
    reply: &Reply,
) -> Result<Stage, OutOfMemory>
    ensures { IfOk result (λ stage. stage ≡ stage_after_recall store.now attempt.now again reply.now) }
{
    match reply {
        Reply::Session { exchange } => Ok(proved_stage(
            again,
            recalled_user(alloc, store, attempt, exchange)?,
        )),
        Reply::Gone => Ok(challenge_stage(false)),
        _ => Ok(Stage::Mismatched),
    }
}

/// The count of the `sr` is used, where the proof is right and the table may have the `sr`.
fn proved_stage(again: Again, user: Option<ScramUser>) -> Stage
    ensures { result ≡ proved_stage again user }
{
    match (user, again.sr) {
        (None, _) => challenge_stage(false),
        (Some(_), None) => stale_scram(),
        (Some(user), Some(sr)) => Stage::Reusing(user, sr, again.count),
    }
}

/// The count of the `sr` was used.
pub(crate) fn stage_after_reuse(user: ScramUser, reply: &Reply) -> Stage
    ensures { result ≡ stage_after_reuse user reply.now }
{
    match reply {
        Reply::Fresh { .. } => Stage::Authenticated(user),
        Reply::Gone | Reply::Behind { .. } | Reply::Repeated => stale_scram(),
        Reply::OtherSession => challenge_stage(false),
        _ => Stage::Mismatched,
    }
}
