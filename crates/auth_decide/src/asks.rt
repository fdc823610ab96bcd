//! What each stage of a decision asks, and how it ends.
ghost use Rattle.std.specs.Prelude.{◌≡◌, ◌<◌, [], IfOk, true};
ghost use Rattle.auth_grammar.specs.Plain.{is_plain_name};
ghost use Rattle.nonce_shard.specs.Replies.{Fits};
ghost use Rattle.nonce_shard.specs.Names.{name_text};
ghost use Rattle.auth_decide.specs.Asks.{issue, peek, given_prime, use_of, open_of, take_of, keep_of, recall_of, reuse_of, scram_admission, admission, verdict_with, ask_at};
ghost use Rattle.auth_decide.specs.Decisions.{AsksWithin, FitsTable};
ghost use Rattle.auth_decide.specs.Stages.{shard_for};

use crate::candidate::prime_of;
use crate::challenges::{Stale, continue_item, items_of, nonce_kind};
use crate::info::{proof_of, scram_proof_of};
use crate::scram_exchange::{NewExchange, ScramUser};
use crate::stages::{Purpose, Stage};
use crate::verdict::{Ask, Verdict};
use crate::verified::Verified;
use auth_grammar::{ItemList, OutOfMemory, Role};
use nonce_shard::{Call, NonceKind, Prime, TableName, What};
use spaces_map::Space;
use std::alloc::Global;

/// A call of a shard of the table.
fn table(shard: u16, call: Call) -> Ask
    ensures { result ≡ Ask.Table shard call }
{
    Ask::Table { shard, call }
}

/// The shard that the first random byte of a new name chooses.
fn shard_for(words: &[u8; 16], shards: u16) -> u16
    requires { 0 < shards }
    ensures chosen { result ≡ shard_for shards words.now }
    ensures within { shard_for shards words.now < shards }
{
    u16::from(words[0]) % shards
}

fn issue(moment: u64, shards: u16, space: &Space, words: [u8; 16]) -> Ask
    requires { 0 < shards }
    ensures asked { result ≡ Ask.Table (shard_for shards words) (issue moment space.now words) }
    ensures within { shard_for shards words < shards }
{
    let call = Call {
        moment,
        what: What::Issue {
            kind: nonce_kind(space.offers.as_slice()),
            space: space.number,
            random: words,
        },
    };
    table(shard_for(&words, shards), call)
}

fn peek(moment: u64, space: &Space, nonce: TableName) -> Ask
    ensures { result ≡ Ask.Table nonce.shard (peek moment space.now nonce) }
{
    let call = Call {
        moment,
        what: What::Peek {
            nonce,
            space: space.number,
        },
    };
    table(nonce.shard, call)
}

/// The prime that a use gives: that of the session, and none for another kind.
fn given_prime(verified: &Verified) -> Option<Prime>
    ensures { result ≡ given_prime verified.now }
{
    if verified.candidate.credentials.kind.session {
        Some(prime_of(verified.prime.as_slice()))
    } else {
        None
    }
}

fn use_of(moment: u64, space: &Space, nonce: TableName, verified: &Verified) -> Ask
    ensures asked { result ≡ Ask.Table nonce.shard (use_of moment space.now nonce verified.now) }
    ensures fits { Fits (use_of moment space.now nonce verified.now).what }
{
    let call = Call {
        moment,
        what: What::Use {
            nonce,
            kind: NonceKind::Digest,
            space: space.number,
            count: verified.candidate.credentials.nc.number(),
            prime: given_prime(verified),
        },
    };
    table(nonce.shard, call)
}

fn open_of(moment: u64, shards: u16, space: &Space, new: &NewExchange, words: [u8; 16]) -> Ask
    requires { 0 < shards }
    ensures asked { result ≡ Ask.Table (shard_for shards words) (open_of moment space.now new.now words) }
    ensures within { shard_for shards words < shards }
{
    let call = Call {
        moment,
        what: What::Open {
            space: space.number,
            random: words,
            exchange: new.exchange.copy(),
        },
    };
    table(shard_for(&words, shards), call)
}

fn take_of(moment: u64, space: &Space, sid: TableName) -> Ask
    ensures { result ≡ Ask.Table sid.shard (take_of moment space.now sid) }
{
    let call = Call {
        moment,
        what: What::Take {
            sid,
            space: space.number,
        },
    };
    table(sid.shard, call)
}

fn keep_of(moment: u64, space: &Space, sid: TableName) -> Ask
    ensures { result ≡ Ask.Table sid.shard (keep_of moment space.now sid) }
{
    let call = Call {
        moment,
        what: What::Keep {
            sid,
            space: space.number,
        },
    };
    table(sid.shard, call)
}

fn recall_of(moment: u64, space: &Space, sid: TableName) -> Ask
    ensures { result ≡ Ask.Table sid.shard (recall_of moment space.now sid) }
{
    let call = Call {
        moment,
        what: What::Recall {
            sid,
            space: space.number,
        },
    };
    table(sid.shard, call)
}

fn reuse_of(moment: u64, space: &Space, sr: TableName, count: u32) -> Ask
    requires { 0 < count }
    ensures asked { result ≡ Ask.Table sr.shard (reuse_of moment space.now sr count) }
    ensures fits { Fits (reuse_of moment space.now sr count).what }
{
    let call = Call {
        moment,
        what: What::Use {
            nonce: sr,
            kind: NonceKind::Scram,
            space: space.number,
            count,
            prime: None,
        },
    };
    table(sr.shard, call)
}

fn scram_admission(user: &ScramUser) -> Result<Verdict, OutOfMemory>
    ensures { IfOk result (λ verdict. verdict ≡ scram_admission user.now) }
{
    Ok(Verdict::Admit {
        user: user.name.copy()?,
        proof: scram_proof_of(user),
    })
}

fn admission(verified: &Verified, next: Option<[u8; 36]>) -> Result<Verdict, OutOfMemory>
    ensures { IfOk result (λ verdict. verdict ≡ admission verified.now next) }
{
    Ok(Verdict::Admit {
        user: verified.candidate.user.copy()?,
        proof: proof_of(verified, next)?,
    })
}

/// The verdict that a new nonce is for.
fn verdict_with(
    alloc: Global,
    role: Role,
    space: &Space,
    purpose: &Purpose,
    nonce: &TableName,
) -> Result<Verdict, OutOfMemory>
    requires { is_plain_name space.now.realm ≡ true }
    ensures { IfOk result (λ verdict. verdict ≡ verdict_with role space.now purpose.now (name_text nonce.now)) }
{
    let text = nonce.text();
    match purpose {
        Purpose::Offer => Ok(Verdict::Open {
            items: items_of(alloc, role, space, &text, Stale::Nothing)?,
        }),
        Purpose::Challenge { stale } => Ok(Verdict::Challenge {
            items: items_of(alloc, role, space, &text, *stale)?,
        }),
        Purpose::Next(verified) => admission(verified, Some(text)),
    }
}

/// What is asked at a stage.
pub(crate) fn ask_at(
    alloc: Global,
    role: Role,
    moment: u64,
    shards: u16,
    space: &Space,
    stage: &Stage,
) -> Result<Ask, OutOfMemory>
    requires realm { is_plain_name space.now.realm ≡ true }
    requires some { 0 < shards }
    requires within { AsksWithin shards stage.now }
    ensures asked { IfOk result (λ ask. ask ≡ ask_at role moment shards space.now stage.now) }
    ensures fits { IfOk result (λ ask. FitsTable shards ask) }
{
    match stage {
        Stage::Open => Ok(open(alloc)),
        Stage::Bad(why) => Ok(Ask::Verdict(Verdict::Bad { why: *why })),
        Stage::Drawing(_) => Ok(Ask::Draw),
        Stage::Issuing(_, words) => Ok(issue(moment, shards, space, *words)),
        Stage::Issued(purpose, nonce) => Ok(Ask::Verdict(verdict_with(
            alloc, role, space, purpose, nonce,
        )?)),
        Stage::Peeking(_, nonce) => Ok(peek(moment, space, *nonce)),
        Stage::Using(verified, nonce) => Ok(use_of(moment, space, *nonce, verified)),
        Stage::Admitted(verified) => Ok(Ask::Verdict(admission(verified, None)?)),
        Stage::Beginning(_) => Ok(Ask::Draw),
        Stage::Opening(new, words) => Ok(open_of(moment, shards, space, new, *words)),
        Stage::Continued(new, sid) => Ok(Ask::Verdict(Verdict::Continue {
            item: continue_item(alloc, new, sid)?,
        })),
        Stage::Taking(attempt) => Ok(take_of(moment, space, attempt.sid)),
        Stage::Keeping(user) => Ok(keep_of(moment, space, user.sid)),
        Stage::Recalling(attempt, _) => Ok(recall_of(moment, space, attempt.sid)),
        Stage::Reusing(_, sr, count) => Ok(reuse_of(moment, space, *sr, *count)),
        Stage::Authenticated(user) => Ok(Ask::Verdict(scram_admission(user)?)),
        Stage::Mismatched => Ok(unasked(alloc)),
    }
}

/// The verdict where an answer was of another kind than was asked for.
fn unasked(alloc: Global) -> Ask
    ensures { result ≡ Ask.Verdict (Verdict.Challenge []) }
{
    Ask::Verdict(Verdict::Challenge {
        items: ItemList::new(alloc),
    })
}

/// The verdict where no credentials are asked for.
pub(crate) fn open(alloc: Global) -> Ask
    ensures { result ≡ Ask.Verdict (Verdict.Open []) }
{
    Ask::Verdict(Verdict::Open {
        items: ItemList::new(alloc),
    })
}
