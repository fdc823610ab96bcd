//! The stages of a decision: the first one, and what each answer leads on to.
ghost use Rattle.std.specs.Prelude.{◌≡◌, ◌<◌, IfOk, option_copied};
ghost use Rattle.std.specs.Option.{option_map_or};
ghost use Rattle.auth_decide.specs.Decisions.{Calls, Draws};
ghost use Rattle.auth_decide.specs.Stages.{challenge_stage, right_stage, response_stage, name_within, candidate_stage, taken_stage, digest_stage, mode_stage, presented_stage, stage_after_words, stage_after_issue, stage_after_peek, admitted_stage, stage_after_use, stage_after_reply};

use crate::candidate::{Candidate, candidate_of, prime_of};
use crate::challenges::Stale;
use crate::credentials::{Presented, RequestCredentials};
use crate::paths::correspond;
use crate::scram_exchange::{Attempt, NewExchange, ScramUser};
use crate::scram_message::Again;
use crate::scram_stages::{
    scram_stage, stage_after_keep, stage_after_open, stage_after_recall, stage_after_reuse,
    stage_after_take,
};
use crate::verdict::Why;
use crate::verified::Verified;
use auth_grammar::OutOfMemory;
use cred_store::Store;
use digest_fields::DigestCredentials;
use http_wire::Request;
use nonce_shard::{NameKind, Prime, Reply, TableName};
use spaces_map::{Mode, Space};
use std::alloc::Global;
use std::{fmt, mem};

/// From so many admitted uses of a nonce on, the next nonce is offered.
pub const NEXT_NONCE_USES: u32 = 512;

/// What a new nonce is for. `Debug` prints its name.
#[derive(Drop)]
pub enum Purpose {
    /// It is offered beside an answer that needs no user.
    Offer,
    /// It stands in a challenge, which says whether the nonce before it was stale.
    Challenge { stale: Stale },
    /// It is the one to use next, after these credentials were admitted.
    Next(Verified),
}

impl fmt::Debug for Purpose {
    fn fmt<W: fmt::Write>(&self, f: &mut fmt::Formatter<W>) -> fmt::Result {
        f.write_str(match self {
            Purpose::Offer => "Offer",
            Purpose::Challenge { .. } => "Challenge { ... }",
            Purpose::Next(_) => "Next(...)",
        })
    }
}

/// A stage of a decision: what is asked next, or how the request is answered. `Debug` prints its name.
#[derive(Drop)]
pub enum Stage {
    /// No credentials are asked for.
    Open,
    /// The request is out of form.
    Bad(Why),
    /// Random words are drawn for a new nonce.
    Drawing(Purpose),
    /// The nonce of these words is issued.
    Issuing(Purpose, [u8; 16]),
    /// This nonce is new.
    Issued(Purpose, TableName),
    /// The client's nonce that began the session of this nonce is looked up.
    Peeking(Candidate, TableName),
    /// The response is right, and the count of the nonce is used.
    Using(Verified, TableName),
    /// The count was new.
    Admitted(Verified),
    /// Random words are drawn for a new exchange.
    Beginning(NewExchange),
    /// The exchange of these words is opened.
    Opening(NewExchange, [u8; 16]),
    /// The exchange of this name is open.
    Continued(NewExchange, TableName),
    /// The one try of an exchange is taken.
    Taking(Attempt),
    /// This user has proved itself, and the exchange is finished.
    Keeping(ScramUser),
    /// A finished exchange is looked up, to be used again.
    Recalling(Attempt, Again),
    /// This user has proved itself again, and the count of the `sr` is used.
    Reusing(ScramUser, TableName, u32),
    /// This user is admitted.
    Authenticated(ScramUser),
    /// An answer was of another kind than was asked for. A caller that keeps the conditions never comes here.
    Mismatched,
}

impl fmt::Debug for Stage {
    fn fmt<W: fmt::Write>(&self, f: &mut fmt::Formatter<W>) -> fmt::Result {
        f.write_str(match self {
            Stage::Open => "Open",
            Stage::Bad(_) => "Bad(...)",
            Stage::Drawing(_) => "Drawing(...)",
            Stage::Issuing(..) => "Issuing(...)",
            Stage::Issued(..) => "Issued(...)",
            Stage::Peeking(..) => "Peeking(...)",
            Stage::Using(..) => "Using(...)",
            Stage::Admitted(_) => "Admitted(...)",
            Stage::Beginning(_) => "Beginning(...)",
            Stage::Opening(..) => "Opening(...)",
            Stage::Continued(..) => "Continued(...)",
            Stage::Taking(_) => "Taking(...)",
            Stage::Keeping(_) => "Keeping(...)",
            Stage::Recalling(..) => "Recalling(...)",
            Stage::Reusing(..) => "Reusing(...)",
            Stage::Authenticated(_) => "Authenticated(...)",
            Stage::Mismatched => "Mismatched",
        })
    }
}

/// A new nonce is drawn for a challenge.
pub(crate) fn challenge_stage(stale: bool) -> Stage
    ensures { result ≡ challenge_stage stale }
{
    let stale = if stale { Stale::Digest } else { Stale::Nothing };
    Stage::Drawing(Purpose::Challenge { stale })
}

/// The stage by a right response, whose nonce may be none that the table can have.
fn right_stage(verified: Verified, nonce: Option<TableName>) -> Stage
    ensures { result ≡ right_stage verified nonce }
{
    match nonce {
        Some(name) => Stage::Using(verified, name),
        None => challenge_stage(true),
    }
}

/// The stage by the response, which is checked before anything is marked.
fn response_stage(
    request: &Request,
    candidate: Candidate,
    prime: Prime,
    nonce: Option<TableName>,
) -> Stage
    ensures { result ≡ response_stage request.now candidate prime.items nonce }
{
    match Verified::of(request, candidate, prime) {
        Some(verified) => right_stage(verified, nonce),
        None => challenge_stage(false),
    }
}

/// A name that the table may have, since it has its shard.
pub(crate) fn name_within(shards: u16, nonce: Option<TableName>) -> Option<TableName>
    ensures { result ≡ name_within shards nonce }
{
    let name = nonce?;
    if name.shard < shards {
        Some(name)
    } else {
        None
    }
}

/// The stage of credentials that the space takes.
fn candidate_stage(request: &Request, candidate: Candidate, nonce: Option<TableName>) -> Stage
    ensures { result ≡ candidate_stage request.now candidate nonce }
{
    let own = candidate.own_prime();
    match nonce {
        Some(name) if candidate.credentials.kind.session => Stage::Peeking(candidate, name),
        _ => response_stage(request, candidate, own, nonce),
    }
}

/// The stage of credentials of Digest: first their `uri` is compared, then it is seen whether the space takes them.
fn digest_stage(
    request: &Request,
    nonce: Option<TableName>,
    space: &Space,
    store: &Store,
    credentials: DigestCredentials,
) -> Result<Stage, OutOfMemory>
    ensures { IfOk result (λ stage. stage ≡ digest_stage request.now nonce space.now store.now credentials) }
{
    if !correspond(credentials.uri.bytes(), request.target.bytes()) {
        return Ok(Stage::Bad(Why::Uri));
    }
    match candidate_of(space, store, credentials)? {
        None => Ok(challenge_stage(false)),
        Some(candidate) => Ok(candidate_stage(request, candidate, nonce)),
    }
}

/// The stage without credentials.
fn mode_stage(mode: Mode) -> Stage
    ensures { result ≡ mode_stage mode }
{
    match mode {
        Mode::Open => Stage::Open,
        Mode::Optional => Stage::Drawing(Purpose::Offer),
        Mode::Required => challenge_stage(false),
    }
}

/// The first stage in a space that asks for credentials.
fn presented_stage(
    request: &Request,
    shards: u16,
    credentials: &RequestCredentials,
    space: &Space,
    store: &Store,
    presented: Presented,
) -> Result<Stage, OutOfMemory>
    ensures { IfOk result (λ stage. stage ≡ presented_stage request.now shards credentials.now space.now store.now presented) }
{
    match presented {
        Presented::Nothing => Ok(mode_stage(space.mode)),
        Presented::Malformed(why) => Ok(Stage::Bad(why)),
        Presented::OtherScheme => Ok(challenge_stage(false)),
        Presented::Digest(digest) => {
            let nonce = name_within(shards, credentials.nonce);
            digest_stage(request, nonce, space, store, digest)
        }
        Presented::Scram => scram_stage(shards, space, store, &credentials.scram),
    }
}

/// The first stage, in the space that asks for credentials, if there is one.
pub(crate) fn first_stage(
    request: &Request,
    shards: u16,
    credentials: &RequestCredentials,
    space: Option<&Space>,
    store: &Store,
    presented: Presented,
) -> Result<Stage, OutOfMemory>
    ensures { IfOk result (λ stage. stage
        ≡ option_map_or (λ space. presented_stage request.now shards credentials.now space store.now presented)
        (option_copied space.entry) Stage.Open) }
{
    match space {
        None => Ok(Stage::Open),
        Some(space) => presented_stage(request, shards, credentials, space, store, presented),
    }
}

/// Random words are those of the nonce that is issued, or of the exchange that is opened.
pub(crate) fn stage_after_words(stage: Stage, words: [u8; 16]) -> Stage
    requires { Draws stage }
    ensures { result ≡ stage_after_words stage words }
{
    match stage {
        Stage::Drawing(purpose) => Stage::Issuing(purpose, words),
        Stage::Beginning(new) => Stage::Opening(new, words),
        _ => unreachable!(),
    }
}

/// The nonce was issued. The first of its random bytes has chosen the shard.
fn stage_after_issue(shards: u16, purpose: Purpose, words: [u8; 16], reply: &Reply) -> Stage
    requires { 0 < shards }
    ensures { result ≡ stage_after_issue shards purpose words reply.now }
{
    match reply {
        Reply::Issued { serial } => Stage::Issued(
            purpose,
            TableName {
                kind: NameKind::Nonce,
                shard: u16::from(words[0]) % shards,
                serial: *serial,
                random: words,
            },
        ),
        _ => Stage::Mismatched,
    }
}

/// The client's nonce that began the session was looked up; where none has begun it is that of the request.
fn stage_after_peek(
    request: &Request,
    candidate: Candidate,
    nonce: TableName,
    reply: &Reply,
) -> Stage
    ensures { result ≡ stage_after_peek request.now candidate nonce reply.now }
{
    let (prime, name) = match reply {
        Reply::Prime { prime: Some(prime) } => (prime_of(prime.as_slice()), Some(nonce)),
        Reply::Prime { prime: None } => (candidate.own_prime(), Some(nonce)),
        Reply::Gone => (candidate.own_prime(), None),
        _ => return Stage::Mismatched,
    };
    response_stage(request, candidate, prime, name)
}

/// The count was new, and `uses` is how many counts of the nonce are used now.
fn admitted_stage(verified: Verified, uses: u32) -> Stage
    ensures { result ≡ admitted_stage verified uses }
{
    if uses < NEXT_NONCE_USES {
        Stage::Admitted(verified)
    } else {
        Stage::Drawing(Purpose::Next(verified))
    }
}

/// The count was used.
fn stage_after_use(verified: Verified, reply: &Reply) -> Stage
    ensures { result ≡ stage_after_use verified reply.now }
{
    let stale = match reply {
        Reply::Fresh { uses } => return admitted_stage(verified, *uses),
        Reply::Gone | Reply::Behind { .. } | Reply::Repeated => true,
        Reply::OtherSession => false,
        _ => return Stage::Mismatched,
    };
    challenge_stage(stale)
}

/// The call of a stage had this reply.
pub(crate) fn stage_after_reply(
    alloc: Global,
    request: &Request,
    store: &Store,
    shards: u16,
    stage: Stage,
    reply: &Reply,
) -> Result<Stage, OutOfMemory>
    requires some { 0 < shards }
    requires calls { Calls stage }
    ensures { IfOk result (λ next. next ≡ stage_after_reply request.now store.now shards stage reply.now) }
{
    match stage {
        Stage::Issuing(purpose, words) => Ok(stage_after_issue(shards, purpose, words, reply)),
        Stage::Peeking(candidate, nonce) => Ok(stage_after_peek(request, candidate, nonce, reply)),
        Stage::Using(verified, _) => Ok(stage_after_use(verified, reply)),
        Stage::Opening(new, words) => Ok(stage_after_open(shards, new, words, reply)),
        Stage::Taking(attempt) => stage_after_take(alloc, store, &attempt, reply),
        Stage::Keeping(user) => Ok(stage_after_keep(user, reply)),
        Stage::Recalling(attempt, again) => stage_after_recall(
            alloc, store, &attempt, again, reply,
        ),
        Stage::Reusing(user, _, _) => Ok(stage_after_reuse(user, reply)),
        _ => unreachable!(),
    }
}

/// Puts a stage in the place of a mismatch, which holds nothing to let go.
pub(crate) fn put(place: &mut Stage, stage: Stage)
    requires { place.old ≡ Stage.Mismatched }
    ensures { place.new ≡ stage }
{
    mem::forget(mem::replace(place, stage));
}
