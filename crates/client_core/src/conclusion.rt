//! What a response means, by what its fields say.
ghost use Rattle.std.specs.Prelude.{◌≡◌, ◌<◌, ◌^◌, IfOk, bytes_eq, length, option_map, slice_get};
ghost use Rattle.auth_grammar.specs.Names.{params_of};
ghost use Rattle.auth_hash.specs.Qop.{qop_name};
ghost use Rattle.digest_fields.specs.Credentials.{credentials_of};
ghost use Rattle.digest_fields.specs.Info.{info_of};
ghost use Rattle.client_core.specs.Readings.{IsFew};
ghost use Rattle.client_core.specs.Conclusions.{absent_or, after_digest, agrees, answered_body, begun, challenged, chosen_from, concluded, digest_choosing, digest_chosen, digest_informed, informed, is_renewal, mutual_change, no_offer, renewed, right_value, same_kind, scram_choosing, told, unproved};

use crate::choice::{Choice, choose, offered};
use crate::digest::secret_with;
use crate::hearing::Heard;
use crate::outcome::Outcome;
use crate::reading::Said;
use crate::request::{OutRequest, Sent};
use crate::scram_conclusion::{after_again, after_first, again_told, final_told, reuse_of};
use crate::state::{Change, Chosen, DigestChoice, ScramChoice, State, User};
use auth_grammar::{Item, ItemList, Octets, OutOfMemory, ParamList, value_of};
use auth_hash::{Qop, same_bytes};
use digest_fields::{DigestChallenge, DigestCredentials, DigestInfo, FieldError, Kind, Nc};
use digest_formulas::rspauth;
use http_wire::Response;
use std::alloc::Global;

/// How many stale answers in a row are taken.
const STALE_LIMIT: u32 = 2;

/// What a response means, and what it changes.
#[derive(Drop)]
pub(crate) struct Conclusion {
    pub outcome: Outcome,
    pub change: Change,
}

/// A conclusion.
pub(crate) fn conclude(outcome: Outcome, change: Change) -> Conclusion
    ensures { result ≡ record { outcome = outcome; change = change } }
{
    Conclusion { outcome, change }
}

impl State {
    /// What a response means that says this.
    pub(crate) fn conclude(
        &self,
        alloc: Global,
        request: &OutRequest,
        sent: &Sent,
        response: &Response,
        moment: u64,
        said: &Said,
        heard: &Heard,
    ) -> Result<Conclusion, OutOfMemory>
        requires { IsFew said.now }
        ensures { IfOk result (λ c. c ≡ concluded self.now request.now sent.now response.now moment said.now heard.now) }
    {
        match said {
            Said::Malformed { at } => Ok(conclude(Outcome::Malformed { at: *at }, Change::Keep)),
            Said::Challenge(items) => challenged(alloc, self, sent, items, moment, heard),
            Said::Nothing => Ok(unproved(sent)),
            Said::Info(params) => informed(alloc, self, request, sent, response, params, heard),
        }
    }
}

/// What a challenge means in answer to these credentials.
fn challenged(
    alloc: Global,
    state: &State,
    sent: &Sent,
    items: &ItemList,
    moment: u64,
    heard: &Heard,
) -> Result<Conclusion, OutOfMemory>
    requires { length items.now < 2 ^ 32 }
    ensures { IfOk result (λ c. c ≡ challenged state.now sent.now items.now moment heard.now) }
{
    match sent {
        Sent::Nothing => chosen_from(alloc, items, moment),
        Sent::Digest(_) => after_digest(alloc, state, items),
        Sent::ScramFirst(_) => after_first(state, items, heard),
        Sent::ScramFinal(_) => Ok(conclude(Outcome::Refused, Change::Forget)),
        Sent::ScramAgain(_) => after_again(items, moment),
    }
}

/// What a challenge means to a request without credentials.
fn chosen_from(alloc: Global, items: &ItemList, moment: u64) -> Result<Conclusion, OutOfMemory>
    requires { length items.now < 2 ^ 32 }
    ensures { IfOk result (λ c. c ≡ chosen_from items.now moment) }
{
    match choose(items) {
        Choice::Digest { at } => digest_choosing(alloc, items, at as usize),
        Choice::Scram { at } => scram_choosing(items, moment, at as usize),
        Choice::Nothing => Ok(no_offer(items)),
    }
}

/// Nothing is answered.
fn no_offer(items: &ItemList) -> Conclusion
    requires { length items.now < 2 ^ 32 }
    ensures { result ≡ no_offer items.now }
{
    let kinds = items.len() as u32;
    conclude(Outcome::NoOffer { kinds }, Change::Keep)
}

/// The challenge of Digest at that place is answered.
fn digest_choosing(alloc: Global, items: &ItemList, at: usize) -> Result<Conclusion, OutOfMemory>
    requires { length items.now < 2 ^ 32 }
    ensures { IfOk result (λ c. c ≡ digest_choosing items.now (digest_chosen items.now at)) }
{
    match digest_at(alloc, items, at)? {
        Some(chosen) => Ok(conclude(Outcome::Retry, Change::Choose(chosen))),
        None => Ok(no_offer(items)),
    }
}

/// The challenge of SCRAM-SHA-256 at that place is answered.
fn scram_choosing(items: &ItemList, moment: u64, at: usize) -> Result<Conclusion, OutOfMemory>
    requires { length items.now < 2 ^ 32 }
    ensures { IfOk result (λ c. c ≡ scram_choosing items.now moment (slice_get items.now at)) }
{
    let Some(item) = items.get(at) else {
        return Ok(no_offer(items));
    };
    let params = item.rest.params();
    let realm = match value_of(params, b"realm") {
        Some(realm) => Some(realm.copy()?),
        None => None,
    };
    let reuse = reuse_of(params, moment)?;
    Ok(conclude(Outcome::Retry, Change::Begin(ScramChoice { realm }, reuse)))
}

/// The challenge of Digest at that place.
fn digest_at(alloc: Global, items: &ItemList, at: usize) -> Result<Option<Chosen>, OutOfMemory>
    ensures { IfOk result (λ chosen. chosen ≡ digest_chosen items.now at) }
{
    let Some(item) = items.get(at) else {
        return Ok(None);
    };
    match offered(alloc, item)? {
        Some(challenge) => Ok(Some(Chosen::Digest(begun(challenge)?))),
        None => Ok(None),
    }
}

/// A challenge with its own nonce.
fn begun(challenge: DigestChallenge) -> Result<DigestChoice, OutOfMemory>
    ensures { IfOk result (λ choice. choice ≡ begun challenge) }
{
    let nonce = Some(challenge.nonce.copy()?);
    Ok(DigestChoice {
        challenge,
        nonce,
        prime: None,
    })
}

/// What a challenge means in answer to credentials of Digest.
fn after_digest(alloc: Global, state: &State, items: &ItemList) -> Result<Conclusion, OutOfMemory>
    ensures { IfOk result (λ c. c ≡ after_digest state.now items.now) }
{
    let refused = conclude(Outcome::Refused, Change::Forget);
    let Chosen::Digest(choice) = &state.choice else {
        return Ok(refused);
    };
    if state.stale >= STALE_LIMIT {
        return Ok(refused);
    }
    match renewed(alloc, &choice.challenge, items.as_slice())? {
        Some(nonce) => Ok(conclude(Outcome::Retry, Change::Renew(nonce))),
        None => Ok(refused),
    }
}

/// The nonce of the first item that says the last one was stale.
fn renewed(
    alloc: Global,
    challenge: &DigestChallenge,
    items: &[Item],
) -> Result<Option<Octets>, OutOfMemory>
    ensures { IfOk result (λ nonce. nonce ≡ renewed challenge.now items.now) }
{
    for item in items {
        if let Some(other) = offered(alloc, item)? {
            if is_renewal(challenge, &other) {
                return Ok(Some(other.nonce.copy()?));
            }
        }
    }
    Ok(None)
}

/// Whether the other challenge says that only the nonce was stale (RFC 7616 section 3.3).
fn is_renewal(challenge: &DigestChallenge, other: &DigestChallenge) -> bool
    ensures { result ≡ is_renewal challenge.now other.now }
{
    other.stale
        && challenge.realm.bytes() == other.realm.bytes()
        && same_kind(challenge.kind, other.kind)
}

/// Whether two kinds are one.
fn same_kind(a: Kind, b: Kind) -> bool
    ensures { result ≡ same_kind a b }
{
    a.alg.is(b.alg) && (if a.session { b.session } else { !b.session })
}

/// What a response that is no challenge means, where the server says nothing of what was sent.
fn unproved(sent: &Sent) -> Conclusion
    ensures { result ≡ unproved sent.now }
{
    match sent {
        Sent::ScramFirst(_) | Sent::ScramFinal(_) => conclude(Outcome::OneWay, Change::Fail),
        _ => conclude(Outcome::OneWay, Change::Pass),
    }
}

/// What a response that is no challenge means, where the server says this of what was sent.
fn informed(
    alloc: Global,
    state: &State,
    request: &OutRequest,
    sent: &Sent,
    response: &Response,
    params: &ParamList,
    heard: &Heard,
) -> Result<Conclusion, OutOfMemory>
    ensures { IfOk result (λ c. c ≡ informed state.now request.now sent.now response.now params.now heard.now) }
{
    match sent {
        Sent::Digest(item) => {
            let body = answered_body(request, response);
            digest_informed(alloc, &state.user, body, item, params)
        }
        Sent::ScramFinal(_) => final_told(alloc, state, params.as_slice(), heard),
        Sent::ScramAgain(_) => again_told(alloc, state, params.as_slice(), heard),
        Sent::Nothing | Sent::ScramFirst(_) => Ok(conclude(Outcome::WrongProof, Change::Fail)),
    }
}

/// What it means in answer to credentials of Digest.
fn digest_informed(
    alloc: Global,
    user: &User,
    body: &[u8],
    item: &Item,
    params: &ParamList,
) -> Result<Conclusion, OutOfMemory>
    ensures { IfOk result (λ c. c ≡ digest_informed user.now body.now (credentials_of (params_of item.now.rest)) (info_of params.now)) }
{
    let info = match DigestInfo::from_params(alloc, params) {
        Ok(info) => info,
        Err(FieldError::OutOfMemory) => return Err(OutOfMemory),
        Err(_) => return Ok(conclude(Outcome::Malformed { at: 0 }, Change::Keep)),
    };
    let credentials = match DigestCredentials::from_item(alloc, item) {
        Ok(credentials) => credentials,
        Err(FieldError::OutOfMemory) => return Err(OutOfMemory),
        Err(_) => return Ok(conclude(Outcome::WrongProof, Change::Fail)),
    };
    Ok(told(user, body, &credentials, info))
}

/// The body that the server's value covers: that of a response to HEAD counts as empty.
fn answered_body<'r>(request: &OutRequest, response: &'r Response) -> &'r [u8]
    ensures { result.now ≡ answered_body request.now response.now }
{
    if request.method.bytes() == b"HEAD".as_slice() {
        b""
    } else {
        response.body.bytes()
    }
}

/// What it means that the server says this of the credentials.
fn told(user: &User, body: &[u8], credentials: &DigestCredentials, info: DigestInfo) -> Conclusion
    ensures { result ≡ told user.now body.now credentials.now info info.rspauth }
{
    let Some(value) = &info.rspauth else {
        return conclude(Outcome::OneWay, Change::Pass);
    };
    if !is_right(user, body, credentials, value) || !agrees(&info, credentials) {
        return conclude(Outcome::WrongProof, Change::Fail);
    }
    conclude(Outcome::Mutual, mutual_change(info.nextnonce))
}

/// Whether the value is that of RFC 7616 section 3.5 for these credentials.
fn is_right(user: &User, body: &[u8], credentials: &DigestCredentials, value: &Octets) -> bool
    ensures { result ≡ bytes_eq value.now (right_value user.now credentials.now body.now) }
{
    let secret = secret_with(
        user,
        credentials.kind,
        credentials.realm.bytes(),
        credentials.nonce.bytes(),
        credentials.cnonce.bytes(),
    );
    let right = rspauth(
        credentials.kind.alg,
        &secret,
        credentials.nonce.bytes(),
        &credentials.nc.text,
        credentials.cnonce.bytes(),
        credentials.qop,
        credentials.uri.bytes(),
        body,
    );
    same_bytes(value.bytes(), right.bytes())
}

/// Whether what the server repeats of the credentials is as it was sent.
fn agrees(info: &DigestInfo, credentials: &DigestCredentials) -> bool
    ensures { result ≡ agrees info.now credentials.now }
{
    same_qop(&info.qop, credentials.qop)
        && absent_or(&info.cnonce, credentials.cnonce.bytes())
        && same_nc(&info.nc, credentials.nc)
}

fn same_qop(given: &Option<Qop>, sent: Qop) -> bool
    ensures { result ≡ absent_or (option_map qop_name given.now) (qop_name sent) }
{
    match given {
        Some(given) => given.name() == sent.name(),
        None => true,
    }
}

fn same_nc(given: &Option<Nc>, sent: Nc) -> bool
    ensures { result ≡ absent_or given.now sent }
{
    match given {
        Some(given) => given.text.as_slice() == sent.text.as_slice(),
        None => true,
    }
}

/// Whether a value is absent, or it is this one.
fn absent_or(given: &Option<Octets>, value: &[u8]) -> bool
    ensures { result ≡ absent_or given.now value.now }
{
    match given {
        Some(given) => given.bytes() == value,
        None => true,
    }
}

/// The server's next nonce is used from now on.
fn mutual_change(nextnonce: Option<Octets>) -> Change
    ensures { result ≡ mutual_change nextnonce }
{
    match nextnonce {
        Some(nonce) => Change::PassTo(nonce),
        None => Change::Pass,
    }
}
