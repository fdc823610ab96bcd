//! Challenges.
ghost use Rattle.std.specs.Prelude.{◌≡◌, ◌⊎◌, ◌<◌, IfErr, IfOk, MatchResult, is_ok, length};
ghost use Rattle.auth_grammar.specs.Names.{params_of};
ghost use Rattle.digest_fields.specs.Challenge.{IsChallenge, challenge_item, challenge_of, challenge_params, hides_names, is_stale, nonce_of, offer_text};

use crate::field::{FieldError, FieldName, copied, given, not_empty, required};
use crate::kind::Kind;
use crate::qop::offer_of;
use crate::realm::realm_of;
use crate::write::{add, add_some, add_true, digest_item};
use auth_grammar::{Item, Octets, OutOfMemory, Param, ParamList, same_name};
use std::alloc::Global;
use std::marker::Model;

/// A challenge of HTTP Digest (RFC 7616 section 3.3). Contracts see it as the record `Challenge`.
///
/// It keeps what is demanded of a challenge: the realm has at most 64 bytes, all printable, the nonce
/// isn't empty, and `auth` or `auth_int` is offered.
#[derive(Drop, Clone, PartialEq)]
pub struct DigestChallenge {
    pub realm: Octets,
    /// The protection space, as URIs with spaces between them.
    pub domain: Option<Octets>,
    pub nonce: Octets,
    pub opaque: Option<Octets>,
    /// Whether only the nonce of the refused request was at fault.
    pub stale: bool,
    pub kind: Kind,
    /// Whether `auth` is offered.
    pub auth: bool,
    /// Whether `auth-int` is offered.
    pub auth_int: bool,
    /// Whether the server takes hashed names.
    pub userhash: bool,
}

impl Model for DigestChallenge {
    ghost use Rattle.digest_fields.specs.Challenge.{Challenge, IsChallenge};

    ghost Value = { Challenge };

    ghost use Rattle.digest_fields.specs.ChallengeFields.{fields_of, challenge_seen};

    ghost view = { challenge_seen };

    ghost invariant = { λ fields. IsChallenge (challenge_seen fields) };

    ghost inverse = { fields_of };
}

impl DigestChallenge {
    /// Whether `from_item` refuses nothing in the item. It takes no memory.
    #[tactic(auto, unfolding(crate::specs::Challenge::challenge_of))]
    pub fn accepts(item: &Item) -> bool
        ensures { result ≡ is_ok (challenge_of (params_of item.now.rest)) }
    {
        let params = item.rest.params();
        realm_of(params).is_ok()
            && nonce_of(params).is_ok()
            && Kind::of(params).is_ok()
            && offer_of(params).is_ok()
    }

    /// What the item's parameters say, or the first refusal in the order realm, nonce, algorithm, qop.
    /// Others are ignored. The scheme isn't looked at, and of a name that comes twice the first counts.
    #[tactic(auto, unfolding(crate::specs::Challenge::challenge_of))]
    pub fn from_item(alloc: Global, item: &Item) -> Result<DigestChallenge, FieldError>
        ensures accepted { IfOk result (λ challenge. challenge_of (params_of item.now.rest) ≡ Ok challenge) }
        ensures refused { IfErr result (λ error. (error ≡ FieldError.OutOfMemory)
            ⊎ (challenge_of (params_of item.now.rest) ≡ Err error)) }
    {
        let params = item.rest.params();
        let realm = realm_of(params)?;
        let nonce = nonce_of(params)?;
        let kind = Kind::of(params)?;
        let offer = offer_of(params)?;
        let domain = copied(alloc, given(params, FieldName::Domain))?;
        let opaque = copied(alloc, given(params, FieldName::Opaque))?;
        Ok(DigestChallenge {
            realm: Octets::of(alloc, realm)?,
            domain,
            nonce: Octets::of(alloc, nonce)?,
            opaque,
            stale: is_stale(params),
            kind,
            auth: offer.auth,
            auth_int: offer.auth_int,
            userhash: hides_names(params),
        })
    }

    /// The challenge as an item. `from_item` reads it back.
    #[tactic(auto, using(crate::proofs::ChallengeTrip::read_back))]
    pub fn to_item(&self, alloc: Global) -> Result<Item, OutOfMemory>
        ensures text { IfOk result (λ item. item ≡ challenge_item self.now) }
        ensures read_back { IfOk result (λ item. challenge_of (params_of item.rest) ≡ Ok self.now) }
    {
        let params = self.written(alloc)?;
        digest_item(alloc, params)
    }

    /// The challenge's parameters, in the order of writing.
    #[tactic(auto, unfolding(crate::specs::Challenge::challenge_params))]
    fn written(&self, alloc: Global) -> Result<ParamList, OutOfMemory>
        ensures text { IfOk result (λ params. params ≡ challenge_params self.now) }
        ensures form { IsChallenge self.now }
    {
        let mut params = ParamList::new(alloc);
        add(alloc, &mut params, FieldName::Realm, self.realm.bytes())?;
        add_some(alloc, &mut params, FieldName::Domain, &self.domain)?;
        add(alloc, &mut params, FieldName::Nonce, self.nonce.bytes())?;
        add_some(alloc, &mut params, FieldName::Opaque, &self.opaque)?;
        add_true(alloc, &mut params, FieldName::Stale, self.stale)?;
        add(alloc, &mut params, FieldName::Algorithm, self.kind.name())?;
        let offer = offer_text(self.auth, self.auth_int);
        add(alloc, &mut params, FieldName::Qop, offer)?;
        add_true(alloc, &mut params, FieldName::Userhash, self.userhash)?;
        Ok(params)
    }
}

/// How an offer is written.
fn offer_text(auth: bool, auth_int: bool) -> &'static [u8]
    ensures { result.now ≡ offer_text auth auth_int }
{
    match (auth, auth_int) {
        (true, true) => b"auth, auth-int",
        (true, false) => b"auth",
        (false, _) => b"auth-int",
    }
}

/// The nonce, which is there and not empty.
#[tactic(auto, unfolding(crate::specs::Challenge::nonce_of))]
fn nonce_of(params: &[Param]) -> Result<&[u8], FieldError>
    ensures value { MatchResult result
        (λ nonce. nonce_of params.now ≡ Ok nonce.now)
        (λ error. nonce_of params.now ≡ Err error) }
    ensures form { IfOk result (λ nonce. 0 < length nonce.now) }
{
    let nonce = required(params, FieldName::Nonce)?;
    not_empty(FieldName::Nonce, nonce)?;
    Ok(nonce)
}

/// Whether `stale` is `true`, without regard to case.
#[tactic(auto, unfolding(crate::specs::Challenge::is_stale))]
fn is_stale(params: &[Param]) -> bool
    ensures { result ≡ is_stale params.now }
{
    match given(params, FieldName::Stale) {
        Some(text) => same_name(text, b"true"),
        None => false,
    }
}

/// Whether `userhash` is `true`.
#[tactic(auto, unfolding(crate::specs::Challenge::hides_names))]
fn hides_names(params: &[Param]) -> bool
    ensures { result ≡ hides_names params.now }
{
    match given(params, FieldName::Userhash) {
        Some(text) => text == b"true".as_slice(),
        None => false,
    }
}
