//! The credentials that a protection space takes.
ghost use Rattle.std.specs.Prelude.{◌≡◌, ◌≤◌, ◌&&◌, IfOk, bytes_eq, length, option_copied};
ghost use Rattle.std.specs.List.{list_any};
ghost use Rattle.std.specs.Option.{option_map};
ghost use Rattle.auth_decide.specs.Candidates.{offers_kind, offers_qop, is_offered, user_of, with_secret, candidate_of};

use auth_grammar::{Octets, OutOfMemory};
use auth_hash::{HexText, Qop};
use cred_store::Store;
use digest_fields::{DigestCredentials, Kind, UserName};
use nonce_shard::Prime;
use spaces_map::{Offer, OfferKind, Space};
use std::fmt;

/// Credentials that only the response and the nonce table decide on: their realm, kind and quality of protection are
/// offered, and their user has a secret. `Debug` prints none of it.
#[derive(Drop)]
pub struct Candidate {
    pub credentials: DigestCredentials,
    /// The user's name, also where the credentials have its hash.
    pub user: Octets,
    /// H(name:realm:password) of the user (RFC 7616 section 3.4.2).
    pub secret: HexText,
}

impl fmt::Debug for Candidate {
    fn fmt<W: fmt::Write>(&self, f: &mut fmt::Formatter<W>) -> fmt::Result {
        f.write_str("Candidate { ... }")
    }
}

impl Candidate {
    /// The client's own nonce, by which a session begins.
    pub(crate) fn own_prime(&self) -> Prime
        ensures { result.items ≡ self.now.credentials.cnonce }
    {
        prime_of(self.cnonce())
    }

    fn cnonce(&self) -> &[u8]
        ensures value { result.now ≡ self.now.credentials.cnonce }
        ensures short { length result.now ≤ 128 }
    {
        self.credentials.cnonce.bytes()
    }
}

/// The prime of these bytes.
pub(crate) fn prime_of(bytes: &[u8]) -> Prime
    requires { length bytes.now ≤ 128 }
    ensures { result.items ≡ bytes.now }
{
    let mut prime = Prime::new();
    let _ = prime.try_extend_from_slice(bytes);
    prime
}

/// Whether an offer is of a kind.
fn offers_kind(offer: OfferKind, kind: Kind) -> bool
    ensures { result ≡ offers_kind offer kind }
{
    match offer {
        OfferKind::Digest { alg, session } => alg.is(kind.alg) && session == kind.session,
        OfferKind::ScramSha256 => false,
    }
}

/// Whether an offer has a quality of protection.
fn offers_qop(offer: &Offer, qop: Qop) -> bool
    ensures { result ≡ offers_qop offer.now qop }
{
    match qop {
        Qop::Auth => true,
        Qop::AuthInt => offer.auth_int,
    }
}

/// Whether an offer takes credentials of this kind and quality of protection.
fn takes(offer: &Offer, kind: Kind, qop: Qop) -> bool
    ensures { result ≡ (offers_kind offer.now.kind kind && offers_qop offer.now qop) }
{
    offers_kind(offer.kind, kind) && offers_qop(offer, qop)
}

fn some_takes(offers: &[Offer], kind: Kind, qop: Qop) -> bool
    ensures { result ≡ list_any (λ offer. offers_kind offer.kind kind && offers_qop offer qop) offers.now }
{
    offers.iter().any(|offer| takes(offer, kind, qop))
}

/// Whether the space has the credentials' realm, and an offer of their kind and quality of protection.
fn is_offered(space: &Space, credentials: &DigestCredentials) -> bool
    ensures { result ≡ is_offered space.now credentials.now }
{
    has_realm(space, credentials)
        && some_takes(space.offers.as_slice(), credentials.kind, credentials.qop)
}

fn has_realm(space: &Space, credentials: &DigestCredentials) -> bool
    ensures { result ≡ bytes_eq credentials.now.realm space.now.realm }
{
    credentials.realm.bytes() == space.realm.bytes()
}

/// The user that is named, or whose name has this hash.
fn user_of<'s>(store: &'s Store, credentials: &'s DigestCredentials) -> Option<&'s Octets>
    ensures { option_copied result ≡ user_of store.now credentials.now credentials.now.user }
{
    match &credentials.user {
        UserName::Plain(name) => Some(name),
        UserName::Hashed(hash) => store.by_userhash(
            credentials.kind.alg,
            credentials.realm.bytes(),
            hash.bytes(),
        ),
    }
}

/// The user with its secret, where the space offers to take the credentials and the store has the secret.
fn known_user(
    space: &Space,
    store: &Store,
    credentials: &DigestCredentials,
) -> Result<Option<(Octets, HexText)>, OutOfMemory>
    ensures { IfOk result (λ known. option_map (λ user. with_secret credentials.now user.0 user.1) known
        ≡ candidate_of space.now store.now credentials.now) }
{
    if !is_offered(space, credentials) {
        return Ok(None);
    }
    let Some(user) = user_of(store, credentials) else {
        return Ok(None);
    };
    let alg = credentials.kind.alg;
    match store.secret(user.bytes(), credentials.realm.bytes(), alg) {
        None => Ok(None),
        Some(secret) => Ok(Some((user.copy()?, secret))),
    }
}

/// The credentials with their user and its secret, where the space offers to take them and the store has the secret.
pub(crate) fn candidate_of(
    space: &Space,
    store: &Store,
    credentials: DigestCredentials,
) -> Result<Option<Candidate>, OutOfMemory>
    ensures { IfOk result (λ candidate. candidate ≡ candidate_of space.now store.now credentials) }
{
    match known_user(space, store, &credentials)? {
        None => Ok(None),
        Some((user, secret)) => Ok(Some(Candidate {
            credentials,
            user,
            secret,
        })),
    }
}
