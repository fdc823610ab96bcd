//! Which challenge is answered.
ghost use Rattle.std.specs.Prelude.{◌≡◌, ◌<◌, ◌^◌, IfOk, IfSome, is_some, length, position};
ghost use Rattle.auth_grammar.specs.Names.{has_repeat as has_repeat_in, params_of};
ghost use Rattle.client_core.specs.Choices.{choice_of, is_digest, is_scram, offered};

use auth_grammar::{Item, ItemList, OutOfMemory, Rest, has_repeat, same_name, value_of};
use auth_hash::Algorithm;
use digest_fields::{DigestChallenge, FieldError, Kind};
use scram_text::SCRAM_SCHEME;
use std::alloc::Global;

/// Which item of a list of challenges is answered.
#[derive(Debug, Drop, Clone, Copy, PartialEq, Eq)]
pub enum Choice {
    /// None.
    Nothing,
    /// The item of Digest at this place, counted from 0.
    Digest { at: u32 },
    /// The item of SCRAM-SHA-256 at this place, counted from 0.
    Scram { at: u32 },
}

/// The item that a client answers (RFC 7616 section 3.7): of those whose parameters are accepted SCRAM-SHA-256 goes
/// before Digest, and Digest by SHA-512-256 before SHA-256 before MD5. A session variant ranks as its hash, and of
/// equals the first counts. It takes no memory.
pub(crate) fn choose(items: &ItemList) -> Choice
    requires { length items.now < 2 ^ 32 }
    ensures { result ≡ choice_of items.now }
{
    let items = items.as_slice();
    if let Some(at) = scram_at(items) {
        return Choice::Scram { at: at as u32 };
    }
    if let Some(at) = digest_at(items, Algorithm::Sha512t256) {
        return Choice::Digest { at: at as u32 };
    }
    if let Some(at) = digest_at(items, Algorithm::Sha256) {
        return Choice::Digest { at: at as u32 };
    }
    if let Some(at) = digest_at(items, Algorithm::Md5) {
        return Choice::Digest { at: at as u32 };
    }
    Choice::Nothing
}

/// Where the first item of SCRAM-SHA-256 stands that begins an exchange.
fn scram_at(items: &[Item]) -> Option<usize>
    ensures place { result ≡ position is_scram items.now }
    ensures within { IfSome result (λ at. at < length items.now) }
{
    items.iter().position(|item| is_scram(item))
}

/// Where the first item of Digest by that hash stands whose parameters are accepted.
fn digest_at(items: &[Item], alg: Algorithm) -> Option<usize>
    ensures place { result ≡ position (is_digest alg) items.now }
    ensures within { IfSome result (λ at. at < length items.now) }
{
    items.iter().position(|item| is_digest(item, alg))
}

/// Whether the item begins an exchange of SCRAM-SHA-256 (RFC 7804 section 5): it has no `sid`, and no name twice.
fn is_scram(item: &Item) -> bool
    ensures { result ≡ is_scram item.now }
{
    same_name(item.scheme.bytes(), SCRAM_SCHEME)
        && !has_doubles(&item.rest)
        && value_of(item.rest.params(), b"sid").is_none()
}

/// Whether the item is of Digest by that hash, and its parameters are accepted.
fn is_digest(item: &Item, alg: Algorithm) -> bool
    ensures { result ≡ is_digest alg item.now }
{
    is_offer(item) && kind_of(item).is_some_and(|kind| kind.alg.is(alg))
}

/// Whether the item is one of Digest whose parameters are accepted.
fn is_offer(item: &Item) -> bool
    ensures { result ≡ is_some (offered item.now) }
{
    same_name(item.scheme.bytes(), b"Digest")
        && !has_doubles(&item.rest)
        && DigestChallenge::accepts(item)
}

/// The kind that an item of Digest names, which is MD5 where it names none.
fn kind_of(item: &Item) -> Option<Kind>
    ensures { IfSome (offered item.now) (λ challenge. result ≡ Some challenge.kind) }
{
    match value_of(item.rest.params(), b"algorithm") {
        Some(name) => Kind::named(name.bytes()),
        None => Kind::named(b"MD5"),
    }
}

/// The challenge that the item is, where it is one of Digest whose parameters are accepted.
pub(crate) fn offered(alloc: Global, item: &Item) -> Result<Option<DigestChallenge>, OutOfMemory>
    ensures { IfOk result (λ challenge. challenge ≡ offered item.now) }
{
    if !is_offer(item) {
        return Ok(None);
    }
    match DigestChallenge::from_item(alloc, item) {
        Ok(challenge) => Ok(Some(challenge)),
        Err(FieldError::OutOfMemory) => Err(OutOfMemory),
        Err(_) => Ok(None),
    }
}

/// Whether a name comes twice in what stands behind a scheme.
fn has_doubles(rest: &Rest) -> bool
    ensures { result ≡ has_repeat_in (params_of rest.now) }
{
    match rest {
        Rest::Params(params) => has_repeat(params),
        _ => false,
    }
}
