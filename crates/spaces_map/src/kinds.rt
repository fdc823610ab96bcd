//! Reading what a space offers.
ghost use Rattle.std.specs.Prelude.{◌≡◌, ◌≢◌, ◌++◌, ℕ, List, IfOk, IfSome, IfNone, false};
ghost use Rattle.spaces_map.specs.Kinds.{IsOffers, IsOther, flag_text, has_kind, kind_name, kinds_text, offer_text, same_kind, takes_flags};
ghost use Rattle.spaces_map.specs.declared.space.Offer.{Offer as OfferValue};
ghost use Rattle.spaces_map.specs.declared.space.OfferKind.{OfferKind as OfferKindValue};

use crate::space::{Offer, OfferKind, OfferList};
use auth_grammar::{OutOfMemory, before};
use auth_hash::Algorithm;
use std::alloc::Global;

/// The text without the flag at its end, and whether it was there.
fn split_flag<'t>(text: &'t [u8], flag: &[u8]) -> (&'t [u8], bool)
    ensures text { text.now ≡ result.0.now ++ flag_text flag.now result.1 }
    ensures absent { result.1 ≡ false → (front : List ℕ) → text.now ≢ front ++ flag.now }
{
    match before(text, flag) {
        Some(rest) => (rest, true),
        None => (text, false),
    }
}

/// The kind of this name.
fn kind_named(name: &[u8]) -> Option<OfferKind>
    ensures some { IfSome result (λ kind. name.now ≡ kind_name kind) }
    ensures none { IfNone result ((kind : OfferKindValue) → name.now ≢ kind_name kind) }
{
    if name == b"SCRAM-SHA-256".as_slice() {
        return Some(OfferKind::ScramSha256);
    }
    let (name, session) = split_flag(name, b"-sess");
    let Some(alg) = Algorithm::named(name) else {
        return None;
    };
    Some(OfferKind::Digest { alg, session })
}

/// The offer of a part between commas.
fn offer_in(part: &[u8]) -> Option<Offer>
    ensures some { IfSome result (λ offer. part.now ≡ offer_text offer) }
    ensures none { IfNone result ((offer : OfferValue) → part.now ≢ offer_text offer) }
{
    let (part, userhash) = split_flag(part, b"+hash");
    let (name, auth_int) = split_flag(part, b"+int");
    let Some(kind) = kind_named(name) else {
        return None;
    };
    Some(Offer {
        kind,
        auth_int,
        userhash,
    })
}

fn same_kind(a: OfferKind, b: OfferKind) -> bool
    ensures { result ≡ same_kind a b }
{
    match (a, b) {
        (
            OfferKind::Digest { alg, session },
            OfferKind::Digest {
                alg: other,
                session: by_session,
            },
        ) => { alg.is(other) && session == by_session }
        (OfferKind::ScramSha256, OfferKind::ScramSha256) => true,
        _ => false,
    }
}

/// Whether a kind may have these flags.
fn takes_flags(kind: OfferKind, auth_int: bool, userhash: bool) -> bool
    ensures { result ≡ takes_flags kind auth_int userhash }
{
    match kind {
        OfferKind::Digest { .. } => true,
        OfferKind::ScramSha256 => !auth_int && !userhash,
    }
}

/// Whether an offer is of this kind.
fn has_kind(offers: &[Offer], kind: OfferKind) -> bool
    ensures { result ≡ has_kind kind offers.now }
{
    offers.iter().any(|offer| same_kind(offer.kind, kind))
}

/// The offer of a part between commas, where its kind may have its flags and is another than each before.
fn other_offer(before: &[Offer], part: &[u8]) -> Option<Offer>
    ensures some { IfSome result (λ offer. part.now ≡ offer_text offer) }
    ensures other { IfSome result (λ offer. IsOther before.now offer) }
    ensures none { IfNone result ((offer : OfferValue) → IsOther before.now offer → part.now ≢ offer_text offer) }
{
    let Some(offer) = offer_in(part) else {
        return None;
    };
    if has_kind(before, offer.kind) {
        return None;
    }
    if !takes_flags(offer.kind, offer.auth_int, offer.userhash) {
        return None;
    }
    Some(offer)
}

/// The offers of a text of kinds.
pub(crate) fn offers_in(alloc: Global, kinds: &[u8]) -> Result<Option<OfferList>, OutOfMemory>
    ensures some { IfOk result (λ found. IfSome found (λ offers. IsOffers offers × (kinds.now ≡ kinds_text offers))) }
    ensures none { IfOk result (λ found. IfNone found ((offers : List OfferValue) → IsOffers offers → kinds.now ≢ kinds_text offers)) }
{
    let mut offers = OfferList::new(alloc);
    for part in kinds.split(|&byte| byte == b',') {
        let Some(offer) = other_offer(offers.as_slice(), part) else {
            return Ok(None);
        };
        offers.push(offer)?;
    }
    Ok(Some(offers))
}
