//! Reading the line of a space.
ghost use Rattle.std.specs.Prelude.{◌≡◌, ◌≢◌, ◌∷◌, ◌++◌, ◌&&◌, not, nat_eq, ℕ, [], List, IfOk, IfSome, IfNone};
ghost use Rattle.std.specs.List.{ends_with, list_all, starts_with};
ghost use Rattle.spaces_map.specs.Kinds.{kinds_text};
ghost use Rattle.spaces_map.specs.Lines.{IsAsked, IsLine, IsTerms, is_prefix, is_visible, line_text, mode_name, terms_text};
ghost use Rattle.spaces_map.specs.declared.space.Mode.{Mode as ModeValue};
ghost use Rattle.spaces_map.specs.declared.space.Offer.{Offer as OfferValue};
ghost use Rattle.spaces_map.specs.declared.space.Space.{Space as SpaceValue};

use crate::kinds::offers_in;
use crate::space::{Mode, OfferList, Space};
use auth_grammar::{Octets, OutOfMemory, cut_at, is_plain_name};
use std::alloc::Global;

fn has_visible_bytes(text: &[u8]) -> bool
    ensures { result ≡ list_all is_visible text.now }
{
    text.iter().all(|&byte| 33 <= byte && byte <= 126)
}

fn ends_in_slash(text: &[u8]) -> bool
    ensures { result ≡ ends_with nat_eq text.now (47 ∷ []) }
{
    text.ends_with(b"/")
}

/// Whether the text begins with `/`, doesn't end in it, and has visible bytes alone.
fn is_path(text: &[u8]) -> bool
    ensures { result ≡ (starts_with nat_eq text.now (47 ∷ [])
        && (not (ends_with nat_eq text.now (47 ∷ [])) && list_all is_visible text.now)) }
{
    text.starts_with(b"/") && !ends_in_slash(text) && has_visible_bytes(text)
}

fn is_prefix(text: &[u8]) -> bool
    ensures { result ≡ is_prefix text.now }
{
    text == b"/".as_slice() || is_path(text)
}

/// What stands behind the prefix of a line.
#[derive(Drop)]
struct Terms {
    mode: Mode,
    offers: OfferList,
    realm: Octets,
}

/// The mode of this name, of those that go with kinds and a realm.
fn mode_named(name: &[u8]) -> Option<Mode>
    ensures some { IfSome result (λ mode. (name.now ≡ mode_name mode) × (mode ≢ Mode.Open)) }
    ensures none { IfNone result ((mode : ModeValue) → mode ≢ Mode.Open → name.now ≢ mode_name mode) }
{
    if name == b"optional".as_slice() {
        return Some(Mode::Optional);
    }
    if name == b"required".as_slice() {
        return Some(Mode::Required);
    }
    None
}

/// The terms of a text without a space: those of an open space, or none.
fn open_terms(alloc: Global, text: &[u8]) -> Option<Terms>
    ensures text { IfSome result (λ terms. text.now ≡ terms_text terms.mode terms.offers terms.realm) }
    ensures form { IfSome result (λ terms. IsTerms terms.mode terms.offers terms.realm) }
    ensures none { IfNone result (text.now ≢ mode_name Mode.Open) }
{
    if text != b"none".as_slice() {
        return None;
    }
    Some(Terms {
        mode: Mode::Open,
        offers: OfferList::new(alloc),
        realm: Octets::new(alloc),
    })
}

/// The offers and the realm of a space that asks for credentials.
#[derive(Drop)]
struct Asked {
    offers: OfferList,
    realm: Octets,
}

/// What a text of kinds and a realm gives, with a space between.
fn asked_in(alloc: Global, text: &[u8]) -> Result<Option<Asked>, OutOfMemory>
    ensures text { IfOk result (λ found. IfSome found (λ asked. text.now ≡ kinds_text asked.offers ++ 32 ∷ asked.realm)) }
    ensures form { IfOk result (λ found. IfSome found (λ asked. IsAsked asked.offers asked.realm)) }
    ensures none { IfOk result (λ found. IfNone found ((offers : List OfferValue) → (realm : List ℕ) → IsAsked offers realm
        → text.now ≢ kinds_text offers ++ 32 ∷ realm)) }
{
    let Some((kinds, realm)) = cut_at(text, b' ') else {
        return Ok(None);
    };
    if !is_plain_name(realm) {
        return Ok(None);
    }
    let Some(offers) = offers_in(alloc, kinds)? else {
        return Ok(None);
    };
    let realm = Octets::of(alloc, realm)?;
    Ok(Some(Asked { offers, realm }))
}

/// The terms of the text behind a prefix.
fn terms_in(alloc: Global, text: &[u8]) -> Result<Option<Terms>, OutOfMemory>
    ensures text { IfOk result (λ found. IfSome found (λ terms. text.now ≡ terms_text terms.mode terms.offers terms.realm)) }
    ensures form { IfOk result (λ found. IfSome found (λ terms. IsTerms terms.mode terms.offers terms.realm)) }
    ensures none { IfOk result (λ found. IfNone found ((mode : ModeValue) → (offers : List OfferValue) → (realm : List ℕ)
        → IsTerms mode offers realm → text.now ≢ terms_text mode offers realm)) }
{
    let Some((name, rest)) = cut_at(text, b' ') else {
        return Ok(open_terms(alloc, text));
    };
    let Some(mode) = mode_named(name) else {
        return Ok(None);
    };
    let Some(asked) = asked_in(alloc, rest)? else {
        return Ok(None);
    };
    Ok(Some(Terms {
        mode,
        offers: asked.offers,
        realm: asked.realm,
    }))
}

/// The space of a line, which is numbered 0 until its place is known.
pub(crate) fn space_in(alloc: Global, line: &[u8]) -> Result<Option<Space>, OutOfMemory>
    ensures text { IfOk result (λ found. IfSome found (λ space. line.now ≡ line_text space)) }
    ensures form { IfOk result (λ found. IfSome found (λ space. IsLine space)) }
    ensures none { IfOk result (λ found. IfNone found ((space : SpaceValue) → IsLine space → line.now ≢ line_text space)) }
{
    let Some((prefix, rest)) = cut_at(line, b' ') else {
        return Ok(None);
    };
    if !is_prefix(prefix) {
        return Ok(None);
    }
    let Some(terms) = terms_in(alloc, rest)? else {
        return Ok(None);
    };
    let prefix = Octets::of(alloc, prefix)?;
    Ok(Some(Space {
        prefix,
        mode: terms.mode,
        offers: terms.offers,
        realm: terms.realm,
        number: 0,
    }))
}
