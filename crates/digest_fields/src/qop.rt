//! The quality of protection that a challenge offers and that credentials take.
ghost use Rattle.std.specs.Prelude.{◌≡◌, ◌<◌, ◌||◌, IfOk, IfSome, IsTrue, find, length, not, option_copied, position};
ghost use Rattle.std.specs.List.{list_all};
ghost use Rattle.auth_grammar.specs.Names.{same_name};
ghost use Rattle.auth_hash.specs.Qop.{qop_name};
ghost use Rattle.digest_fields.specs.Qop.{has_part, is_blank, is_part, offer_of, past_blanks, qop_from, qop_named, qop_of};

use crate::field::{FieldError, FieldName, required};
use auth_grammar::{Param, same_name};
use auth_hash::Qop;

/// What a challenge offers.
#[derive(Drop, Clone, Copy)]
pub(crate) struct Offer {
    pub auth: bool,
    pub auth_int: bool,
}

static QOPS: [Qop; 2] = [Qop::Auth, Qop::AuthInt];

/// The quality of that name, without regard to case.
#[tactic(auto, unfolding(crate::specs::Qop::qop_named))]
fn qop_named(text: &[u8]) -> Option<Qop>
    ensures { result ≡ qop_named text.now }
{
    named_in(&QOPS, text).copied()
}

/// The first of the qualities that has that name.
fn named_in<'a>(qops: &'a [Qop], text: &[u8]) -> Option<&'a Qop>
    ensures { option_copied result ≡ find (λ qop. same_name (qop_name qop) text.now) qops.now }
{
    qops.iter().find(|qop| same_name(qop.name(), text))
}

/// The quality that credentials take.
#[tactic(auto, unfolding(crate::specs::Qop::qop_of))]
pub(crate) fn qop_of(params: &[Param]) -> Result<Qop, FieldError>
    ensures { result ≡ qop_of params.now }
{
    qop_from(required(params, FieldName::Qop)?)
}

/// The quality that a text names.
#[tactic(auto, unfolding(crate::specs::Qop::qop_from))]
pub(crate) fn qop_from(text: &[u8]) -> Result<Qop, FieldError>
    ensures { result ≡ qop_from text.now }
{
    qop_named(text).ok_or(FieldError::BadValue {
        name: FieldName::Qop,
    })
}

/// What a challenge offers.
#[tactic(auto, unfolding(crate::specs::Qop::offer_of))]
pub(crate) fn offer_of(params: &[Param]) -> Result<Offer, FieldError>
    ensures value { result ≡ offer_of params.now }
    ensures some { IfOk result (λ offer. IsTrue (offer.auth || offer.auth_int)) }
{
    let text = required(params, FieldName::Qop)?;
    let auth = has_part(text, b"auth");
    let auth_int = has_part(text, b"auth-int");
    if !auth && !auth_int {
        return Err(FieldError::BadValue {
            name: FieldName::Qop,
        });
    }
    Ok(Offer { auth, auth_int })
}

/// Whether a list has that part.
#[tactic(auto, unfolding(crate::specs::Qop::has_part))]
fn has_part(text: &[u8], name: &[u8]) -> bool
    ensures { result ≡ has_part name.now text.now }
{
    text.split(|&byte| byte == b',')
        .any(|part| is_part(part, name))
}

/// Whether a part is the name, with blanks round it.
#[tactic(auto, unfolding(crate::specs::Qop::is_part))]
fn is_part(part: &[u8], name: &[u8]) -> bool
    ensures { result ≡ is_part name.now part.now }
{
    let rest = past_blanks(part);
    rest.starts_with(name) && are_blanks(&rest[name.len()..])
}

/// The text from its first byte on that is no blank.
#[tactic(auto, unfolding(crate::specs::Qop::past_blanks))]
fn past_blanks(text: &[u8]) -> &[u8]
    ensures { result.now ≡ past_blanks text.now }
{
    match mark_at(text) {
        Some(at) => &text[at..],
        None => &[],
    }
}

/// Where the first byte stands that is no blank.
fn mark_at(text: &[u8]) -> Option<usize>
    ensures place { result ≡ position (λ byte. not (is_blank byte)) text.now }
    ensures within { IfSome result (λ at. at < length text.now) }
{
    text.iter().position(|&byte| !is_blank(byte))
}

fn are_blanks(text: &[u8]) -> bool
    ensures { result ≡ list_all is_blank text.now }
{
    text.iter().all(|&byte| is_blank(byte))
}

/// Whether a byte is a space or a tab.
#[tactic(auto, unfolding(crate::specs::Qop::is_blank))]
fn is_blank(byte: u8) -> bool
    ensures { result ≡ is_blank byte }
{
    byte == b' ' || byte == b'\t'
}
