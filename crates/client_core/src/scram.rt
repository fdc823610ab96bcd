//! Credentials of SCRAM-SHA-256.
ghost use Rattle.std.specs.Prelude.{◌≡◌, true, IfOk};
ghost use Rattle.auth_grammar.specs.Plain.{is_plain_name};
ghost use Rattle.auth_grammar.specs.Valid.{is_quotable_text, is_valid};
ghost use Rattle.scram_text.specs.Items.{data_param};
ghost use Rattle.client_core.specs.Writings.{is_quotable};
ghost use Rattle.client_core.specs.Cnonces.{words_text};
ghost use Rattle.client_core.specs.Scrams.{again_nonce, base64_text, can_reuse, final_item, final_text, first_bare, first_item, realm_params};

use crate::cnonce::words_text;
use crate::counts::Counts;
use crate::state::{Exchange, First, Reuse, ScramChoice};
use auth_grammar::{Item, Octets, OutOfMemory, Param, ParamList};
use itoa::Buffer;
use scram_proof::client_proof;
use scram_text::{ClientFinal, ClientFirst, Flag, data_param, push_base64, scram_item};
use std::alloc::Global;

/// The client's first message.
pub(crate) fn first_of(alloc: Global, name: &[u8], words: &[u8; 16]) -> Result<First, OutOfMemory>
    requires { is_plain_name name.now ≡ true }
    ensures { IfOk result (λ first. first ≡ record { nonce = words_text words.now; bare = first_bare name.now words.now }) }
{
    let nonce = words_text(words);
    let message = ClientFirst::new(alloc, Flag::N, name, &nonce)?;
    Ok(First {
        nonce,
        bare: message.bare.copy()?,
    })
}

/// The item with the client's first message.
pub(crate) fn first_item(
    alloc: Global,
    choice: &ScramChoice,
    first: &First,
) -> Result<Item, OutOfMemory>
    ensures item { IfOk result (λ item. item ≡ first_item choice.now.realm first.now.bare) }
    ensures valid { IfOk result (λ item. is_quotable choice.now.realm ≡ true → is_valid item ≡ true) }
{
    let mut text = Octets::of(alloc, b"n,,")?;
    text.extend(first.bare.bytes())?;
    let mut params = realm_params(alloc, &choice.realm)?;
    params.push(quotable_data(alloc, text.bytes())?)?;
    scram_item(alloc, params)
}

/// The realm that the challenge had.
fn realm_params(alloc: Global, realm: &Option<Octets>) -> Result<ParamList, OutOfMemory>
    ensures { IfOk result (λ params. params ≡ realm_params realm.now) }
{
    let mut params = ParamList::new(alloc);
    if let Some(realm) = realm {
        params.push(Param::of(alloc, b"realm", realm.bytes())?)?;
    }
    Ok(params)
}

/// The item with a client-final message of this nonce.
pub(crate) fn final_item(
    alloc: Global,
    exchange: &Exchange,
    nonce: &[u8],
) -> Result<Item, OutOfMemory>
    ensures item { IfOk result (λ item. item ≡ final_item exchange.now nonce.now) }
    ensures valid { IfOk result (λ item. is_quotable_text exchange.now.sid ≡ true → is_valid item ≡ true) }
{
    let text = final_text(alloc, exchange, nonce)?;
    let mut params = ParamList::new(alloc);
    params.push(Param::of(alloc, b"sid", exchange.sid.bytes())?)?;
    params.push(quotable_data(alloc, text.bytes())?)?;
    scram_item(alloc, params)
}

/// A client-final message (RFC 5802 section 7).
fn final_text(alloc: Global, exchange: &Exchange, nonce: &[u8]) -> Result<Octets, OutOfMemory>
    ensures { IfOk result (λ text. text ≡ final_text exchange.now nonce.now) }
{
    let mut text = ClientFinal::without(alloc, Flag::N, nonce)?;
    let proof = client_proof(
        &exchange.salted,
        exchange.bare.bytes(),
        exchange.first.bytes(),
        text.bytes(),
    );
    text.extend(b",p=")?;
    push_base64(alloc, &mut text, &proof)?;
    Ok(text)
}

/// The nonce with which an exchange is used again (RFC 7804 section 5.1).
pub(crate) fn again_nonce(
    alloc: Global,
    sr: &Octets,
    count: u32,
    words: &[u8; 16],
) -> Result<Octets, OutOfMemory>
    ensures { IfOk result (λ nonce. nonce ≡ again_nonce sr.now count words.now) }
{
    let mut nonce = Octets::of(alloc, &words_text(words))?;
    nonce.extend(Buffer::new().format(count).as_bytes())?;
    nonce.extend(sr.bytes())?;
    Ok(nonce)
}

/// Whether the `sr` is still good, and has a count left.
pub(crate) fn can_reuse(drawn: &Counts, reuse: &Reuse, moment: u64) -> bool
    ensures { result ≡ can_reuse drawn.now reuse.now moment }
{
    let ends = reuse.since as u128 + reuse.ttl as u128;
    (moment as u128) < ends && drawn.of(&reuse.sr) < u32::MAX
}

/// The parameter with a message, which a quoted string can hold.
fn quotable_data(alloc: Global, message: &[u8]) -> Result<Param, OutOfMemory>
    ensures param { IfOk result (λ made. made ≡ data_param message.now) }
    ensures quotable { IfOk result (λ made. is_quotable_text (base64_text message.now) ≡ true) }
{
    data_param(alloc, message)
}
