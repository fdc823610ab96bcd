//! Credentials of Digest.
ghost use Rattle.std.specs.Prelude.{◌≡◌, ◌⊎◌, ◌+◌, ◌≤◌, ◌<◌, ◌^◌, ◌&&◌, true, length, IfOk, OnOk, OnErr};
ghost use Rattle.auth_grammar.specs.Plain.{is_plain_name};
ghost use Rattle.auth_grammar.specs.Valid.{is_quotable_text, is_valid};
ghost use Rattle.digest_fields.specs.Credentials.{IsCredentials, credentials_item, sent_name};
ghost use Rattle.digest_fields.specs.Name.{IsName};
ghost use Rattle.client_core.specs.Counts.{count_of, with_count};
ghost use Rattle.client_core.specs.Writings.{AreQuotable, is_quotable, is_quotable_challenge, is_quotable_draw, is_quotable_state, is_valid_sent};
ghost use Rattle.client_core.specs.Digests.{DrewAtMost, can_use, credentials_with, digest_given, next_draw, qop_of, secret_with, user_name};

use crate::cnonce::cnonce_of;
use crate::counts::Counts;
use crate::domain::lets_pass;
use crate::request::{OutRequest, Sent};
use crate::state::{Chosen, DigestChoice, State, User};
use auth_grammar::{Item, Octets, OutOfMemory, Role};
use auth_hash::{HexText, Qop};
use digest_fields::{DigestChallenge, DigestCredentials, Kind, Nc, UserName};
use digest_formulas::{ha1, response, session_ha1, user_hash};
use std::alloc::Global;

/// What is used once.
#[derive(Drop)]
pub(crate) struct Draw {
    pub nonce: Octets,
    pub count: u32,
    pub cnonce: [u8; 24],
}

impl State {
    /// Credentials of Digest for the request, where the client has a nonce for it.
    pub(crate) fn give_digest(
        &mut self,
        alloc: Global,
        request: &OutRequest,
        words: &[u8; 16],
    ) -> Result<Sent, OutOfMemory>
        requires name { is_plain_name self.old.user.name ≡ true }
        requires target { 1 ≤ length request.now.target }
        requires quotable { is_quotable_state self.old ≡ true }
        ensures ok { IfOk result (λ sent. digest_given self.old request.now words.now self.old.choice ≡ (sent, self.new)) }
        ensures err { OnErr result (DrewAtMost self.old self.new) }
        ensures user { self.new.user ≡ self.old.user }
        ensures quotable { is_quotable_state self.new ≡ true }
        ensures valid { IfOk result (λ sent. is_quotable_text request.now.target ≡ true → is_valid_sent sent ≡ true) }
    {
        let Chosen::Digest(choice) = &mut self.choice else {
            return Ok(Sent::Nothing);
        };
        let Some(nonce) = &choice.nonce else {
            return Ok(Sent::Nothing);
        };
        if !can_use(alloc, self.role, &self.drawn, choice, nonce, request)? {
            return Ok(Sent::Nothing);
        }
        let draw = next_draw(&mut self.drawn, choice, nonce, words)?;
        let item = item_with(alloc, &self.user, &choice.challenge, &draw, request)?;
        if choice.challenge.kind.session {
            choice.prime = Some(draw.cnonce);
        }
        Ok(Sent::Digest(item))
    }
}

/// Whether the nonce has a count left, and is for such a request.
fn can_use(
    alloc: Global,
    role: Role,
    drawn: &Counts,
    choice: &DigestChoice,
    nonce: &Octets,
    request: &OutRequest,
) -> Result<bool, OutOfMemory>
    ensures { IfOk result (λ fit. fit ≡ can_use role drawn.now choice.now nonce.now request.now) }
{
    Ok(drawn.of(nonce) < u32::MAX && lets_pass(alloc, role, &choice.challenge.domain, request)?)
}

/// Draws the nonce's next count.
fn next_draw(
    drawn: &mut Counts,
    choice: &DigestChoice,
    nonce: &Octets,
    words: &[u8; 16],
) -> Result<Draw, OutOfMemory>
    requires { count_of drawn.old nonce.now + 1 < 2 ^ 32 }
    ensures ok { IfOk result (λ draw. draw ≡ next_draw drawn.old choice.now nonce.now words.now) }
    ensures quotable { IfOk result (λ draw. (is_quotable_text nonce.now && is_quotable choice.now.prime) ≡ true
        → is_quotable_draw draw ≡ true) }
    ensures drawn { OnOk result (drawn.new ≡ with_count drawn.old nonce.now (count_of drawn.old nonce.now + 1)) }
    ensures err { OnErr result (drawn.new ≡ drawn.old) }
{
    let nonce = nonce.copy()?;
    let count = drawn.draw(&nonce)?;
    Ok(Draw {
        nonce,
        count,
        cnonce: cnonce_of(choice, words),
    })
}

/// The item of the credentials.
fn item_with(
    alloc: Global,
    user: &User,
    challenge: &DigestChallenge,
    draw: &Draw,
    request: &OutRequest,
) -> Result<Item, OutOfMemory>
    requires name { is_plain_name user.now.name ≡ true }
    requires count { 1 ≤ draw.now.count }
    requires target { 1 ≤ length request.now.target }
    ensures item { IfOk result (λ item. item ≡ credentials_item (credentials_with user.now challenge.now draw.now request.now)) }
    ensures valid { IfOk result (λ item. (is_quotable_challenge challenge.now && is_quotable_draw draw.now) ≡ true
        → is_quotable_text request.now.target ≡ true → is_valid item ≡ true) }
{
    let credentials = credentials_with(alloc, user, challenge, draw, request)?;
    credentials.to_item(alloc)
}

/// The credentials for a request (RFC 7616 section 3.4).
fn credentials_with(
    alloc: Global,
    user: &User,
    challenge: &DigestChallenge,
    draw: &Draw,
    request: &OutRequest,
) -> Result<DigestCredentials, OutOfMemory>
    requires name { is_plain_name user.now.name ≡ true }
    requires count { 1 ≤ draw.now.count }
    requires target { 1 ≤ length request.now.target }
    ensures credentials { IfOk result (λ c. c ≡ credentials_with user.now challenge.now draw.now request.now) }
    ensures quotable { IfOk result (λ c. (is_quotable_challenge challenge.now && is_quotable_draw draw.now) ≡ true
        → is_quotable_text request.now.target ≡ true → AreQuotable c) }
{
    let response = response_with(user, challenge, draw, request);
    let opaque = copy_of(&challenge.opaque)?;
    Ok(DigestCredentials {
        user: user_name(alloc, user, challenge)?,
        realm: challenge.realm.copy()?,
        nonce: draw.nonce.copy()?,
        uri: request.target.copy()?,
        response: Octets::of(alloc, response.bytes())?,
        kind: challenge.kind,
        cnonce: Octets::of(alloc, &draw.cnonce)?,
        opaque,
        qop: qop_of(challenge),
        nc: Nc::of(draw.count),
    })
}

/// A copy of a text, where there is one.
fn copy_of(text: &Option<Octets>) -> Result<Option<Octets>, OutOfMemory>
    ensures { IfOk result (λ copy. copy ≡ text.now) }
{
    match text {
        Some(text) => Ok(Some(text.copy()?)),
        None => Ok(None),
    }
}

/// The quality of protection that is taken: `auth` where it is offered.
fn qop_of(challenge: &DigestChallenge) -> Qop
    ensures { result ≡ qop_of challenge.now }
{
    if challenge.auth {
        Qop::Auth
    } else {
        Qop::AuthInt
    }
}

/// The name itself, or its hash where the server takes hashed names (RFC 7616 section 3.4.4).
fn user_name(
    alloc: Global,
    user: &User,
    challenge: &DigestChallenge,
) -> Result<UserName, OutOfMemory>
    requires { is_plain_name user.now.name ≡ true }
    ensures value { IfOk result (λ name. name ≡ user_name user.now challenge.now) }
    ensures form { IfOk result (λ name. IsName (sent_name name)) }
{
    if !challenge.userhash {
        return Ok(UserName::Plain(user.name.copy()?));
    }
    let hash = user_hash(
        challenge.kind.alg,
        user.name.bytes(),
        challenge.realm.bytes(),
    );
    Ok(UserName::Hashed(Octets::of(alloc, hash.bytes())?))
}

/// The response of the credentials (RFC 7616 section 3.4.1).
fn response_with(
    user: &User,
    challenge: &DigestChallenge,
    draw: &Draw,
    request: &OutRequest,
) -> HexText
    requires { 1 ≤ draw.now.count }
    ensures { result ≡ (credentials_with user.now challenge.now draw.now request.now).response }
{
    let secret = secret_with(
        user,
        challenge.kind,
        challenge.realm.bytes(),
        draw.nonce.bytes(),
        &draw.cnonce,
    );
    response(
        challenge.kind.alg,
        &secret,
        draw.nonce.bytes(),
        &Nc::of(draw.count).text,
        &draw.cnonce,
        qop_of(challenge),
        request.method.bytes(),
        request.target.bytes(),
        request.body.bytes(),
    )
}

/// The secret of the user; in a session, that of its nonce and its first cnonce (RFC 7616 section 3.4.2).
pub(crate) fn secret_with(
    user: &User,
    kind: Kind,
    realm: &[u8],
    nonce: &[u8],
    cnonce: &[u8],
) -> HexText
    ensures { result ≡ secret_with user.now kind realm.now nonce.now cnonce.now }
{
    let secret = ha1(kind.alg, user.name.bytes(), realm, user.password.bytes());
    if kind.session {
        session_ha1(kind.alg, &secret, nonce, cnonce)
    } else {
        secret
    }
}
