//! Whether a response is right.
ghost use Rattle.std.specs.Prelude.{◌≡◌, ℕ, List};
ghost use Rattle.auth_decide.specs.Responses.{response_secret, is_right};
ghost use Rattle.auth_decide.specs.VerifiedCredentials.{IsHashOf};

use crate::candidate::Candidate;
use auth_hash::{HexText, same_bytes};
use digest_formulas::{ResponseHash, session_ha1};
use http_wire::Request;

/// The secret that the response is computed with: of a session, that of the nonce and the client's nonce that began
/// it (RFC 7616 section 3.4.2).
pub(crate) fn response_secret(candidate: &Candidate, prime: &[u8]) -> HexText
    ensures { result ≡ response_secret candidate.now prime.now }
{
    let kind = candidate.credentials.kind;
    if kind.session {
        session_ha1(
            kind.alg,
            &candidate.secret,
            candidate.credentials.nonce.bytes(),
            prime,
        )
    } else {
        candidate.secret
    }
}

/// A hash that has taken what the response begins with, by this secret.
pub(crate) fn response_hash(candidate: &Candidate, secret: &HexText) -> ResponseHash
    ensures { IsHashOf result candidate.now secret.now }
{
    let credentials = &candidate.credentials;
    ResponseHash::new(
        credentials.kind.alg,
        secret,
        credentials.nonce.bytes(),
        &credentials.nc.text,
        credentials.cnonce.bytes(),
        credentials.qop,
    )
}

/// Whether the response is the standard's value (RFC 7616 section 3.4.1), by its hash. With `auth-int` the body is
/// hashed.
pub(crate) fn is_right(request: &Request, candidate: &Candidate, hash: &ResponseHash) -> bool
    ensures { (prime : List ℕ) → IsHashOf hash.now candidate.now (response_secret candidate.now prime)
        → result ≡ is_right request.now candidate.now prime }
{
    let credentials = &candidate.credentials;
    let value = hash.response(
        request.method.bytes(),
        credentials.uri.bytes(),
        request.body.bytes(),
    );
    same_bytes(credentials.response.bytes(), value.bytes())
}
