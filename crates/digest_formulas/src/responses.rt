//! What shows that a side knows the secret.
ghost use Rattle.std.specs.Prelude.{◌≡◌};
ghost use Rattle.digest_formulas.specs.Responses.{response_value, server_value};

use crate::response_hash::ResponseHash;
use auth_hash::{Algorithm, HexText, Qop};

/// The `response` of credentials (RFC 7616 section 3.4.1). The secret is that of `ha1` or of
/// `session_ha1`; `nc`, `cnonce` and `uri` are those of the credentials, as sent. With `Qop::Auth`
/// the body isn't looked at.
pub fn response(
    algorithm: Algorithm,
    secret: &HexText,
    nonce: &[u8],
    nc: &[u8; 8],
    cnonce: &[u8],
    qop: Qop,
    method: &[u8],
    uri: &[u8],
    body: &[u8],
) -> HexText
    ensures { result
        ≡ response_value algorithm secret.now nonce.now nc.now cnonce.now qop method.now uri.now body.now }
{
    ResponseHash::new(algorithm, secret, nonce, nc, cnonce, qop).response(method, uri, body)
}

/// The `rspauth` of an `Authentication-Info` (RFC 7616 section 3.5): as `response`, but with no
/// method, and over the body of the response.
pub fn rspauth(
    algorithm: Algorithm,
    secret: &HexText,
    nonce: &[u8],
    nc: &[u8; 8],
    cnonce: &[u8],
    qop: Qop,
    uri: &[u8],
    body: &[u8],
) -> HexText
    ensures { result
        ≡ server_value algorithm secret.now nonce.now nc.now cnonce.now qop uri.now body.now }
{
    ResponseHash::new(algorithm, secret, nonce, nc, cnonce, qop).rspauth(uri, body)
}
