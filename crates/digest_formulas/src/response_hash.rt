//! What a response and its rspauth are hashed with alike.
ghost use Rattle.std.specs.Prelude.{◌≡◌, ◌∷◌, [], ℕ, List};
ghost use Rattle.auth_hash.specs.Hash.{hash_text, joined};
ghost use Rattle.auth_hash.specs.Hasher.{Holding};
ghost use Rattle.digest_formulas.specs.ResponseHashes.{IsResponseHash};
ghost use Rattle.digest_formulas.specs.Responses.{action, response_value, server_value};

use auth_hash::{Algorithm, Hasher, HexText, Qop, hash_joined};

/// A hash that has taken `secret:nonce:nc:cnonce:qop:`, which both values of a request begin with: its response, and
/// the rspauth of its reply (RFC 7616 sections 3.4.1 and 3.5). So this front is hashed once for both.
#[derive(Drop)]
pub struct ResponseHash {
    algorithm: Algorithm,
    qop: Qop,
    hasher: Hasher,
}

impl ResponseHash {
    /// The secret is that of `ha1` or of `session_ha1`; `nc` and `cnonce` are those of the credentials, as sent.
    pub fn new(
        algorithm: Algorithm,
        secret: &HexText,
        nonce: &[u8],
        nc: &[u8; 8],
        cnonce: &[u8],
        qop: Qop,
    ) -> ResponseHash
        ensures { IsResponseHash result algorithm secret.now nonce.now nc.now cnonce.now qop }
    {
        let hasher = front_hasher(algorithm, secret.bytes(), nonce, nc, cnonce, qop.name());
        ResponseHash {
            algorithm,
            qop,
            hasher,
        }
    }

    /// The `response` of a request with this method, target and body (RFC 7616 section 3.4.1). With `Qop::Auth` the
    /// body isn't looked at.
    pub fn response(&self, method: &[u8], uri: &[u8], body: &[u8]) -> HexText
        ensures { (a : Algorithm) (secret nonce nc cnonce : List ℕ) (qop : Qop)
            → IsResponseHash self.now a secret nonce nc cnonce qop
            → result ≡ response_value a secret nonce nc cnonce qop method.now uri.now body.now }
    {
        let action = hashed_action(self.algorithm, self.qop, method, uri, body);
        let mut hasher = self.hasher.copy();
        hasher.add(action.bytes());
        hasher.finish()
    }

    /// The `rspauth` of a reply with this body to a request for this target (RFC 7616 section 3.5): as `response`, but
    /// with no method.
    pub fn rspauth(&self, uri: &[u8], body: &[u8]) -> HexText
        ensures { (a : Algorithm) (secret nonce nc cnonce : List ℕ) (qop : Qop)
            → IsResponseHash self.now a secret nonce nc cnonce qop
            → result ≡ server_value a secret nonce nc cnonce qop uri.now body.now }
    {
        self.response(b"", uri, body)
    }

    /// The hash again.
    pub fn copy(&self) -> ResponseHash
        ensures { result ≡ self.now }
    {
        ResponseHash {
            algorithm: self.algorithm,
            qop: self.qop,
            hasher: self.hasher.copy(),
        }
    }
}

/// A hasher that has taken these texts, each with a colon behind it.
fn front_hasher(
    algorithm: Algorithm,
    secret: &[u8],
    nonce: &[u8],
    nc: &[u8],
    cnonce: &[u8],
    qop: &[u8],
) -> Hasher
    ensures { let texts = secret.now ∷ nonce.now ∷ nc.now ∷ cnonce.now ∷ qop.now ∷ [] ∷ []
        in Holding result algorithm (joined texts) }
{
    Hasher::of_joined(algorithm, &[secret, nonce, nc, cnonce, qop, b""])
}

/// H(A2) (RFC 7616 section 3.4.3).
fn hashed_action(algorithm: Algorithm, qop: Qop, method: &[u8], uri: &[u8], body: &[u8]) -> HexText
    ensures { result ≡ hash_text algorithm (action algorithm qop method.now uri.now body.now) }
{
    match qop {
        Qop::Auth => hash_joined(algorithm, &[method, uri]),
        Qop::AuthInt => {
            let body_hash = hash_joined(algorithm, &[body]);
            hash_joined(algorithm, &[method, uri, body_hash.bytes()])
        }
    }
}
