//! What stands in for a password and for a name.
ghost use Rattle.std.specs.Prelude.{◌≡◌};
ghost use Rattle.digest_formulas.specs.Secrets.{secret_of, session_secret, user_hash as user_hash_of};

use auth_hash::{Algorithm, HexText, hash_joined};

/// H(A1) of a plain variant, which is what a server keeps of a password (RFC 7616 section 3.4.2).
pub fn ha1(algorithm: Algorithm, name: &[u8], realm: &[u8], password: &[u8]) -> HexText
    ensures { result ≡ secret_of algorithm name.now realm.now password.now }
{
    hash_joined(algorithm, &[name, realm, password])
}

/// H(A1) of a session variant, such as `SHA-256-sess` (RFC 7616 section 3.4.2). The nonce is the
/// request's own, and the prime is the cnonce of the first request with that nonce.
pub fn session_ha1(algorithm: Algorithm, secret: &HexText, nonce: &[u8], prime: &[u8]) -> HexText
    ensures { result ≡ session_secret algorithm secret.now nonce.now prime.now }
{
    hash_joined(algorithm, &[secret.bytes(), nonce, prime])
}

/// What is sent in place of a name that is to stay hidden (RFC 7616 section 3.4.4).
pub fn user_hash(algorithm: Algorithm, name: &[u8], realm: &[u8]) -> HexText
    ensures { result ≡ user_hash_of algorithm name.now realm.now }
{
    hash_joined(algorithm, &[name, realm])
}
