//! What the two sides prove to each other.
ghost use Rattle.std.specs.Prelude.{◌≡◌, ◌↔◌, IsTrue};
ghost use Rattle.auth_hash.specs.Mac.{hmac};
ghost use Rattle.scram_proof.specs.Exchange.{Matches, auth_message, proof_of, signature_of};

use crate::keys::{client_key, stored_key};
use auth_hash::{Mac, same_bytes, xor32};
use sha2::{Digest, Sha256};

/// ClientProof, by SaltedPassword and the three texts of the exchange: client-first-message-bare, server-first-message
/// and client-final-message-without-proof.
pub fn client_proof(salted: &[u8; 32], bare: &[u8], first: &[u8], without: &[u8]) -> [u8; 32]
    ensures { result ≡ proof_of salted.now (auth_message bare.now first.now without.now) }
{
    let signature = code_of(&stored_key(salted), bare, first, without);
    xor32(&client_key(salted), &signature)
}

/// Whether the proof is one of the password that the stored key is of, over these texts.
pub fn proof_matches(
    stored: &[u8; 32],
    bare: &[u8],
    first: &[u8],
    without: &[u8],
    proof: &[u8; 32],
) -> bool
    ensures { IsTrue result ↔ Matches stored.now (auth_message bare.now first.now without.now) proof.now }
{
    let key = xor32(proof, &code_of(stored, bare, first, without));
    same_bytes(&Sha256::digest(&key), stored)
}

/// ServerSignature, by ServerKey and the three texts of the exchange.
pub fn server_signature(server: &[u8; 32], bare: &[u8], first: &[u8], without: &[u8]) -> [u8; 32]
    ensures { result ≡ signature_of server.now (auth_message bare.now first.now without.now) }
{
    code_of(server, bare, first, without)
}

/// The code of AuthMessage, which is never built.
fn code_of(key: &[u8; 32], bare: &[u8], first: &[u8], without: &[u8]) -> [u8; 32]
    ensures { result ≡ hmac key.now (auth_message bare.now first.now without.now) }
{
    let mut mac = Mac::new(key);
    mac.add(bare);
    mac.add(b",");
    mac.add(first);
    mac.add(b",");
    mac.of(without)
}
