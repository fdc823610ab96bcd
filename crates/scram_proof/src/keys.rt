//! The keys that a password gives.
ghost use Rattle.std.specs.Prelude.{◌≡◌, ◌≤◌};
ghost use Rattle.scram_proof.specs.Keys.{AreKeysOf, client_key as client_key_of, salted_password, server_key as server_key_of, stored_key as stored_key_of};

use arrayvec::ArrayVec;
use auth_hash::{Mac, hi};
use sha2::{Digest, Sha256};
use std::fmt;

/// The fewest iterations that a client makes, and that a secret is made with here (RFC 7677 section 4).
pub const LEAST_ITERATIONS: u32 = 4_096;

/// The most iterations that a client makes, and that a secret is made with here.
pub const MOST_ITERATIONS: u32 = 1_000_000;

/// The most bytes of a salt.
pub const SALT_LIMIT: usize = 32;

/// What a server keeps of a password (RFC 5802 section 3): the salt, the iteration count, StoredKey and ServerKey.
/// The keys are secret, so `Debug` prints none of it.
#[derive(Drop, Clone, PartialEq, Eq)]
pub struct ScramKeys {
    pub salt: ArrayVec<u8, SALT_LIMIT>,
    /// The iteration count.
    pub i: u32,
    pub stored: [u8; 32],
    pub server: [u8; 32],
}

impl fmt::Debug for ScramKeys {
    fn fmt<W: fmt::Write>(&self, f: &mut fmt::Formatter<W>) -> fmt::Result {
        f.write_str("ScramKeys { ... }")
    }
}

/// SaltedPassword, by so many iterations. The password is taken as it is, with no preparation of its characters.
pub fn salted(password: &[u8], salt: &[u8], i: u32) -> [u8; 32]
    requires { 1 ≤ i }
    ensures { result ≡ salted_password password.now salt.now i }
{
    hi(password, salt, i)
}

/// ClientKey, by SaltedPassword.
pub(crate) fn client_key(salted: &[u8; 32]) -> [u8; 32]
    ensures { result ≡ client_key_of salted.now }
{
    Mac::new(salted).of(b"Client Key")
}

/// StoredKey, by SaltedPassword. A server checks proofs with it, and can't make one.
pub fn stored_key(salted: &[u8; 32]) -> [u8; 32]
    ensures { result ≡ stored_key_of salted.now }
{
    Sha256::digest(&client_key(salted))
}

/// ServerKey, by SaltedPassword.
pub fn server_key(salted: &[u8; 32]) -> [u8; 32]
    ensures { result ≡ server_key_of salted.now }
{
    Mac::new(salted).of(b"Server Key")
}

/// What a server keeps of the password.
pub fn keys_of(password: &[u8], salt: &ArrayVec<u8, SALT_LIMIT>, i: u32) -> ScramKeys
    requires { 1 ≤ i }
    ensures { AreKeysOf result password.now salt.now.items i }
{
    let salted = salted(password, salt.as_slice(), i);
    ScramKeys {
        salt: salt.clone().unwrap(),
        i,
        stored: stored_key(&salted),
        server: server_key(&salted),
    }
}
