//! The slow hash of a password, and XOR.
ghost use Rattle.std.specs.Prelude.{◌≡◌, ◌≤◌, ◌++◌, ◌∷◌, [], ℕ, List};
ghost use Rattle.auth_hash.specs.Mac.{Authenticating, hmac};
ghost use Rattle.auth_hash.specs.Salting.{hi, xor_bytes};

use crate::mac::Mac;

/// The salted hash of a password by so many iterations (RFC 5802 section 2.2). Each iteration costs two blocks of
/// SHA-256.
pub fn hi(password: &[u8], salt: &[u8], iterations: u32) -> [u8; 32]
    requires { 1 ≤ iterations }
    ensures { result ≡ hi password.now salt.now iterations }
{
    let mac = Mac::new(password);
    let mut last = first_of(&mac, salt);
    let mut all = last;
    for _turn in 1..iterations {
        last = mac.of(&last);
        all = xor32(&all, &last);
    }
    all
}

/// The first iteration: the code of the salt and the number 1 in four bytes.
fn first_of(mac: &Mac, salt: &[u8]) -> [u8; 32]
    ensures { (key : List ℕ) → Authenticating mac.now key [] → result ≡ hmac key (salt.now ++ 0 ∷ 0 ∷ 0 ∷ 1 ∷ []) }
{
    let mut first = mac.copy();
    first.add(salt);
    first.of(&1u32.to_be_bytes())
}

/// The two XOR, byte by byte.
pub fn xor32(a: &[u8; 32], b: &[u8; 32]) -> [u8; 32]
    ensures { result ≡ xor_bytes a.now b.now }
{
    let mut all = [0; 32];
    for at in 0..32 {
        all[at] = a[at] ^ b[at];
    }
    all
}
