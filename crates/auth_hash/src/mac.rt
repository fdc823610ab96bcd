//! A running message authentication code.
ghost use Rattle.std.specs.Prelude.{◌≡◌, ◌++◌, ◌≤◌, ◌-◌, [], ℕ, List, bit_xor, length, map, replicate};
ghost use Rattle.sha2.specs.Hashers.{Holds256};
ghost use Rattle.auth_hash.specs.Mac.{Authenticating, block_key, hmac, padded_key};

use sha2::{Digest, Sha256};

/// The length of a block of SHA-256, in bytes (B of RFC 2104 section 2).
pub const MAC_BLOCK: usize = 64;

/// The byte of the inner pad (RFC 2104 section 2: ipad).
pub const INNER_PAD: u8 = 0x36;

/// The byte of the outer pad (RFC 2104 section 2: opad).
pub const OUTER_PAD: u8 = 0x5c;

/// HMAC-SHA-256 of a message that comes in pieces (RFC 2104 section 2). It holds two states of SHA-256 that have taken
/// the padded key, so a copy of a new one begins another message without hashing the key again.
#[derive(Drop)]
pub struct Mac {
    inner: Sha256,
    outer: Sha256,
}

impl Mac {
    /// The MAC of the empty message. A key may have any length, and is hashed where it is longer than `MAC_BLOCK`.
    pub fn new(key: &[u8]) -> Mac
        ensures { Authenticating result key.now [] }
    {
        let block = block_of(key);
        Mac {
            inner: hash_of_padded(&block, INNER_PAD),
            outer: hash_of_padded(&block, OUTER_PAD),
        }
    }

    /// Adds the piece at the message's end.
    pub fn add(&mut self, piece: &[u8])
        ensures { (key message : List ℕ) → Authenticating self.old key message → Authenticating self.new key (message ++ piece.now) }
    {
        self.inner.update(piece);
    }

    /// The code of the message.
    pub fn finish(mut self) -> [u8; 32]
        ensures { (key message : List ℕ) → Authenticating self key message → result ≡ hmac key message }
    {
        let digest = self.inner.finalize();
        self.outer.update(&digest);
        self.outer.finalize()
    }

    /// The code of the message with this piece at its end. The MAC itself stays, to be used again.
    pub fn of(&self, piece: &[u8]) -> [u8; 32]
        ensures { (key message : List ℕ) → Authenticating self.now key message → result ≡ hmac key (message ++ piece.now) }
    {
        let mut copy = self.copy();
        copy.add(piece);
        copy.finish()
    }

    /// The MAC again, of the same message so far.
    pub(crate) fn copy(&self) -> Mac
        ensures { result ≡ self.now }
    {
        Mac {
            inner: self.inner.clone().unwrap(),
            outer: self.outer.clone().unwrap(),
        }
    }
}

/// The key as one block.
fn block_of(key: &[u8]) -> [u8; MAC_BLOCK]
    ensures { result ≡ block_key key.now }
{
    if key.len() <= MAC_BLOCK {
        filled(key)
    } else {
        filled(&Sha256::digest(key))
    }
}

/// A block that begins with these bytes, and has zeros behind them.
fn filled(bytes: &[u8]) -> [u8; MAC_BLOCK]
    requires { length bytes.now ≤ MAC_BLOCK }
    ensures { result ≡ bytes.now ++ replicate (MAC_BLOCK - length bytes.now) 0 }
{
    let mut block = [0; MAC_BLOCK];
    block[..bytes.len()].copy_from_slice(bytes);
    block
}

/// A hash that has taken the block with each byte XOR the pad.
fn hash_of_padded(block: &[u8; MAC_BLOCK], pad: u8) -> Sha256
    ensures { Holds256 result (map (bit_xor pad) block.now) }
{
    let mut padded = [0; MAC_BLOCK];
    for at in 0..MAC_BLOCK {
        padded[at] = pad ^ block[at];
    }
    Sha256::new_with_prefix(&padded)
}

#[cfg(test)]
mod tests {
    use super::*;
    use std::test::Fail;

    /// Keys, messages and their codes in hexadecimal: RFC 4231 section 4, the first four.
    const CODES: [(&[u8], &[u8], &str); 4] = [
        (
            &[0x0b; 20],
            b"Hi There",
            "b0344c61d8db38535ca8afceaf0bf12b881dc200c9833da726e9376c2e32cff7",
        ),
        (
            b"Jefe",
            b"what do ya want for nothing?",
            "5bdcc146bf60754e6a042426089575c75a003f089d2739839dec58b964ec3843",
        ),
        (
            &[0xaa; 20],
            &[0xdd; 50],
            "773ea91e36800e46854db8ebd09181a72959098b3ef8c122d9635514ced565fe",
        ),
        (
            &[
                1, 2, 3, 4, 5, 6, 7, 8, 9, 10, 11, 12, 13, 14, 15, 16, 17, 18, 19, 20, 21, 22, 23,
                24, 25,
            ],
            &[0xcd; 50],
            "82558a389a443c0ea4cc819899f2083a85f0faa3e578f8077a2e3ff46729665b",
        ),
    ];

    #[test]
    fn known_codes(rt: HostRuntime) -> Result<(), Fail> {
        for (key, message, code) in CODES {
            let text = hex::encode(rt.alloc(), &Mac::new(key).of(message))?;
            assert_eq!(rt; text.as_str(), code);
        }
        Ok(())
    }
}
