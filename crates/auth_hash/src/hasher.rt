//! A running hash.
ghost use Rattle.std.specs.Prelude.{◌≡◌, ◌++◌, [], ℕ, List, map};
ghost use Rattle.auth_hash.specs.Hash.{hash_text, joined};
ghost use Rattle.auth_hash.specs.Hasher.{Holding};

use crate::algorithm::Algorithm;
use crate::hex_text::HexText;
use md5::{Digest as Md5Digest, Md5};
use sha2::{Digest as Sha2Digest, Sha256, Sha512_256};

/// A hash that takes its message in pieces.
#[derive(Drop)]
pub struct Hasher {
    state: State,
}

#[derive(Drop)]
enum State {
    Md5(Md5),
    Sha256(Sha256),
    Sha512t256(Sha512_256),
}

impl State {
    fn copy(&self) -> State
        ensures { result ≡ self.now }
    {
        match self {
            State::Md5(hasher) => State::Md5(hasher.clone().unwrap()),
            State::Sha256(hasher) => State::Sha256(hasher.clone().unwrap()),
            State::Sha512t256(hasher) => State::Sha512t256(hasher.clone().unwrap()),
        }
    }
}

impl Hasher {
    /// A hasher of the empty message.
    pub fn new(algorithm: Algorithm) -> Hasher
        ensures { Holding result algorithm [] }
    {
        let state = match algorithm {
            Algorithm::Md5 => State::Md5(Md5::new()),
            Algorithm::Sha256 => State::Sha256(Sha256::new()),
            Algorithm::Sha512t256 => State::Sha512t256(Sha512_256::new()),
        };
        Hasher { state }
    }

    /// Adds the piece at the message's end.
    pub fn add(&mut self, piece: &[u8])
        ensures { (a : Algorithm) (m : List ℕ) → Holding self.old a m → Holding self.new a (m ++ piece.now) }
    {
        match &mut self.state {
            State::Md5(hasher) => hasher.update(piece),
            State::Sha256(hasher) => hasher.update(piece),
            State::Sha512t256(hasher) => hasher.update(piece),
        }
    }

    /// A hasher that has taken the texts with a colon between each two.
    pub fn of_joined(algorithm: Algorithm, texts: &[&[u8]]) -> Hasher
        ensures { Holding result algorithm (joined (map (λ text. text.now) texts.now)) }
    {
        let mut hasher = Hasher::new(algorithm);
        for (at, text) in texts.iter().enumerate() {
            if at > 0 {
                hasher.add(b":");
            }
            hasher.add(text);
        }
        hasher
    }

    /// The hasher again, of the same message so far.
    pub fn copy(&self) -> Hasher
        ensures { result ≡ self.now }
    {
        Hasher {
            state: self.state.copy(),
        }
    }

    /// The digest of the message as text.
    pub fn finish(self) -> HexText
        ensures { (a : Algorithm) (m : List ℕ) → Holding self a m → result ≡ hash_text a m }
    {
        match self.state {
            State::Md5(hasher) => HexText::of_short(&hasher.finalize()),
            State::Sha256(hasher) => HexText::of_long(&hasher.finalize()),
            State::Sha512t256(hasher) => HexText::of_long(&hasher.finalize()),
        }
    }
}

/// The digest, as text, of the texts with a colon between each two.
pub fn hash_joined(algorithm: Algorithm, texts: &[&[u8]]) -> HexText
    ensures { result ≡ hash_text algorithm (joined (map (λ text. text.now) texts.now)) }
{
    Hasher::of_joined(algorithm, texts).finish()
}

#[cfg(test)]
mod tests {
    use super::*;

    /// The digests of `abc`: RFC 1321 appendix A.5, FIPS 180-4's examples.
    const OF_ABC: [(Algorithm, &str); 3] = [
        (Algorithm::Md5, "900150983cd24fb0d6963f7d28e17f72"),
        (
            Algorithm::Sha256,
            "ba7816bf8f01cfea414140de5dae2223b00361a396177a9cb410ff61f20015ad",
        ),
        (
            Algorithm::Sha512t256,
            "53048e2681941ef99b2e29b76b4c7dabe4c2d0c634fc6d46e0e2f13107e7af23",
        ),
    ];

    #[test]
    fn known_digests_in_pieces(rt: HostRuntime) {
        for (algorithm, digest) in OF_ABC {
            let mut pieces = Hasher::new(algorithm);
            pieces.add(b"a");
            pieces.add(b"");
            pieces.add(b"bc");
            let copy = pieces.copy();
            pieces.add(b"d");
            let text = copy.finish();
            assert_eq!(rt; text.bytes(), digest.as_bytes());
            assert_eq!(rt; HexText::read(digest.as_bytes()), Some(text));
            assert_eq!(rt; hash_joined(algorithm, &[b"abc"]), text);
        }
    }
}
