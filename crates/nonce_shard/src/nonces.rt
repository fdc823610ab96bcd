//! Nonces, and whom they serve.
ghost use Rattle.std.specs.Prelude.{◌≡◌, ◌==◌};
ghost use Rattle.std.specs.Option.{option_copied};
ghost use Rattle.nonce_shard.specs.Nonces.{names_nonce, serves, serves_call, is_other};

use crate::calls::{NonceKind, Prime};
use crate::names::{NameKind, TableName};
use crate::sizes::Setting;

/// A nonce as its Issue made it. `time` is the time of that Issue.
#[derive(Clone, Copy, Debug)]
pub struct Nonce {
    pub kind: NonceKind,
    pub space: u32,
    pub random: [u8; 16],
    pub time: u64,
}

/// What a nonce is wanted for: credentials of a kind, in a space, at a time.
#[derive(Clone, Copy, Debug)]
pub struct Wanted {
    pub kind: NonceKind,
    pub space: u32,
    pub time: u64,
}

impl Wanted {
    /// For credentials of this kind, in this space, at this time.
    pub fn new(kind: NonceKind, space: u32, time: u64) -> Wanted
        ensures { result ≡ record { kind = kind; space = space; time = time } }
    {
        Wanted { kind, space, time }
    }
}

fn is_named(number: u16, name: &TableName, nonce: &Nonce) -> bool
    ensures { result ≡ names_nonce number name.now nonce.now }
{
    name.kind == NameKind::Nonce && name.shard == number && name.random == nonce.random
}

fn serves_kind(nonce: NonceKind, kind: NonceKind) -> bool
    ensures { result ≡ serves nonce kind }
{
    match nonce {
        NonceKind::Both => true,
        NonceKind::Digest => kind == NonceKind::Digest,
        NonceKind::Scram => kind == NonceKind::Scram,
    }
}

/// Whether this is the nonce that is named, it serves what it is wanted for, and is not too old.
pub fn serves(setting: &Setting, name: &TableName, wanted: &Wanted, nonce: &Nonce) -> bool
    ensures { result ≡ serves_call setting.now.sizes setting.now.number name.now
        wanted.now.kind wanted.now.space wanted.now.time nonce.now }
{
    is_named(setting.number, name, nonce)
        && nonce.space == wanted.space
        && serves_kind(nonce.kind, wanted.kind)
        && wanted.time.saturating_sub(nonce.time) <= setting.sizes.nonce_life
}

/// Whether a prime is given, and another one is held.
pub fn is_other_session(given: &Option<Prime>, held: Option<&Prime>) -> bool
    ensures { result ≡ is_other given.now (option_copied held.entry) }
{
    match (given, held) {
        (Some(given), Some(held)) => given.as_slice() != held.as_slice(),
        _ => false,
    }
}
