//! Bytes in base64: any, salts, and what SHA-256 gives.
ghost use Rattle.std.specs.Prelude.{◌≡◌, ◌≤◌, ◌↔◌, ◌++◌, ℕ, List, length, IfOk, IsTrue, OnOk};
ghost use Rattle.scram_text.specs.Bytes.{base64_bytes, base64_text};
ghost use Rattle.scram_text.specs.Contents.{WritesDigest, WritesSalt};
ghost use Rattle.scram_text.specs.Reaching.{Reaches};

use crate::base64_places::{Place, may_follow, walk};
use auth_grammar::{Octets, OutOfMemory};
use base64::DecodeAllocError;
use base64::engine::general_purpose::STANDARD;
use std::alloc::Global;

/// The length of a digest.
pub const DIGEST_LENGTH: usize = 32;

/// Whether the text writes a salt.
pub(crate) fn is_salt_text(text: &[u8]) -> bool
    ensures { IsTrue result ↔ ((salt : List ℕ) × WritesSalt text.now salt) }
{
    may_follow(Place::Start, text)
}

/// How far the text could go on as one.
pub(crate) fn salt_reach(text: &[u8]) -> usize
    ensures reach { Reaches (λ t. (salt : List ℕ) × WritesSalt t salt) text.now result }
    ensures within { result ≤ length text.now }
{
    walk(Place::Start, text).0
}

/// Whether the text writes a digest.
pub(crate) fn is_digest_text(text: &[u8]) -> bool
    ensures { IsTrue result ↔ ((digest : List ℕ) × WritesDigest text.now digest) }
{
    may_follow(Place::Sized(43), text)
}

/// How far the text could go on as one.
pub(crate) fn digest_reach(text: &[u8]) -> usize
    ensures reach { Reaches (λ t. (digest : List ℕ) × WritesDigest t digest) text.now result }
    ensures within { result ≤ length text.now }
{
    walk(Place::Sized(43), text).0
}

/// The salt that the text writes.
pub(crate) fn salt_of(alloc: Global, text: &[u8]) -> Result<Octets, OutOfMemory>
    requires { (salt : List ℕ) × WritesSalt text.now salt }
    ensures { IfOk result (λ salt. WritesSalt text.now salt) }
{
    match read_base64(alloc, text)? {
        Some(salt) => Ok(salt),
        None => Err(OutOfMemory),
    }
}

/// The digest that the text writes.
pub(crate) fn digest_of(alloc: Global, text: &[u8]) -> Result<[u8; DIGEST_LENGTH], OutOfMemory>
    requires { (digest : List ℕ) × WritesDigest text.now digest }
    ensures { IfOk result (λ digest. WritesDigest text.now digest) }
{
    match read_base64(alloc, text)? {
        Some(bytes) => {
            let mut digest = [0; DIGEST_LENGTH];
            digest.copy_from_slice(bytes.bytes());
            Ok(digest)
        }
        None => Err(OutOfMemory),
    }
}

/// The bytes that the text writes in base64 (RFC 4648 section 4), with its padding and no bits left over.
pub fn read_base64(alloc: Global, text: &[u8]) -> Result<Option<Octets>, OutOfMemory>
    ensures { IfOk result (λ bytes. bytes ≡ base64_bytes text.now) }
{
    match STANDARD.decode(alloc, text) {
        Ok(bytes) => Ok(Some(Octets::from_vec(bytes))),
        Err(DecodeAllocError::OutOfMemory) => Err(OutOfMemory),
        Err(DecodeAllocError::DecodeError(_)) => Ok(None),
    }
}

/// Adds the bytes in base64 at the end of the text.
pub fn push_base64(alloc: Global, text: &mut Octets, bytes: &[u8]) -> Result<(), OutOfMemory>
    ensures { OnOk result (text.new ≡ text.old ++ base64_text bytes.now) }
{
    let written = STANDARD.encode(alloc, bytes)?;
    text.extend(written.as_bytes())
}
