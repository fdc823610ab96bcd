//! The keys of SCRAM-SHA-256 as text.
ghost use Rattle.std.specs.Prelude.{◌≡◌, ◌≢◌, ◌≤◌, ◌<◌, ◌^◌, ◌++◌, ◌∷◌, ℕ, List, IfNone, IfSome, OnOk, decimal, length, take};
ghost use Rattle.base64.specs.Engines.{standard};
ghost use Rattle.base64.specs.GeneralPurpose.{IsBytes, encode_of};
ghost use Rattle.scram_proof.specs.declared.keys.ScramKeys.{ScramKeys as KeysValue};
ghost use Rattle.cred_store.specs.Kinds.{IsKey, IsKeys};
ghost use Rattle.cred_store.specs.Values.{HasKeyParts, keys_text};

use arrayvec::ArrayVec;
use auth_grammar::{Octets, OutOfMemory, cut_at, decimal_of};
use base64::engine::general_purpose::STANDARD;
use itoa::Buffer;
use scram_proof::{SALT_LIMIT, ScramKeys};
use std::alloc::Global;

/// How many bytes of base64 32 bytes have, and how many bytes so many can have.
const ENCODED_LIMIT: usize = 44;

const DECODED_LIMIT: usize = 33;

/// The four parts of the text.
#[derive(Clone, Copy)]
struct Parts<'t> {
    count: &'t [u8],
    salt: &'t [u8],
    stored: &'t [u8],
    server: &'t [u8],
}

/// The keys that a text says, where it says keys.
pub(crate) fn read_keys(text: &[u8]) -> Option<ScramKeys>
    ensures some { IfSome result (λ keys. IsKeys keys × (keys_text keys ≡ text.now)) }
    ensures none { IfNone result ((keys : KeysValue) → IsKeys keys → keys_text keys ≢ text.now) }
{
    let Some(parts) = parts_of(text) else {
        return None;
    };
    let Some(i) = read_count(parts.count) else {
        return None;
    };
    let Some(salt) = read_salt(parts.salt) else {
        return None;
    };
    let Some(stored) = read_key(parts.stored) else {
        return None;
    };
    let Some(server) = read_key(parts.server) else {
        return None;
    };
    Some(ScramKeys {
        salt,
        i,
        stored,
        server,
    })
}

/// The parts of a text, between which its first three commas stand.
fn parts_of(text: &[u8]) -> Option<Parts<'_>>
    ensures some { IfSome result (λ p. HasKeyParts text.now p.count.now p.salt.now p.stored.now p.server.now) }
    ensures none { IfNone result ((count salt stored server : List ℕ) → HasKeyParts text.now count salt stored server → ⊥) }
{
    let Some((count, rest)) = cut_at(text, b',') else {
        return None;
    };
    let Some((salt, rest)) = cut_at(rest, b',') else {
        return None;
    };
    let Some((stored, server)) = cut_at(rest, b',') else {
        return None;
    };
    Some(Parts {
        count,
        salt,
        stored,
        server,
    })
}

/// The number from 1 to 4294967295 that a text writes in decimal digits, with no leading zero.
fn read_count(text: &[u8]) -> Option<u32>
    ensures some { IfSome result (λ i. decimal i ≡ text.now) }
    ensures above { IfSome result (λ i. 1 ≤ i) }
    ensures fits { IfSome result (λ i. i < 2 ^ 32) }
    ensures none { IfNone result ((i : ℕ) → 1 ≤ i → i < 2 ^ 32 → decimal i ≢ text.now) }
{
    match decimal_of(text) {
        Some(number) if 1 <= number && number <= u32::MAX as u64 => Some(number as u32),
        _ => None,
    }
}

/// The salt of 1 to 32 bytes that a text writes in base64 (RFC 4648 section 4).
fn read_salt(text: &[u8]) -> Option<ArrayVec<u8, SALT_LIMIT>>
    ensures some { IfSome result (λ salt. encode_of standard salt.items ≡ text.now) }
    ensures bytes { IfSome result (λ salt. IsBytes salt.items) }
    ensures long { IfSome result (λ salt. 1 ≤ length salt.items) }
    ensures short { IfSome result (λ salt. length salt.items ≤ 32) }
    ensures none { IfNone result ((salt : List ℕ) → IsBytes salt → 1 ≤ length salt → length salt ≤ 32
        → encode_of standard salt ≢ text.now) }
{
    let Some(salt) = read_base64(text) else {
        return None;
    };
    if salt.is_empty() { None } else { Some(salt) }
}

/// The key of 32 bytes that a text writes in base64.
fn read_key(text: &[u8]) -> Option<[u8; 32]>
    ensures some { IfSome result (λ key. IsKey key × (encode_of standard key ≡ text.now)) }
    ensures none { IfNone result ((key : List ℕ) → IsKey key → encode_of standard key ≢ text.now) }
{
    let Some(bytes) = read_base64(text) else {
        return None;
    };
    if bytes.len() != 32 {
        return None;
    }
    let mut key = [0; 32];
    key.copy_from_slice(bytes.as_slice());
    Some(key)
}

/// The bytes, 32 at most, that a text writes in base64, with its padding and no bits left over.
fn read_base64(text: &[u8]) -> Option<ArrayVec<u8, 32>>
    ensures some { IfSome result (λ bytes. encode_of standard bytes.items ≡ text.now) }
    ensures bytes { IfSome result (λ bytes. IsBytes bytes.items) }
    ensures short { IfSome result (λ bytes. length bytes.items ≤ 32) }
    ensures none { IfNone result ((bytes : List ℕ) → IsBytes bytes → length bytes ≤ 32 → encode_of standard bytes ≢ text.now) }
{
    if text.len() > ENCODED_LIMIT {
        return None;
    }
    let mut bytes = [0; DECODED_LIMIT];
    match STANDARD.decode_slice_unchecked(text, &mut bytes) {
        Ok(count) => front_of(&bytes, count),
        Err(_) => None,
    }
}

/// The first so many bytes, where they are 32 at most.
fn front_of(bytes: &[u8], count: usize) -> Option<ArrayVec<u8, 32>>
    requires { count ≤ length bytes.now }
    ensures some { IfSome result (λ front. front.items ≡ take count bytes.now) }
    ensures bytes { IfSome result (λ front. IsBytes front.items) }
    ensures short { IfSome result (λ front. length front.items ≤ 32) }
    ensures none { IfNone result (32 < count) }
{
    if count > 32 {
        return None;
    }
    let mut front = ArrayVec::new();
    let _ = front.try_extend_from_slice(&bytes[..count]);
    Some(front)
}

/// Adds the text of keys.
pub(crate) fn write_keys(
    alloc: Global,
    text: &mut Octets,
    keys: &ScramKeys,
) -> Result<(), OutOfMemory>
    ensures { OnOk result (text.new ≡ text.old ++ keys_text keys.now) }
{
    text.extend(Buffer::new().format(keys.i).as_bytes())?;
    add_base64(alloc, text, keys.salt.as_slice())?;
    add_base64(alloc, text, &keys.stored)?;
    add_base64(alloc, text, &keys.server)
}

/// Adds a comma and the bytes in base64.
fn add_base64(alloc: Global, text: &mut Octets, bytes: &[u8]) -> Result<(), OutOfMemory>
    ensures { OnOk result (text.new ≡ text.old ++ 44 ∷ encode_of standard bytes.now) }
{
    text.push(b',')?;
    text.extend(STANDARD.encode(alloc, bytes)?.as_bytes())
}
