//! One entry of a store.
ghost use Rattle.std.specs.Prelude.{◌≡◌, ◌≤◌, ◌&&◌, Bool, IfOk, length, option_copied, bytes_eq};
ghost use Rattle.base64.specs.GeneralPurpose.{IsBytes};
ghost use Rattle.digest_formulas.specs.Secrets.{secret_of as secret_by, user_hash};
ghost use Rattle.scram_proof.specs.Keys.{AreKeysOf};
ghost use Rattle.scram_proof.specs.declared.keys.ScramKeys.{ScramKeys as KeysValue};
ghost use Rattle.cred_store.specs.Keys.{key_at, key_cmp, key_of};
ghost use Rattle.cred_store.specs.Kinds.{IsSecret, kind_of};
ghost use Rattle.cred_store.specs.LookUps.{ha1_of, is_of, is_hashed, keys_of as keys_of_entry};
ghost use Rattle.cred_store.specs.Texts.{entry_at};
ghost use Rattle.cred_store.specs.declared.entry.Secret.TheVariants as secret;

use crate::kind::SecretKind;
use arrayvec::ArrayVec;
use auth_grammar::{Octets, OutOfMemory};
use auth_hash::{Algorithm, HexText};
use digest_formulas::{ha1, user_hash};
use scram_proof::{SALT_LIMIT, ScramKeys, keys_of};
use std::alloc::Global;
use std::cmp::Ordering;

/// What proves that a client knows the password.
#[derive(Drop)]
pub enum Secret {
    /// H(name:realm:password) of Digest (RFC 7616 section 3.4.2).
    Digest { alg: Algorithm, ha1: HexText },
    /// The keys of SCRAM-SHA-256 (RFC 5802 section 3, RFC 7677).
    Scram(ScramKeys),
}

/// The secret of a user in a realm. Where it is off, no look-up finds it.
#[derive(Drop)]
pub struct Entry {
    pub name: Octets,
    pub realm: Octets,
    pub secret: Secret,
    pub on: bool,
}

impl Secret {
    /// The secret of a name in a realm for Digest, by the password.
    pub fn of_password(alg: Algorithm, name: &[u8], realm: &[u8], password: &[u8]) -> Secret
        ensures value { result ≡ secret.Digest alg (secret_by alg name.now realm.now password.now) }
        ensures form { IsSecret result }
    {
        let ha1 = ha1(alg, name, realm, password);
        prove!(ha1.bytes().len() == alg.digits());
        Secret::Digest { alg, ha1 }
    }

    /// The keys of a password for SCRAM-SHA-256, by a salt that isn't empty and an iteration count of at least 1.
    pub fn of_salted(password: &[u8], salt: &ArrayVec<u8, SALT_LIMIT>, i: u32) -> Secret
        requires salt { 1 ≤ length salt.now.items }
        requires count { 1 ≤ i }
        ensures value { (keys : KeysValue) × (result ≡ secret.Scram keys) × AreKeysOf keys password.now salt.now.items i }
        ensures form { IsSecret result }
    {
        let keys = keys_of(password, salt, i);
        are_bytes(salt.as_slice());
        are_bytes(&keys.stored);
        are_bytes(&keys.server);
        Secret::Scram(keys)
    }

    pub(crate) fn kind(&self) -> SecretKind
        ensures { result ≡ kind_of self.now }
    {
        match self {
            Secret::Digest { alg, .. } => SecretKind::Digest(*alg),
            Secret::Scram(_) => SecretKind::ScramSha256,
        }
    }

    /// A copy of its own.
    pub(crate) fn copy(&self) -> Secret
        ensures { result ≡ self.now }
    {
        match self {
            Secret::Digest { alg, ha1 } => Secret::Digest {
                alg: *alg,
                ha1: *ha1,
            },
            Secret::Scram(keys) => Secret::Scram(copy_of(keys)),
        }
    }
}

/// Bytes are below 256, as their type says. The function does nothing.
fn are_bytes(bytes: &[u8])
    ensures { IsBytes bytes.now }
{}

fn copy_of(keys: &ScramKeys) -> ScramKeys
    ensures { result ≡ keys.now }
{
    ScramKeys {
        salt: keys.salt.clone().unwrap(),
        i: keys.i,
        stored: keys.stored,
        server: keys.server,
    }
}

impl Entry {
    /// An entry of its own.
    pub(crate) fn of(
        alloc: Global,
        name: &[u8],
        realm: &[u8],
        secret: Secret,
        on: bool,
    ) -> Result<Entry, OutOfMemory>
        ensures { IfOk result (λ e. e ≡ entry_at name.now realm.now secret on) }
    {
        let name = Octets::of(alloc, name)?;
        let realm = Octets::of(alloc, realm)?;
        Ok(Entry {
            name,
            realm,
            secret,
            on,
        })
    }

    /// A copy of its own.
    pub(crate) fn copy(&self, alloc: Global) -> Result<Entry, OutOfMemory>
        ensures { IfOk result (λ e. e ≡ self.now) }
    {
        Entry::of(
            alloc,
            self.name.bytes(),
            self.realm.bytes(),
            self.secret.copy(),
            self.on,
        )
    }

    /// The secret for Digest, where the entry is on and has one.
    pub(crate) fn ha1(&self) -> Option<HexText>
        ensures { result ≡ ha1_of self.now }
    {
        match &self.secret {
            Secret::Digest { ha1, .. } if self.on => Some(*ha1),
            _ => None,
        }
    }

    /// The keys of SCRAM-SHA-256, where the entry is on and has them.
    pub(crate) fn keys(&self) -> Option<&ScramKeys>
        ensures { option_copied result ≡ keys_of_entry self.now }
    {
        match &self.secret {
            Secret::Scram(keys) if self.on => Some(keys),
            _ => None,
        }
    }
}

/// How the entry's key stands to this one: by name, then realm, then kind.
pub(crate) fn compare(entry: &Entry, name: &[u8], realm: &[u8], kind: SecretKind) -> Ordering
    ensures { result ≡ key_cmp (key_of entry.now) (key_at name.now realm.now kind) }
{
    let by_kind = entry.secret.kind().name().cmp(kind.name());
    let by_realm = entry.realm.bytes().cmp(realm);
    entry.name.bytes().cmp(name).then(by_realm.then(by_kind))
}

/// Whether the entry is of this name and realm.
pub(crate) fn is_of(entry: &Entry, name: &[u8], realm: &[u8]) -> bool
    ensures { result ≡ is_of name.now realm.now entry.now }
{
    entry.name.bytes() == name && entry.realm.bytes() == realm
}

/// Whether the entry is on and has a secret by this algorithm in this realm, and its name has this hash.
pub(crate) fn is_hashed(entry: &Entry, hash: &[u8], realm: &[u8], alg: Algorithm) -> bool
    ensures { result ≡ is_hashed hash.now realm.now alg entry.now }
{
    has_hash(entry, hash, realm, alg)
        && (entry.on && entry.secret.kind().is(SecretKind::Digest(alg)))
}

fn has_hash(entry: &Entry, hash: &[u8], realm: &[u8], alg: Algorithm) -> bool
    ensures { result ≡ (bytes_eq (user_hash alg entry.now.name realm.now) hash.now && bytes_eq entry.now.realm realm.now) }
{
    user_hash(alg, entry.name.bytes(), realm).bytes() == hash && entry.realm.bytes() == realm
}
