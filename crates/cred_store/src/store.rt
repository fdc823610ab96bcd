//! The store of secrets.
ghost use Rattle.std.specs.Prelude.{◌≡◌, ◌≢◌, ◌+◌, ◌-◌, ◌<◌, ◌^◌, ◌&&◌, true, false, [], List, IfErr, IfOk, OnErr, OnOk, count_by, length, option_copied};
ghost use Rattle.std.specs.List.{list_any};
ghost use Rattle.std.specs.Str.Lines.{lines};
ghost use Rattle.auth_grammar.specs.Plain.{is_plain_name};
ghost use Rattle.cred_store.specs.Changes.{put, put_all, with_flag, without};
ghost use Rattle.cred_store.specs.Faults.{FirstFault};
ghost use Rattle.cred_store.specs.Htdigest.{ArePairs, FirstPairFault, imported};
ghost use Rattle.cred_store.specs.Kinds.{IsSecret};
ghost use Rattle.cred_store.specs.LookUps.{entry_of, is_of, name_of_hash, scram_of, secret_of};
ghost use Rattle.cred_store.specs.Texts.{IsStore, IsStoreText, entry_at, store_text};
ghost use Rattle.cred_store.specs.declared.entry.Entry.{Entry as EntryValue};
ghost use Rattle.cred_store.specs.declared.error.StoreError.TheVariants.{OutOfMemory as NoMemory};
ghost use Rattle.cred_store.specs.declared.version.Version.TheVariants.{Two};

use crate::changes::{copy_of, count_of, put, put_all, set_flag, take_out};
use crate::entries::{entry_of, name_of_hash};
use crate::entry::{Entry, Secret};
use crate::error::StoreError;
use crate::htdigest::read_pairs;
use crate::kind::SecretKind;
use crate::text::{read_entries, write_entries};
use crate::version::behind_header;
use auth_grammar::{Octets, OutOfMemory, is_plain_name};
use auth_hash::{Algorithm, HexText};
use scram_proof::ScramKeys;
use std::alloc::Global;
use std::marker::Model;

/// The store of secrets. Contracts see it as the list of its entries, which rise by name, then
/// realm, then kind.
#[derive(Drop)]
pub struct Store {
    entries: Vec<Entry>,
}

impl Model for Store {
    ghost use Rattle.std.specs.Prelude.{List, ◌<◌, ◌^◌, length};
    ghost use Rattle.cred_store.specs.Texts.{IsStore};
    ghost use Rattle.cred_store.specs.declared.entry.Entry.{Entry};
    ghost use Rattle.cred_store.specs.declared.version.Version.TheVariants.{Two};

    ghost Value = { List Entry };

    ghost view = { λ s. s.entries.items };

    ghost invariant = { λ s. IsStore Two s.entries.items × (length s.entries.items < 2 ^ 32) };
}

impl Store {
    /// A store without entries, which takes no memory.
    pub fn new(alloc: Global) -> Store
        ensures { result ≡ [] }
    {
        Store {
            entries: Vec::new(alloc),
        }
    }

    /// Reads the text of a store in either version, or says what is wrong with its first faulty line. Each entry of a
    /// text in the first version is on.
    pub fn read(alloc: Global, text: &[u8]) -> Result<Store, StoreError>
        ensures text { IfOk result (IsStoreText text.now) }
        ensures fault { IfErr result (FirstFault text.now) }
        ensures refused { IfErr result (λ error. error ≢ NoMemory → (entries : List EntryValue) → IsStoreText text.now entries → ⊥) }
    {
        let (version, rest) = match behind_header(text) {
            Ok(read) => read,
            Err(why) => return Err(StoreError::BadLine { line: 1, why }),
        };
        let entries = read_entries(alloc, version, rest)?;
        Ok(Store { entries })
    }

    /// The text of the store, in the second version.
    pub fn write(&self, alloc: Global) -> Result<Octets, OutOfMemory>
        ensures store { IsStore Two self.now }
        ensures text { IfOk result (λ text. text ≡ store_text self.now) }
    {
        write_entries(alloc, self.entries.as_slice())
    }

    /// Gives the name a secret in the realm, instead of the one of this kind that it had there, and the flag `on`.
    /// The store has fewer than 2^32 - 1 entries. A secret for Digest has its algorithm's length, and one for SCRAM a
    /// salt that isn't empty and an iteration count of at least 1. `BadName` comes exactly where the name or the realm
    /// isn't 1 to 64 printable bytes without a colon. After an error the store is as it was.
    pub fn set(
        &mut self,
        alloc: Global,
        name: &[u8],
        realm: &[u8],
        secret: &Secret,
    ) -> Result<(), StoreError>
        requires room { length self.old < 2 ^ 32 - 1 }
        requires form { IsSecret secret.now }
        ensures ok { OnOk result (self.new ≡ put (entry_at name.now realm.now secret.now true) self.old) }
        ensures bad_name { (is_plain_name name.now && is_plain_name realm.now) ≡ false → result ≡ Err StoreError.BadName }
        ensures memory { (is_plain_name name.now && is_plain_name realm.now) ≡ true → IfErr result (λ error. error ≡ NoMemory) }
        ensures err { OnErr result (self.new ≡ self.old) }
    {
        if !are_plain(name, realm) {
            return Err(StoreError::BadName);
        }
        let entry = Entry::of(alloc, name, realm, secret.copy(), true)?;
        put(&mut self.entries, entry)?;
        Ok(())
    }

    /// Takes the secrets of a name in a realm out, and tells whether there were any.
    pub fn remove(&mut self, name: &[u8], realm: &[u8]) -> bool
        ensures there { result ≡ list_any (is_of name.now realm.now) self.old }
        ensures left { self.new ≡ without name.now realm.now self.old }
    {
        take_out(&mut self.entries, name, realm)
    }

    /// Gives the entries of a name in a realm this flag, and tells how many they are. It takes no memory.
    pub fn set_enabled(&mut self, name: &[u8], realm: &[u8], on: bool) -> u32
        ensures count { result ≡ count_by (is_of name.now realm.now) self.old }
        ensures flagged { self.new ≡ with_flag name.now realm.now on self.old }
    {
        set_flag(&mut self.entries, name, realm, on);
        count_of(self.entries.as_slice(), name, realm)
    }

    /// Sets the MD5 secrets that a text of htdigest says, each with the flag `on`, and tells for how many pairs of a user
    /// and a realm. The store's entries and the text's bytes are fewer than 2^32 together. After an error the store is
    /// as it was.
    pub fn import_htdigest(&mut self, alloc: Global, text: &[u8]) -> Result<u32, StoreError>
        requires { length self.old + length text.now < 2 ^ 32 }
        ensures ok { IfOk result (λ count. (pairs : List EntryValue) × ArePairs (lines text.now) pairs
            × (count ≡ length (imported pairs)) × (self.new ≡ put_all (imported pairs) self.old)) }
        ensures fault { IfErr result (FirstPairFault text.now) }
        ensures refused { IfErr result (λ error. error ≢ NoMemory → (pairs : List EntryValue) → ArePairs (lines text.now) pairs → ⊥) }
        ensures err { OnErr result (self.new ≡ self.old) }
    {
        let pairs = read_pairs(alloc, text)?;
        let mut imported = Vec::new(alloc);
        put_all(&mut imported, pairs)?;
        let count = imported.len() as u32;
        let mut entries = copy_of(alloc, self.entries.as_slice())?;
        put_all(&mut entries, imported)?;
        self.entries = entries;
        Ok(count)
    }

    /// How many entries it has, on or off.
    pub fn entries(&self) -> u32
        ensures { result ≡ length self.now }
    {
        self.entries.len() as u32
    }

    /// The secret of this name in this realm by this algorithm, if there is one and it is on.
    pub fn secret(&self, name: &[u8], realm: &[u8], alg: Algorithm) -> Option<HexText>
        ensures { result ≡ secret_of name.now realm.now alg self.now }
    {
        match self.entry_of(name, realm, SecretKind::Digest(alg)) {
            Some(entry) => entry.ha1(),
            None => None,
        }
    }

    /// The keys of this name in this realm for SCRAM-SHA-256, if there are some and they are on.
    pub fn scram(&self, name: &[u8], realm: &[u8]) -> Option<&ScramKeys>
        ensures { option_copied result ≡ scram_of name.now realm.now self.now }
    {
        match self.entry_of(name, realm, SecretKind::ScramSha256) {
            Some(entry) => entry.keys(),
            None => None,
        }
    }

    fn entry_of(&self, name: &[u8], realm: &[u8], kind: SecretKind) -> Option<&Entry>
        ensures { option_copied result ≡ entry_of name.now realm.now kind self.now }
    {
        entry_of(self.entries.as_slice(), name, realm, kind)
    }

    /// The first name in this realm that has a secret by this algorithm which is on, and this hash
    /// (RFC 7616 section 3.4.4).
    pub fn by_userhash(&self, alg: Algorithm, realm: &[u8], hash: &[u8]) -> Option<&Octets>
        ensures { option_copied result ≡ name_of_hash hash.now realm.now alg self.now }
    {
        name_of_hash(self.entries.as_slice(), alg, realm, hash)
    }
}

/// Whether both may stand in a store.
fn are_plain(name: &[u8], realm: &[u8]) -> bool
    ensures { result ≡ (is_plain_name name.now && is_plain_name realm.now) }
{
    is_plain_name(name) && is_plain_name(realm)
}
