//! Entries in the order of their keys.
ghost use Rattle.std.specs.Prelude.{◌≡◌, ◌<◌, ◌≤◌, IfErr, IfOk, option_copied, length};
ghost use Rattle.std.specs.List.{HoldsAt};
ghost use Rattle.std.specs.List.Sorted.{IsPartitionPoint};
ghost use Rattle.std.specs.declared.cmp.Ordering.TheVariants.{Less, Equal, Greater};
ghost use Rattle.cred_store.specs.Keys.{IsRising, Stands, key_at};
ghost use Rattle.cred_store.specs.LookUps.{entry_of, name_of_hash};

use crate::entry::{Entry, compare, is_hashed};
use crate::kind::SecretKind;
use auth_grammar::Octets;
use auth_hash::Algorithm;

/// The place of the entry of this key, or the one where it would stand.
pub(crate) fn place_of(
    entries: &[Entry],
    name: &[u8],
    realm: &[u8],
    kind: SecretKind,
) -> Result<usize, usize>
    requires { IsRising entries.now }
    ensures found { IfOk result (HoldsAt (Stands (key_at name.now realm.now kind) Equal) entries.now) }
    ensures found_bound { IfOk result (λ at. at < length entries.now) }
    ensures free { IfErr result
        (IsPartitionPoint (Stands (key_at name.now realm.now kind) Less) (Stands (key_at name.now realm.now kind) Greater) entries.now) }
    ensures free_bound { IfErr result (λ at. at ≤ length entries.now) }
{
    entries.binary_search_by(|entry| compare(entry, name, realm, kind))
}

/// The entry of this key, if there is one.
pub(crate) fn entry_of<'s>(
    entries: &'s [Entry],
    name: &[u8],
    realm: &[u8],
    kind: SecretKind,
) -> Option<&'s Entry>
    requires { IsRising entries.now }
    ensures { option_copied result ≡ entry_of name.now realm.now kind entries.now }
{
    match place_of(entries, name, realm, kind) {
        Ok(at) => Some(&entries[at]),
        Err(_) => None,
    }
}

/// The first name in this realm that has a secret by this algorithm, which is on, and this hash.
pub(crate) fn name_of_hash<'s>(
    entries: &'s [Entry],
    alg: Algorithm,
    realm: &[u8],
    hash: &[u8],
) -> Option<&'s Octets>
    ensures { option_copied result ≡ name_of_hash hash.now realm.now alg entries.now }
{
    let found = entries
        .iter()
        .find(|entry| is_hashed(entry, hash, realm, alg));
    found.map(|entry| &entry.name)
}
