//! The values of secrets as text.
ghost use Rattle.std.specs.Prelude.{◌≡◌, ◌≢◌, ◌++◌, IfNone, IfSome, OnOk};
ghost use Rattle.cred_store.specs.Kinds.{IsSecret, kind_of};
ghost use Rattle.cred_store.specs.Values.{text_of};
ghost use Rattle.cred_store.specs.declared.entry.Secret.{Secret as SecretValue};
ghost use Rattle.cred_store.specs.declared.kind.SecretKind.TheVariants as kinds;

use crate::entry::Secret;
use crate::keys_text::{read_keys, write_keys};
use crate::kind::SecretKind;
use auth_grammar::{Octets, OutOfMemory};
use auth_hash::{Algorithm, HexText};
use std::alloc::Global;

/// The secret of the kind that a value is, where it is one.
pub(crate) fn secret_of(kind: SecretKind, value: &[u8]) -> Option<Secret>
    ensures kind { IfSome result (λ s. kind_of s ≡ kind) }
    ensures value { IfSome result (λ s. text_of s ≡ value.now) }
    ensures form { IfSome result (λ s. IsSecret s) }
    ensures none { IfNone result ((s : SecretValue) → IsSecret s → kind_of s ≡ kind → text_of s ≢ value.now) }
{
    match kind {
        SecretKind::Digest(alg) => digest_of(alg, value),
        SecretKind::ScramSha256 => match read_keys(value) {
            Some(keys) => Some(Secret::Scram(keys)),
            None => None,
        },
    }
}

/// The secret for Digest that a value is, where it has the digits of the algorithm.
pub(crate) fn digest_of(alg: Algorithm, value: &[u8]) -> Option<Secret>
    ensures kind { IfSome result (λ s. kind_of s ≡ kinds.Digest alg) }
    ensures value { IfSome result (λ s. text_of s ≡ value.now) }
    ensures form { IfSome result (λ s. IsSecret s) }
    ensures none { IfNone result ((s : SecretValue) → IsSecret s → kind_of s ≡ kinds.Digest alg → text_of s ≢ value.now) }
{
    let Some(ha1) = HexText::read(value) else {
        return None;
    };
    if value.len() != alg.digits() {
        return None;
    }
    Some(Secret::Digest { alg, ha1 })
}

/// Adds the value of a secret.
pub(crate) fn write_secret(
    alloc: Global,
    text: &mut Octets,
    secret: &Secret,
) -> Result<(), OutOfMemory>
    ensures { OnOk result (text.new ≡ text.old ++ text_of secret.now) }
{
    match secret {
        Secret::Digest { ha1, .. } => text.extend(ha1.bytes()),
        Secret::Scram(keys) => write_keys(alloc, text, keys),
    }
}
