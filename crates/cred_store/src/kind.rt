//! The kinds of secrets, and how a store names them.
ghost use Rattle.std.specs.Prelude.{◌≡◌, ◌≢◌, IfSome, IfNone};
ghost use Rattle.cred_store.specs.Kinds.{kind_name, same_kind};
ghost use Rattle.cred_store.specs.declared.kind.SecretKind.{SecretKind as KindValue};

use auth_hash::Algorithm;

/// A kind of secret.
#[derive(Debug, Drop, Clone, Copy, PartialEq, Eq)]
pub enum SecretKind {
    /// H(name:realm:password) of Digest, by this algorithm.
    Digest(Algorithm),
    /// The keys of SCRAM-SHA-256.
    ScramSha256,
}

impl SecretKind {
    /// How a store names it.
    pub fn name(self) -> &'static [u8]
        ensures { result.now ≡ kind_name self }
    {
        match self {
            SecretKind::Digest(Algorithm::Md5) => b"md5",
            SecretKind::Digest(Algorithm::Sha256) => b"sha-256",
            SecretKind::Digest(Algorithm::Sha512t256) => b"sha-512-256",
            SecretKind::ScramSha256 => b"scram-sha-256",
        }
    }

    /// The kind that a store names so, if there is one.
    pub fn named(name: &[u8]) -> Option<SecretKind>
        ensures some { IfSome result (λ kind. name.now ≡ kind_name kind) }
        ensures none { IfNone result ((kind : KindValue) → name.now ≢ kind_name kind) }
    {
        if name == b"md5".as_slice() {
            return Some(SecretKind::Digest(Algorithm::Md5));
        }
        if name == b"sha-256".as_slice() {
            return Some(SecretKind::Digest(Algorithm::Sha256));
        }
        if name == b"sha-512-256".as_slice() {
            return Some(SecretKind::Digest(Algorithm::Sha512t256));
        }
        if name == b"scram-sha-256".as_slice() {
            return Some(SecretKind::ScramSha256);
        }
        None
    }

    /// Whether the two are one.
    pub(crate) fn is(self, other: SecretKind) -> bool
        ensures { result ≡ same_kind self other }
    {
        match (self, other) {
            (SecretKind::Digest(a), SecretKind::Digest(b)) => a.is(b),
            (SecretKind::ScramSha256, SecretKind::ScramSha256) => true,
            _ => false,
        }
    }
}
