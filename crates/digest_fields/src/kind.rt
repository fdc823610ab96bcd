//! The variants of an algorithm.
ghost use Rattle.std.specs.Prelude.{◌≡◌, find, option_copied};
ghost use Rattle.auth_grammar.specs.Names.{same_name};
ghost use Rattle.digest_fields.specs.Kind.{kind_name, kind_named, kind_of};

use crate::field::{FieldError, FieldName, given};
use auth_grammar::{Param, same_name};
use auth_hash::Algorithm;

/// A hash algorithm, plain or for sessions (RFC 7616 section 3.4.2).
#[derive(Debug, Drop, Clone, Copy, PartialEq, Eq)]
pub struct Kind {
    pub alg: Algorithm,
    pub session: bool,
}

/// Every kind.
static KINDS: [Kind; 6] = [
    Kind {
        alg: Algorithm::Md5,
        session: false,
    },
    Kind {
        alg: Algorithm::Md5,
        session: true,
    },
    Kind {
        alg: Algorithm::Sha256,
        session: false,
    },
    Kind {
        alg: Algorithm::Sha256,
        session: true,
    },
    Kind {
        alg: Algorithm::Sha512t256,
        session: false,
    },
    Kind {
        alg: Algorithm::Sha512t256,
        session: true,
    },
];

impl Kind {
    /// How the kind is written in `algorithm`, as `SHA-256-sess`.
    #[tactic(auto, unfolding(crate::specs::Kind::kind_name))]
    pub fn name(&self) -> &'static [u8]
        ensures { result.now ≡ kind_name self.now }
    {
        match (self.alg, self.session) {
            (Algorithm::Md5, false) => b"MD5",
            (Algorithm::Md5, true) => b"MD5-sess",
            (Algorithm::Sha256, false) => b"SHA-256",
            (Algorithm::Sha256, true) => b"SHA-256-sess",
            (Algorithm::Sha512t256, false) => b"SHA-512-256",
            (Algorithm::Sha512t256, true) => b"SHA-512-256-sess",
        }
    }

    /// The kind of that name, without regard to case.
    #[tactic(auto, unfolding(crate::specs::Kind::kind_named))]
    pub fn named(text: &[u8]) -> Option<Kind>
        ensures { result ≡ kind_named text.now }
    {
        named_in(&KINDS, text).copied()
    }

    /// The kind that the parameters say, which is MD5 where they say none.
    #[tactic(auto, unfolding(crate::specs::Kind::kind_of))]
    pub(crate) fn of(params: &[Param]) -> Result<Kind, FieldError>
        ensures { result ≡ kind_of params.now }
    {
        let text = given(params, FieldName::Algorithm).unwrap_or(b"MD5");
        Kind::named(text).ok_or(FieldError::BadValue {
            name: FieldName::Algorithm,
        })
    }
}

/// The first of the kinds that has that name.
fn named_in<'a>(kinds: &'a [Kind], text: &[u8]) -> Option<&'a Kind>
    ensures { option_copied result ≡ find (λ kind. same_name (kind_name kind) text.now) kinds.now }
{
    kinds.iter().find(|kind| same_name(kind.name(), text))
}
