//! Credentials whose response is right.
use crate::candidate::Candidate;
use crate::response::{is_right, response_hash, response_secret};
use auth_hash::HexText;
use digest_formulas::ResponseHash;
use http_wire::Request;
use nonce_shard::Prime;
use std::fmt;
use std::marker::Model;

/// Credentials whose response is right, by this client's nonce where they are of a session. What the response was
/// hashed with is kept, for the value that the server proves itself by: contracts don't see it. `Debug` prints none of
/// it.
#[derive(Drop)]
pub struct Verified {
    pub(crate) candidate: Candidate,
    pub(crate) prime: Prime,
    /// The secret that the response was computed with.
    pub(crate) secret: HexText,
    pub(crate) hash: ResponseHash,
}

impl Model for Verified {
    ghost use Rattle.std.specs.Prelude.{◌≡◌};
    ghost use Rattle.auth_decide.specs.Responses.{response_secret};
    ghost use Rattle.auth_decide.specs.VerifiedCredentials.{IsHashOf, VerifiedCredentials};

    ghost Value = { VerifiedCredentials };

    ghost view = { λ v. record { candidate = v.candidate; prime = v.prime } };

    ghost invariant = { λ v. record {
      secret : v.secret ≡ response_secret v.candidate v.prime.items;
      hash : IsHashOf v.hash v.candidate v.secret;
    } };
}

impl fmt::Debug for Verified {
    fn fmt<W: fmt::Write>(&self, f: &mut fmt::Formatter<W>) -> fmt::Result {
        f.write_str("Verified { ... }")
    }
}

impl Verified {
    ghost use Rattle.std.specs.Prelude.{◌≡◌};
    ghost use Rattle.auth_decide.specs.VerifiedCredentials.{verified_of};

    /// The credentials, where their response to this request is right.
    pub(crate) fn of(request: &Request, candidate: Candidate, prime: Prime) -> Option<Verified>
        ensures { result ≡ verified_of request.now candidate prime.items }
    {
        let secret = response_secret(&candidate, prime.as_slice());
        let hash = response_hash(&candidate, &secret);
        if !is_right(request, &candidate, &hash) {
            return None;
        }
        Some(Verified {
            candidate,
            prime,
            secret,
            hash,
        })
    }
}
