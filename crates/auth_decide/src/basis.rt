//! What the values of a request and of its reply are computed with.
use crate::verified::Verified;
use auth_grammar::{Octets, OutOfMemory};
use auth_hash::{Algorithm, HexText, Qop};
use digest_fields::Nc;
use digest_formulas::ResponseHash;
use std::fmt;
use std::marker::Model;

/// What a request's response was computed with, and the value of its reply is (RFC 7616 sections 3.4.1 and 3.5).
/// `Debug` prints none of it.
#[derive(Drop)]
pub struct ResponseBasis {
    alg: Algorithm,
    /// For a session variant the session's.
    secret: HexText,
    nonce: Octets,
    pub(crate) nc: Nc,
    pub(crate) cnonce: Octets,
    pub(crate) qop: Qop,
    hash: ResponseHash,
}

impl Model for ResponseBasis {
    ghost use Rattle.digest_formulas.specs.ResponseHashes.{IsResponseHash};
    ghost use Rattle.auth_decide.specs.Bases.{Basis};

    ghost Value = { Basis };

    ghost view = { λ b. record {
      alg = b.alg;
      secret = b.secret;
      nonce = b.nonce;
      nc = b.nc;
      cnonce = b.cnonce;
      qop = b.qop;
    } };

    ghost invariant = { λ b. IsResponseHash b.hash b.alg b.secret b.nonce b.nc b.cnonce b.qop };
}

impl fmt::Debug for ResponseBasis {
    fn fmt<W: fmt::Write>(&self, f: &mut fmt::Formatter<W>) -> fmt::Result {
        f.write_str("ResponseBasis { ... }")
    }
}

impl ResponseBasis {
    ghost use Rattle.std.specs.Prelude.{◌≡◌, IfOk};
    ghost use Rattle.auth_decide.specs.Bases.{basis_of, rspauth_of};

    /// What the response of these credentials was computed with.
    pub(crate) fn of(verified: &Verified) -> Result<ResponseBasis, OutOfMemory>
        ensures { IfOk result (λ basis. basis ≡ basis_of verified.now) }
    {
        let credentials = &verified.candidate.credentials;
        Ok(ResponseBasis {
            alg: credentials.kind.alg,
            secret: verified.secret,
            nonce: credentials.nonce.copy()?,
            nc: credentials.nc,
            cnonce: credentials.cnonce.copy()?,
            qop: credentials.qop,
            hash: verified.hash.copy(),
        })
    }

    /// The value that the server proves itself by, for a request for this target and a response with this body (RFC
    /// 7616 section 3.5).
    pub(crate) fn rspauth(&self, uri: &[u8], body: &[u8]) -> HexText
        ensures { result ≡ rspauth_of self.now uri.now body.now }
    {
        self.hash.rspauth(uri, body)
    }
}
