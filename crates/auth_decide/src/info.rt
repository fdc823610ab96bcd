//! What the server proves to an admitted client.
ghost use Rattle.std.specs.Prelude.{◌≡◌, ◌++◌, ◌∷◌, [], IfOk};
ghost use Rattle.auth_grammar.specs.Params.{param};
ghost use Rattle.scram_text.specs.Items.{data_param};
ghost use Rattle.scram_text.specs.ServerFinals.{server_final_text, signed};
ghost use Rattle.auth_decide.specs.Infos.{info_of, next_param, proof_of, scram_info, scram_proof_of};

use crate::basis::ResponseBasis;
use crate::scram_exchange::ScramUser;
use crate::verified::Verified;
use auth_grammar::{Octets, OutOfMemory, Param, ParamList};
use scram_text::{ServerFinal, data_param};
use std::alloc::Global;
use std::fmt;

/// What the server proves in `Authentication-Info` (RFC 7616 section 3.5, RFC 7804 section 5). `Debug` prints none of it.
#[derive(Drop)]
pub enum Proof {
    /// By Digest.
    Digest {
        /// What the request's response was computed with.
        basis: ResponseBasis,
        /// The target, as the credentials have it.
        uri: Octets,
        /// The nonce that the client should use next, where one is offered.
        next: Option<[u8; 36]>,
    },
    /// By SCRAM-SHA-256 (RFC 7804 section 5): the exchange's name, and the server's signature over its texts.
    Scram {
        sid: [u8; 36],
        signature: [u8; 32],
    },
}

impl fmt::Debug for Proof {
    fn fmt<W: fmt::Write>(&self, f: &mut fmt::Formatter<W>) -> fmt::Result {
        f.write_str(match self {
            Proof::Digest { .. } => "Digest { ... }",
            Proof::Scram { .. } => "Scram { ... }",
        })
    }
}

/// What the server proves to an admitted client.
pub(crate) fn proof_of(verified: &Verified, next: Option<[u8; 36]>) -> Result<Proof, OutOfMemory>
    ensures { IfOk result (λ proof. proof ≡ proof_of verified.now next) }
{
    Ok(Proof::Digest {
        basis: ResponseBasis::of(verified)?,
        uri: verified.candidate.credentials.uri.copy()?,
        next,
    })
}

impl Proof {
    /// The parameters of `Authentication-Info` for a response with this body (RFC 7616 section 3.5).
    pub fn info(&self, alloc: Global, body: &[u8]) -> Result<ParamList, OutOfMemory>
        ensures { IfOk result (λ params. params ≡ info_of self.now body.now) }
    {
        match self {
            Proof::Digest { basis, uri, next } => {
                let value = basis.rspauth(uri.bytes(), body);
                let params = next_params(alloc, next)?;
                let params = with_param(alloc, params, b"qop", basis.qop.name())?;
                let params = with_param(alloc, params, b"rspauth", value.bytes())?;
                let params = with_param(alloc, params, b"cnonce", basis.cnonce.bytes())?;
                with_param(alloc, params, b"nc", &basis.nc.text)
            }
            Proof::Scram { sid, signature } => scram_info(alloc, sid, signature),
        }
    }
}

/// The server's last message in the exchange of this name.
fn scram_info(alloc: Global, sid: &[u8; 36], signature: &[u8; 32]) -> Result<ParamList, OutOfMemory>
    ensures { IfOk result (λ params. params ≡ scram_info sid.now signature.now) }
{
    let message = ServerFinal::Signature(*signature).write(alloc)?;
    let mut params = with_param(alloc, ParamList::new(alloc), b"sid", sid)?;
    params.push(data_param(alloc, message.bytes())?)?;
    Ok(params)
}

/// What the server proves to a user of SCRAM.
pub(crate) fn scram_proof_of(user: &ScramUser) -> Proof
    ensures { result ≡ scram_proof_of user.now }
{
    Proof::Scram {
        sid: user.sid.text(),
        signature: user.signature,
    }
}

/// The parameter of the next nonce, where one is offered.
fn next_params(alloc: Global, next: &Option<[u8; 36]>) -> Result<ParamList, OutOfMemory>
    ensures { IfOk result (λ params. params ≡ next_param next.now []) }
{
    let params = ParamList::new(alloc);
    match next {
        None => Ok(params),
        Some(nonce) => with_param(alloc, params, b"nextnonce", nonce),
    }
}

/// The parameters with one more at their end.
fn with_param(
    alloc: Global,
    mut params: ParamList,
    name: &[u8],
    value: &[u8],
) -> Result<ParamList, OutOfMemory>
    ensures { IfOk result (λ longer. longer ≡ params ++ param name.now value.now ∷ []) }
{
    params.push(Param::of(alloc, name, value)?)?;
    Ok(params)
}
