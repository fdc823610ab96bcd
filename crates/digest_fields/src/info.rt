//! What a server says of the request that it answers.
ghost use Rattle.std.specs.Prelude.{◌≡◌, ◌⊎◌, ◌<◌, IfErr, IfOk, MatchResult, length, option_copied};
ghost use Rattle.std.specs.Option.{ForSome};
ghost use Rattle.digest_fields.specs.Info.{IsInfo, info_of, info_params, nextnonce_of, used_nc_of, used_qop_of};
ghost use Rattle.digest_fields.specs.Nc.{IsNc};

use crate::field::{FieldError, FieldName, copied, given, not_empty};
use crate::nc::Nc;
use crate::qop::qop_from;
use crate::write::{add, add_some};
use auth_grammar::{Octets, OutOfMemory, Param, ParamList};
use auth_hash::Qop;
use std::alloc::Global;
use std::marker::Model;

/// An `Authentication-Info` of HTTP Digest (RFC 7616 section 3.5). Contracts see it as the record `Info`.
///
/// It keeps that a next nonce isn't empty.
#[derive(Drop, Clone, PartialEq)]
pub struct DigestInfo {
    /// The nonce to take from now on.
    pub nextnonce: Option<Octets>,
    pub qop: Option<Qop>,
    /// What shows that the server knows the secret too.
    pub rspauth: Option<Octets>,
    pub cnonce: Option<Octets>,
    pub nc: Option<Nc>,
}

impl Model for DigestInfo {
    ghost use Rattle.digest_fields.specs.Info.{Info, IsInfo};

    ghost Value = { Info };

    ghost use Rattle.digest_fields.specs.InfoFields.{fields_of, info_seen};

    ghost view = { info_seen };

    ghost invariant = { λ fields. IsInfo (info_seen fields) };

    ghost inverse = { fields_of };
}

impl DigestInfo {
    /// What the parameters say, or the first refusal in the order nextnonce, qop, nc. Others are
    /// ignored, and of a name that comes twice the first counts.
    #[tactic(auto, unfolding(crate::specs::Info::info_of))]
    pub fn from_params(alloc: Global, params: &ParamList) -> Result<DigestInfo, FieldError>
        ensures accepted { IfOk result (λ info. info_of params.now ≡ Ok info) }
        ensures refused { IfErr result (λ error. (error ≡ FieldError.OutOfMemory) ⊎ (info_of params.now ≡ Err error)) }
    {
        let params = params.as_slice();
        let nextnonce = nextnonce_of(params)?;
        let qop = used_qop_of(params)?;
        let nc = used_nc_of(params)?;
        Ok(DigestInfo {
            nextnonce: copied(alloc, nextnonce)?,
            qop,
            rspauth: copied(alloc, given(params, FieldName::Rspauth))?,
            cnonce: copied(alloc, given(params, FieldName::Cnonce))?,
            nc,
        })
    }

    /// The parameters, in the order of writing. `from_params` reads them back.
    #[tactic(auto, using(crate::proofs::InfoTrip::read_back))]
    pub fn to_params(&self, alloc: Global) -> Result<ParamList, OutOfMemory>
        ensures text { IfOk result (λ params. params ≡ info_params self.now) }
        ensures read_back { IfOk result (λ params. info_of params ≡ Ok self.now) }
    {
        self.written(alloc)
    }

    #[tactic(auto, unfolding(crate::specs::Info::info_params))]
    fn written(&self, alloc: Global) -> Result<ParamList, OutOfMemory>
        ensures text { IfOk result (λ params. params ≡ info_params self.now) }
        ensures form { IsInfo self.now }
    {
        let mut params = ParamList::new(alloc);
        add_some(alloc, &mut params, FieldName::Nextnonce, &self.nextnonce)?;
        if let Some(qop) = &self.qop {
            add(alloc, &mut params, FieldName::Qop, qop.name())?;
        }
        add_some(alloc, &mut params, FieldName::Rspauth, &self.rspauth)?;
        add_some(alloc, &mut params, FieldName::Cnonce, &self.cnonce)?;
        if let Some(nc) = &self.nc {
            add(alloc, &mut params, FieldName::Nc, &nc.text)?;
        }
        Ok(params)
    }
}

/// The next nonce, which isn't empty.
#[tactic(auto, unfolding(crate::specs::Info::nextnonce_of))]
fn nextnonce_of(params: &[Param]) -> Result<Option<&[u8]>, FieldError>
    ensures value { MatchResult result
        (λ nonce. nextnonce_of params.now ≡ Ok (option_copied nonce))
        (λ error. nextnonce_of params.now ≡ Err error) }
    ensures form { IfOk result (λ nonce. ForSome (option_copied nonce) (λ n. 0 < length n)) }
{
    let Some(nonce) = given(params, FieldName::Nextnonce) else {
        return Ok(None);
    };
    not_empty(FieldName::Nextnonce, nonce)?;
    Ok(Some(nonce))
}

/// The quality of protection that was used.
#[tactic(auto, unfolding(crate::specs::Info::used_qop_of))]
fn used_qop_of(params: &[Param]) -> Result<Option<Qop>, FieldError>
    ensures { result ≡ used_qop_of params.now }
{
    match given(params, FieldName::Qop) {
        Some(text) => Ok(Some(qop_from(text)?)),
        None => Ok(None),
    }
}

/// The count that was used.
#[tactic(auto, unfolding(crate::specs::Info::used_nc_of))]
fn used_nc_of(params: &[Param]) -> Result<Option<Nc>, FieldError>
    ensures value { result ≡ used_nc_of params.now }
    ensures form { IfOk result (λ nc. ForSome nc IsNc) }
{
    match given(params, FieldName::Nc) {
        Some(text) => Ok(Some(Nc::read(text)?)),
        None => Ok(None),
    }
}
