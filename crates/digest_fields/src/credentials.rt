//! Credentials.
ghost use Rattle.std.specs.Prelude.{◌≡◌, ◌⊎◌, ◌≤◌, ◌<◌, IfErr, IfOk, IsSome, MatchResult, is_some, length};
ghost use Rattle.auth_grammar.specs.Names.{params_of};
ghost use Rattle.digest_fields.specs.Credentials.{IsCnonce, IsCredentials, cnonce_of, credentials_item, credentials_of, credentials_params, sent_name, uri_of, user_of};

use crate::field::{FieldError, FieldName, at_most, copied, given, not_empty, required};
use crate::kind::Kind;
use crate::name::{UserName, name_of};
use crate::nc::Nc;
use crate::qop::qop_of;
use crate::realm::realm_of;
use crate::write::{add, add_some, add_true, digest_item};
use auth_grammar::{Item, Octets, OutOfMemory, Param, ParamList, same_name};
use auth_hash::Qop;
use std::alloc::Global;
use std::marker::Model;

/// How many bytes a client's nonce may have.
const CNONCE_LIMIT: u32 = 128;

/// Credentials of HTTP Digest (RFC 7616 section 3.4). Contracts see them as the record `Credentials`.
///
/// They keep what is demanded of credentials: name and realm have at most 64 bytes, all printable, and
/// the name has one at least and no colon, `uri` isn't empty, and `cnonce` has 1 to 128 bytes.
#[derive(Drop, Clone, PartialEq)]
pub struct DigestCredentials {
    pub user: UserName,
    pub realm: Octets,
    pub nonce: Octets,
    /// The request's target, as sent.
    pub uri: Octets,
    pub response: Octets,
    pub kind: Kind,
    pub cnonce: Octets,
    pub opaque: Option<Octets>,
    pub qop: Qop,
    pub nc: Nc,
}

impl Model for DigestCredentials {
    ghost use Rattle.digest_fields.specs.Credentials.{Credentials, IsCredentials};

    ghost Value = { Credentials };

    ghost use Rattle.digest_fields.specs.CredentialsFields.{fields_of, credentials_seen};

    ghost view = { credentials_seen };

    ghost invariant = { λ fields. IsCredentials (credentials_seen fields) };

    ghost inverse = { fields_of };
}

impl DigestCredentials {
    /// What the item's parameters say, or the first refusal in the order name, realm, nonce, uri,
    /// response, algorithm, cnonce, qop, nc, userhash. Others are ignored. The scheme isn't looked at,
    /// and of a name that comes twice the first counts.
    #[tactic(auto, unfolding(crate::specs::Credentials::credentials_of))]
    pub fn from_item(alloc: Global, item: &Item) -> Result<DigestCredentials, FieldError>
        ensures accepted { IfOk result (λ credentials. credentials_of (params_of item.now.rest) ≡ Ok credentials) }
        ensures refused { IfErr result (λ error. (error ≡ FieldError.OutOfMemory)
            ⊎ (credentials_of (params_of item.now.rest) ≡ Err error)) }
    {
        let params = item.rest.params();
        let name = name_of(alloc, params)?;
        let realm = realm_of(params)?;
        let nonce = required(params, FieldName::Nonce)?;
        let uri = uri_of(params)?;
        let response = required(params, FieldName::Response)?;
        let kind = Kind::of(params)?;
        let cnonce = cnonce_of(params)?;
        let qop = qop_of(params)?;
        let nc = Nc::given(params)?;
        let user = user_of(params, name)?;
        Ok(DigestCredentials {
            user,
            realm: Octets::of(alloc, realm)?,
            nonce: Octets::of(alloc, nonce)?,
            uri: Octets::of(alloc, uri)?,
            response: Octets::of(alloc, response)?,
            kind,
            cnonce: Octets::of(alloc, cnonce)?,
            opaque: copied(alloc, given(params, FieldName::Opaque))?,
            qop,
            nc,
        })
    }

    /// The credentials as an item. `from_item` reads it back.
    #[tactic(auto, using(crate::proofs::CredentialsTrip::read_back))]
    pub fn to_item(&self, alloc: Global) -> Result<Item, OutOfMemory>
        ensures text { IfOk result (λ item. item ≡ credentials_item self.now) }
        ensures read_back { IfOk result (λ item. credentials_of (params_of item.rest) ≡ Ok self.now) }
    {
        let params = self.written(alloc)?;
        digest_item(alloc, params)
    }

    /// The credentials' parameters, in the order of writing.
    #[tactic(auto, unfolding(crate::specs::Credentials::credentials_params))]
    fn written(&self, alloc: Global) -> Result<ParamList, OutOfMemory>
        ensures text { IfOk result (λ params. params ≡ credentials_params self.now) }
        ensures form { IsCredentials self.now }
    {
        let (name, hashed) = match &self.user {
            UserName::Plain(name) => (name, false),
            UserName::Hashed(name) => (name, true),
        };
        let mut params = ParamList::new(alloc);
        add(alloc, &mut params, FieldName::Username, name.bytes())?;
        add(alloc, &mut params, FieldName::Realm, self.realm.bytes())?;
        add(alloc, &mut params, FieldName::Nonce, self.nonce.bytes())?;
        add(alloc, &mut params, FieldName::Uri, self.uri.bytes())?;
        add(
            alloc,
            &mut params,
            FieldName::Response,
            self.response.bytes(),
        )?;
        add(alloc, &mut params, FieldName::Algorithm, self.kind.name())?;
        add(alloc, &mut params, FieldName::Cnonce, self.cnonce.bytes())?;
        add_some(alloc, &mut params, FieldName::Opaque, &self.opaque)?;
        add(alloc, &mut params, FieldName::Qop, self.qop.name())?;
        add(alloc, &mut params, FieldName::Nc, &self.nc.text)?;
        add_true(alloc, &mut params, FieldName::Userhash, hashed)?;
        Ok(params)
    }
}

/// The target that was asked for, which is there and not empty.
#[tactic(auto, unfolding(crate::specs::Credentials::uri_of))]
fn uri_of(params: &[Param]) -> Result<&[u8], FieldError>
    ensures value { MatchResult result
        (λ uri. uri_of params.now ≡ Ok uri.now)
        (λ error. uri_of params.now ≡ Err error) }
    ensures form { IfOk result (λ uri. 0 < length uri.now) }
{
    let uri = required(params, FieldName::Uri)?;
    not_empty(FieldName::Uri, uri)?;
    Ok(uri)
}

/// The client's nonce, of 1 to 128 bytes.
#[tactic(auto, unfolding(crate::specs::Credentials::cnonce_of))]
fn cnonce_of(params: &[Param]) -> Result<&[u8], FieldError>
    ensures value { MatchResult result
        (λ cnonce. cnonce_of params.now ≡ Ok cnonce.now)
        (λ error. cnonce_of params.now ≡ Err error) }
    ensures form { IfOk result (λ cnonce. IsCnonce cnonce.now) }
{
    let cnonce = required(params, FieldName::Cnonce)?;
    at_most(CNONCE_LIMIT, FieldName::Cnonce, cnonce)?;
    not_empty(FieldName::Cnonce, cnonce)?;
    Ok(cnonce)
}

/// The user of that name, hashed or plain as `userhash` says.
#[tactic(auto, unfolding(crate::specs::Credentials::user_of))]
fn user_of(params: &[Param], name: Octets) -> Result<UserName, FieldError>
    ensures value { result ≡ user_of params.now name }
    ensures form { IfOk result (λ user. sent_name user ≡ name) }
{
    let Some(text) = given(params, FieldName::Userhash) else {
        return Ok(UserName::Plain(name));
    };
    if same_name(text, b"false") {
        return Ok(UserName::Plain(name));
    }
    if same_name(text, b"true") && given(params, FieldName::UsernameStar).is_none() {
        return Ok(UserName::Hashed(name));
    }
    Err(FieldError::BadValue {
        name: FieldName::Userhash,
    })
}
