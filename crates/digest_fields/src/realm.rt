//! Realms.
ghost use Rattle.std.specs.Prelude.{◌≡◌, IfOk, MatchResult};
ghost use Rattle.std.specs.List.{list_all};
ghost use Rattle.auth_grammar.specs.Plain.{is_printable};
ghost use Rattle.digest_fields.specs.Realm.{IsRealm, realm_of};

use crate::field::{FieldError, FieldName, at_most, required};
use auth_grammar::{NAME_LIMIT, Param, is_printable};

/// The realm that the parameters say.
#[tactic(auto, unfolding(crate::specs::Realm::realm_of))]
pub(crate) fn realm_of(params: &[Param]) -> Result<&[u8], FieldError>
    ensures value { MatchResult result
        (λ realm. realm_of params.now ≡ Ok realm.now)
        (λ error. realm_of params.now ≡ Err error) }
    ensures form { IfOk result (λ realm. IsRealm realm.now) }
{
    let realm = required(params, FieldName::Realm)?;
    at_most(NAME_LIMIT as u32, FieldName::Realm, realm)?;
    if !are_printable(realm) {
        return Err(FieldError::BadValue {
            name: FieldName::Realm,
        });
    }
    Ok(realm)
}

fn are_printable(text: &[u8]) -> bool
    ensures { result ≡ list_all is_printable text.now }
{
    text.iter().all(|&byte| is_printable(byte))
}
