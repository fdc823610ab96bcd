//! What can be written.
ghost use Rattle.std.specs.Prelude.{◌≡◌, ◌≤◌, ◌==◌, length};
ghost use Rattle.std.specs.List.{list_all};
ghost use Rattle.auth_grammar.specs.Kinds.{is_token, kind_of};
ghost use Rattle.auth_grammar.specs.Valid.{are_valid_params, is_quotable_text, is_token68_text, is_token_text, is_valid, is_valid_param, is_valid_rest, token68_len};

use crate::items::{Item, ItemList, Param, ParamList, Rest};
use crate::kinds::kind_at;
use crate::names::has_repeat;
use crate::runs::token68_len;

impl Item {
    /// Whether it can be written: its scheme and names are tokens, a token68 is one, parameters are
    /// one or more of which no name comes twice, and values have only bytes that a quoted string
    /// can mean. For n parameters it makes n * n comparisons of names.
    pub fn valid(&self) -> bool
        ensures { result ≡ is_valid self.now }
    {
        is_token(self.scheme.bytes()) && self.rest.valid()
    }
}

impl Rest {
    /// Whether it can be written behind a scheme.
    fn valid(&self) -> bool
        ensures { result ≡ is_valid_rest self.now }
    {
        match self {
            Rest::Empty => true,
            Rest::Token68(text) => is_token68(text.bytes()),
            Rest::Params(params) => !params.is_empty() && valid_params(params),
        }
    }
}

/// Whether all items can be written.
pub fn valid_items(items: &ItemList) -> bool
    ensures { result ≡ list_all is_valid items.now }
{
    items.as_slice().iter().all(|item| item.valid())
}

/// Whether parameters can be written: names are tokens, none comes twice, and values have only
/// bytes that a quoted string can mean. For n parameters it makes n * n comparisons of names.
pub fn valid_params(params: &ParamList) -> bool
    ensures { result ≡ are_valid_params params.now }
{
    all_valid(params.as_slice()) && !has_repeat(params)
}

fn all_valid(params: &[Param]) -> bool
    ensures { result ≡ list_all is_valid_param params.now }
{
    params.iter().all(|param| valid_param(param))
}

fn valid_param(param: &Param) -> bool
    ensures { result ≡ is_valid_param param.now }
{
    is_token(param.name.bytes()) && is_quotable(param.value.bytes())
}

/// Whether the text is a token (RFC 9110 section 5.6.2).
pub fn is_token(text: &[u8]) -> bool
    ensures { result ≡ is_token_text text.now }
{
    0 < text.len() && all_token(text)
}

fn all_token(text: &[u8]) -> bool
    ensures { result ≡ list_all (λ b. is_token (kind_of b)) text.now }
{
    text.iter().all(|b| kind_at(*b).is_token())
}

/// Whether the text is a token68 (RFC 9110 section 11.2).
pub fn is_token68(text: &[u8]) -> bool
    ensures { result ≡ is_token68_text text.now }
{
    let body = token68_len(text);
    0 < body && all_equals(&text[body..])
}

fn all_equals(text: &[u8]) -> bool
    ensures { result ≡ list_all (λ b. b == 61) text.now }
{
    text.iter().all(|b| *b == b'=')
}

/// Whether a quoted string can mean these bytes (RFC 9110 section 5.6.4).
pub fn is_quotable(value: &[u8]) -> bool
    ensures { result ≡ is_quotable_text value.now }
{
    value.iter().all(|b| kind_at(*b).is_escapable())
}
