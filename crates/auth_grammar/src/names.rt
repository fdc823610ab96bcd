//! Names of schemes and parameters, which are compared without regard to the case of ASCII letters.
ghost use Rattle.std.specs.Prelude.{◌≡◌, option_copied};
ghost use Rattle.auth_grammar.specs.Names.{has_name, has_repeat, params_of, same_name, value_of};

use crate::items::{Param, ParamList, Rest};
use crate::octets::Octets;

/// Whether two names are one (RFC 9110 sections 11.1 and 11.2).
pub fn same_name(a: &[u8], b: &[u8]) -> bool
    ensures { result ≡ same_name a.now b.now }
{
    a.eq_ignore_ascii_case(b)
}

/// The value of the first parameter of that name, or None where there is none.
pub fn value_of<'a>(params: &'a [Param], name: &[u8]) -> Option<&'a Octets>
    ensures { option_copied result ≡ value_of name.now params.now }
{
    let found = params
        .iter()
        .find(|param| same_name(param.name.bytes(), name));
    found.map(|param| &param.value)
}

impl Rest {
    /// The parameters behind a scheme, of which there are none where it has none or a token68.
    pub fn params(&self) -> &[Param]
        ensures { result.now ≡ params_of self.now }
    {
        match self {
            Rest::Params(params) => params.as_slice(),
            _ => &[],
        }
    }
}

/// Whether a name comes twice. It compares each name with each, in time quadratic in their number.
pub fn has_repeat(params: &ParamList) -> bool
    ensures { result ≡ has_repeat params.now }
{
    let items = params.as_slice();
    for (i, param) in items.iter().enumerate() {
        if has_name(&items[i + 1..], param.name.bytes()) {
            return true;
        }
    }
    false
}

/// Whether a parameter has that name.
fn has_name(params: &[Param], name: &[u8]) -> bool
    ensures { result ≡ has_name name.now params.now }
{
    params
        .iter()
        .any(|param| same_name(param.name.bytes(), name))
}
