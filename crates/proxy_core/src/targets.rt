//! The targets that a proxy serves.
ghost use Rattle.std.specs.Prelude.{◌≡◌, option_copied};
ghost use Rattle.proxy_core.specs.Targets.{authority_of, unless_empty};

use auth_grammar::{before_first, same_name};

/// What begins a target for a proxy (RFC 9112 section 3.2.2).
const SCHEME: &[u8] = b"http://";

fn unless_empty(text: &[u8]) -> Option<&[u8]>
    ensures { option_copied result ≡ unless_empty text.now }
{
    match text {
        [] => None,
        _ => Some(text),
    }
}

/// The authority of a target that begins with `http://`, whatever its case: what stands before the next slash or the
/// end. None for any other target, and for an empty authority.
pub fn authority_of(target: &[u8]) -> Option<&[u8]>
    ensures { option_copied result ≡ authority_of target.now }
{
    if target.len() < SCHEME.len() {
        return None;
    }
    if !same_name(&target[..SCHEME.len()], SCHEME) {
        return None;
    }
    let rest = &target[SCHEME.len()..];
    unless_empty(before_first(rest, b'/'))
}
