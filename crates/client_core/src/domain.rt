//! Which requests a challenge is for.
ghost use Rattle.std.specs.Prelude.{◌≡◌, IfOk};
ghost use Rattle.client_core.specs.Domains.{begins, lets_pass, some_begins, url_of};

use crate::request::OutRequest;
use auth_grammar::{Octets, OutOfMemory, Role};
use std::alloc::Global;

/// Whether the challenge's `domain` lets the request have its credentials (RFC 7616 section 3.3): it does where it is
/// absent or empty, where a proxy challenged, or where one of its URIs begins the target or the whole URL.
pub(crate) fn lets_pass(
    alloc: Global,
    role: Role,
    domain: &Option<Octets>,
    request: &OutRequest,
) -> Result<bool, OutOfMemory>
    ensures { IfOk result (λ passes. passes ≡ lets_pass role domain.now request.now) }
{
    let domain = match (role, domain) {
        (Role::Origin, Some(domain)) => domain,
        _ => return Ok(true),
    };
    let url = url_of(alloc, request)?;
    let uris = domain.bytes();
    let passes = some_begins(uris, request.target.bytes()) || some_begins(uris, url.bytes());
    Ok(uris.is_empty() || passes)
}

/// The request's whole URL.
fn url_of(alloc: Global, request: &OutRequest) -> Result<Octets, OutOfMemory>
    ensures { IfOk result (λ url. url ≡ url_of request.now) }
{
    let mut url = Octets::of(alloc, b"http://")?;
    url.extend(request.authority.bytes())?;
    url.extend(request.target.bytes())?;
    Ok(url)
}

/// Whether one of the URIs, with a space between each two, begins the text.
fn some_begins(uris: &[u8], text: &[u8]) -> bool
    ensures { result ≡ some_begins uris.now text.now }
{
    uris.split(|&byte| byte == b' ')
        .any(|uri| begins(uri, text))
}

/// Whether the URI isn't empty and begins the text.
#[tactic(auto, unfolding(crate::specs::Domains::begins))]
fn begins(uri: &[u8], text: &[u8]) -> bool
    ensures { result ≡ begins text.now uri.now }
{
    !uri.is_empty() && text.starts_with(uri)
}
