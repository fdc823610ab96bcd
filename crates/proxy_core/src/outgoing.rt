//! A request as it goes up.
ghost use Rattle.std.specs.Prelude.{◌≡◌, IfOk};
ghost use Rattle.proxy_core.specs.Outgoing.{is_head, outgoing_of};

use crate::fields::lines_up;
use auth_decide::without_authority;
use auth_grammar::{Octets, OutOfMemory};
use dial_exchange::Outgoing;
use http_wire::{Request, write_request};
use std::alloc::Global;

/// Whether a method is HEAD. Its case matters.
pub(crate) fn is_head(method: &[u8]) -> bool
    ensures { result ≡ is_head method.now }
{
    method == b"HEAD".as_slice()
}

/// A request as it goes up to this authority, which is its host.
pub(crate) fn outgoing_of(
    alloc: Global,
    request: &Request,
    authority: &[u8],
) -> Result<Outgoing, OutOfMemory>
    ensures { IfOk result (λ outgoing. outgoing ≡ outgoing_of request.now authority.now) }
{
    let lines = lines_up(alloc, &request.fields)?;
    let method = request.method.bytes();
    let target = without_authority(request.target.bytes());
    let text = write_request(
        alloc,
        method,
        target,
        authority,
        &lines,
        request.body.bytes(),
    )?;
    Ok(Outgoing {
        authority: Octets::of(alloc, authority)?,
        text,
        to_head: is_head(method),
    })
}
