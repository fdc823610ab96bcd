//! What goes from the client to the server, and back.
ghost use Rattle.std.specs.Prelude.{◌≡◌, true, if◌then◌else◌, Some, None, IfOk};
ghost use Rattle.drill.specs.Requests.{can_answer, can_send, credentials_line, out_request, plain_request, request_with, response_with};

use auth_grammar::{Item, ItemList, Octets, OutOfMemory, Quoting, valid_items, write_items};
use client_core::OutRequest;
use http_wire::{Fields, Request, Response};
use std::alloc::Global;

/// The most bytes of a line.
const LINE_LIMIT: usize = 16_000;

/// The request as the client knows it.
pub(crate) fn out_request(alloc: Global) -> Result<OutRequest, OutOfMemory>
    ensures { IfOk result (λ request. request ≡ out_request) }
{
    Ok(OutRequest {
        method: Octets::of(alloc, b"GET")?,
        authority: Octets::of(alloc, b"drill")?,
        target: Octets::of(alloc, b"/")?,
        body: Octets::new(alloc),
    })
}

/// A GET of `/` with these fields.
fn request_of(alloc: Global, fields: Fields) -> Result<Request, OutOfMemory>
    ensures { IfOk result (λ request. request ≡ record plain_request { fields = fields }) }
{
    Ok(Request {
        method: Octets::of(alloc, b"GET")?,
        target: Octets::of(alloc, b"/")?,
        minor: 1,
        fields,
        body: Octets::new(alloc),
        closes: false,
    })
}

/// The request without credentials, as the server gets it.
pub(crate) fn plain_request(alloc: Global) -> Result<Request, OutOfMemory>
    ensures { IfOk result (λ request. request ≡ plain_request) }
{
    request_of(alloc, Fields::new(alloc))
}

/// The line of the credentials.
fn credentials_line(alloc: Global, item: &Item) -> Result<Octets, OutOfMemory>
    ensures { IfOk result (λ line. line ≡ credentials_line item.now) }
{
    let mut items = ItemList::new(alloc);
    items.push(item.clone()?)?;
    write_items(alloc, &items, Quoting::Credentials)
}

/// The request with credentials.
pub(crate) fn request_with(alloc: Global, item: &Item) -> Result<Request, OutOfMemory>
    requires { can_send item.now ≡ true }
    ensures { IfOk result (λ request. request ≡ request_with item.now) }
{
    let line = credentials_line(alloc, item)?;
    let fields = Fields::one(alloc, b"authorization", line)?;
    request_of(alloc, fields)
}

/// Whether the item can be written, on a line that a head has room for.
pub(crate) fn can_send(alloc: Global, item: &Item) -> Result<bool, OutOfMemory>
    ensures { IfOk result (λ can. can ≡ can_send item.now) }
{
    let line = credentials_line(alloc, item)?;
    Ok(item.valid() && line.len() <= LINE_LIMIT)
}

/// The answer with these challenges, where it can be written on a line that a head has room for.
pub(crate) fn response_with(
    alloc: Global,
    items: &ItemList,
) -> Result<Option<Response>, OutOfMemory>
    ensures { IfOk result (λ response. response ≡ (if can_answer items.now then Some (response_with items.now) else None)) }
{
    let line = write_items(alloc, items, Quoting::Challenge)?;
    if !valid_items(items) || line.len() > LINE_LIMIT {
        return Ok(None);
    }
    Ok(Some(Response {
        status: 401,
        fields: Fields::one(alloc, b"www-authenticate", line)?,
        body: Octets::new(alloc),
    }))
}
