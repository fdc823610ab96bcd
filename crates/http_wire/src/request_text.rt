//! Requests, and how they are written (RFC 9112 section 3).
ghost use Rattle.std.specs.Prelude.{◌≡◌, ◌++◌, OnOk, IfOk};
ghost use Rattle.http_wire.specs.RequestTexts.{request_line, host_line, request_length_line, request_text};

use crate::pair::PairList;
use crate::text::{put, put_close, put_length, put_pairs, with_room};
use auth_grammar::{Octets, OutOfMemory};
use std::alloc::Global;

#[tactic(auto, unfolding(crate::specs::RequestTexts::request_line))]
fn put_request_line(out: &mut Vec<u8>, method: &[u8], target: &[u8]) -> Result<(), OutOfMemory>
    ensures { OnOk result (out.new.items ≡ out.old.items ++ request_line method.now target.now) }
{
    put(out, method)?;
    put(out, b" ")?;
    put(out, target)?;
    put(out, b" HTTP/1.1\r\n")
}

#[tactic(auto, unfolding(crate::specs::RequestTexts::host_line))]
fn put_host(out: &mut Vec<u8>, host: &[u8]) -> Result<(), OutOfMemory>
    ensures { OnOk result (out.new.items ≡ out.old.items ++ host_line host.now) }
{
    put(out, b"Host: ")?;
    put(out, host)?;
    put(out, b"\r\n")
}

#[tactic(auto, unfolding(crate::specs::RequestTexts::request_length_line))]
fn put_request_length(out: &mut Vec<u8>, method: &[u8], count: usize) -> Result<(), OutOfMemory>
    ensures { OnOk result (out.new.items ≡ out.old.items ++ request_length_line method.now count) }
{
    if count == 0 && method != b"PUT".as_slice() {
        return Ok(());
    }
    put_length(out, count)
}

/// The text of a request on a connection that closes after its response. The length stands where there is a body, and
/// always where the method is `PUT` (RFC 9110 section 8.6).
#[tactic(auto, unfolding(crate::specs::RequestTexts::request_text))]
pub fn write_request(
    alloc: Global,
    method: &[u8],
    target: &[u8],
    host: &[u8],
    lines: &PairList,
    body: &[u8],
) -> Result<Octets, OutOfMemory>
    ensures { IfOk result (λ text. text ≡ request_text method.now target.now host.now lines.now body.now) }
{
    let mut out = with_room(alloc, body.len())?;
    put_request_line(&mut out, method, target)?;
    put_host(&mut out, host)?;
    put_pairs(&mut out, lines.as_slice())?;
    put_request_length(&mut out, method, body.len())?;
    put_close(&mut out, true)?;
    put(&mut out, b"\r\n")?;
    put(&mut out, body)?;
    Ok(Octets::from_vec(out))
}
