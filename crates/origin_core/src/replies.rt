//! The reply to a request, by its verdict and what its file gave.
ghost use Rattle.std.specs.Prelude.{◌≡◌, ◌++◌, ◌≤◌, IfOk, OnOk};
ghost use Rattle.origin_core.specs.Replies.{allow_line, allow_lines, sent_body, reply_with, status_reply};
ghost use Rattle.request_deciding.specs.Serving.{incoming_of};

use crate::method::Method;
use auth_decide::Verdict;
use auth_grammar::{Octets, OutOfMemory, Role};
use connection_loop::Response;
use http_wire::{Answer, Pair, PairList, status_body, write_answer};
use request_deciding::{IncomingRequest, is_admitted, put_verdict};
use std::alloc::Global;

/// The methods that are served (RFC 9110 section 10.2.1).
fn allow_line(alloc: Global) -> Result<Pair, OutOfMemory>
    ensures { IfOk result (λ made. made ≡ allow_line) }
{
    let name = Octets::of(alloc, b"Allow")?;
    let value = Octets::of(alloc, b"GET, HEAD, PUT")?;
    Ok(Pair { name, value })
}

/// What a reply says of the methods that are served.
fn put_allow(alloc: Global, lines: &mut PairList, status: u16) -> Result<(), OutOfMemory>
    ensures { OnOk result (lines.new ≡ lines.old ++ allow_lines status) }
{
    if status == 405 {
        lines.push(allow_line(alloc)?)?;
    }
    Ok(())
}

fn sent_body(to_head: bool, body: &[u8]) -> &[u8]
    ensures { result.now ≡ sent_body to_head body.now }
{
    if to_head { b"" } else { body }
}

/// A reply with a body.
pub(crate) fn reply_with(
    alloc: Global,
    incoming: &IncomingRequest<'_>,
    verdict: Verdict,
    status: u16,
    body: Octets,
) -> Result<Response, OutOfMemory>
    requires low { 200 ≤ status }
    requires high { status ≤ 599 }
    ensures { IfOk result (λ response. response ≡ reply_with (incoming_of incoming.now) verdict status body) }
{
    let to_head = Method::of(incoming.request.method.bytes()).is_head();
    let admitted = is_admitted(&verdict);
    let mut lines = PairList::new(alloc);
    put_allow(alloc, &mut lines, status)?;
    let sent = sent_body(to_head, body.bytes());
    put_verdict(alloc, &mut lines, Role::Origin, verdict, sent)?;
    let answer = Answer {
        status,
        moment: incoming.moment,
        lines,
        body,
        to_head,
        close: incoming.last,
    };
    let text = write_answer(alloc, &answer)?;
    Ok(Response { text, admitted })
}

/// A reply that tells its status.
pub(crate) fn status_reply(
    alloc: Global,
    incoming: &IncomingRequest<'_>,
    verdict: Verdict,
    status: u16,
) -> Result<Response, OutOfMemory>
    requires low { 200 ≤ status }
    requires high { status ≤ 599 }
    ensures { IfOk result (λ response. response ≡ status_reply (incoming_of incoming.now) verdict status) }
{
    let body = status_body(alloc, status)?;
    reply_with(alloc, incoming, verdict, status, body)
}
