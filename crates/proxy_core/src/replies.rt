//! The reply to a request.
ghost use Rattle.std.specs.Prelude.{◌≡◌, ◌≤◌, IfOk};
ghost use Rattle.dial_exchange.specs.Exchanges.{IsFineReception};
ghost use Rattle.proxy_core.specs.Fields.{passed_lines};
ghost use Rattle.proxy_core.specs.declared.fields.Way.{Way};
ghost use Rattle.proxy_core.specs.Replies.{no_target_reply, reply_by, reply_with, sent_body, status_reply, text_of};
ghost use Rattle.request_deciding.specs.Serving.{incoming_of};

use crate::fields::{Way, passed_lines};
use crate::outgoing::is_head;
use auth_decide::Verdict;
use auth_grammar::{Octets, OutOfMemory, Role};
use connection_loop::Response as Reply;
use dial_exchange::Reception;
use http_wire::{Answer, PairList, Response, status_body, write_answer};
use request_deciding::{IncomingRequest, is_admitted, put_verdict};
use std::alloc::Global;

/// The text of a reply.
fn text_of(
    alloc: Global,
    incoming: &IncomingRequest<'_>,
    status: u16,
    lines: PairList,
    body: Octets,
) -> Result<Octets, OutOfMemory>
    requires low { 200 ≤ status }
    requires high { status ≤ 599 }
    ensures { IfOk result (λ text. text ≡ text_of (incoming_of incoming.now) status lines body) }
{
    let answer = Answer {
        status,
        moment: incoming.moment,
        lines,
        body,
        to_head: is_head(incoming.request.method.bytes()),
        close: incoming.last,
    };
    write_answer(alloc, &answer)
}

fn sent_body(to_head: bool, body: &[u8]) -> &[u8]
    ensures { result.now ≡ sent_body to_head body.now }
{
    if to_head { b"" } else { body }
}

/// A reply with these lines and a body, and what the verdict calls for.
fn reply_with(
    alloc: Global,
    incoming: &IncomingRequest<'_>,
    verdict: Verdict,
    status: u16,
    lines: PairList,
    body: Octets,
) -> Result<Reply, OutOfMemory>
    requires low { 200 ≤ status }
    requires high { status ≤ 599 }
    ensures { IfOk result (λ reply. reply ≡ reply_with (incoming_of incoming.now) verdict status lines body) }
{
    let mut lines = lines;
    let to_head = is_head(incoming.request.method.bytes());
    let admitted = is_admitted(&verdict);
    put_verdict(
        alloc,
        &mut lines,
        Role::Proxy,
        verdict,
        sent_body(to_head, body.bytes()),
    )?;
    let text = text_of(alloc, incoming, status, lines, body)?;
    Ok(Reply { text, admitted })
}

/// A reply that tells its status.
pub(crate) fn status_reply(
    alloc: Global,
    incoming: &IncomingRequest<'_>,
    verdict: Verdict,
    status: u16,
) -> Result<Reply, OutOfMemory>
    requires low { 200 ≤ status }
    requires high { status ≤ 599 }
    ensures { IfOk result (λ reply. reply ≡ status_reply (incoming_of incoming.now) verdict status) }
{
    let body = status_body(alloc, status)?;
    reply_with(alloc, incoming, verdict, status, PairList::new(alloc), body)
}

/// A response that is passed on.
fn pass_back(
    alloc: Global,
    incoming: &IncomingRequest<'_>,
    verdict: Verdict,
    response: Response,
) -> Result<Reply, OutOfMemory>
    requires low { 200 ≤ response.status }
    requires high { response.status ≤ 599 }
    ensures { IfOk result (λ reply. reply
        ≡ reply_with (incoming_of incoming.now) verdict response.status (passed_lines Way.Back response.fields) response.body) }
{
    let lines = passed_lines(alloc, Way::Back, &response.fields)?;
    let Response {
        status,
        fields,
        body,
    } = response;
    drop(fields);
    reply_with(alloc, incoming, verdict, status, lines, body)
}

/// The reply by what came: a response is passed on, and else it is 502 (RFC 9110 section 15.6.3).
pub(crate) fn reply_by(
    alloc: Global,
    incoming: &IncomingRequest<'_>,
    verdict: Verdict,
    reception: Reception,
) -> Result<Reply, OutOfMemory>
    requires { IsFineReception reception }
    ensures { IfOk result (λ reply. reply ≡ reply_by (incoming_of incoming.now) verdict reception) }
{
    match reception {
        Reception::Got(response) => pass_back(alloc, incoming, verdict, response),
        Reception::Bad | Reception::Failed => status_reply(alloc, incoming, verdict, 502),
    }
}

/// The reply to a request whose target isn't one for a proxy.
pub(crate) fn no_target_reply(
    alloc: Global,
    incoming: &IncomingRequest<'_>,
) -> Result<Reply, OutOfMemory>
    ensures { IfOk result (λ reply. reply ≡ no_target_reply (incoming_of incoming.now)) }
{
    let body = status_body(alloc, 400)?;
    let text = text_of(alloc, incoming, 400, PairList::new(alloc), body)?;
    Ok(Reply {
        text,
        admitted: false,
    })
}
