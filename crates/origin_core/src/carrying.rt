//! The reply that a verdict calls for, with the file that it reads or replaces.
ghost use Rattle.std.specs.Prelude.{◌≡◌, ◌≢◌, IfOk};
ghost use Rattle.origin_core.specs.Carrying.{CarriesOut};
ghost use Rattle.origin_core.specs.Outside.{files_state};
ghost use Rattle.origin_core.specs.Replies.{found_reply, replaced_reply, plan_of};
ghost use Rattle.request_deciding.specs.Serving.{incoming_of};

use crate::plan::{Plan, plan_of};
use crate::replies::{reply_with, status_reply};
use auth_decide::Verdict;
use auth_grammar::{Octets, OutOfMemory};
use auth_io::{FileAnswer, Files, Replaced};
use connection_loop::Response;
use request_deciding::IncomingRequest;
use std::alloc::Global;

/// The most bytes of a file that is served.
pub const FILE_LIMIT: u64 = 16_777_216;

/// The reply by what a file gave.
fn found_reply(
    alloc: Global,
    incoming: &IncomingRequest<'_>,
    verdict: Verdict,
    answer: FileAnswer,
) -> Result<Response, OutOfMemory>
    ensures reply { IfOk result (λ response. response ≡ found_reply (incoming_of incoming.now) verdict answer) }
    ensures memory { IfOk result (λ response. answer ≢ FileAnswer.OutOfMemory) }
{
    match answer {
        FileAnswer::Found(bytes) => reply_with(alloc, incoming, verdict, 200, bytes),
        FileAnswer::Absent | FileAnswer::TooLarge => status_reply(alloc, incoming, verdict, 404),
        FileAnswer::Failed => status_reply(alloc, incoming, verdict, 500),
        FileAnswer::OutOfMemory => Err(OutOfMemory),
    }
}

/// The reply by how a file was replaced.
fn replaced_reply(
    alloc: Global,
    incoming: &IncomingRequest<'_>,
    verdict: Verdict,
    answer: Replaced,
) -> Result<Response, OutOfMemory>
    ensures reply { IfOk result (λ response. response ≡ replaced_reply (incoming_of incoming.now) verdict answer) }
    ensures memory { IfOk result (λ response. answer ≢ Replaced.OutOfMemory) }
{
    match answer {
        Replaced::Done => reply_with(alloc, incoming, verdict, 204, Octets::new(alloc)),
        Replaced::Failed => status_reply(alloc, incoming, verdict, 500),
        Replaced::OutOfMemory => Err(OutOfMemory),
    }
}

/// Reads the file that is to be sent, and gives the reply.
fn send_file<F: Files>(
    alloc: Global,
    incoming: &IncomingRequest<'_>,
    verdict: Verdict,
    name: &[u8],
    files: &mut F,
) -> Result<Response, OutOfMemory>
    ensures { let at = files_state F.contents F.asked F.faults in
        CarriesOut (at files.old) (at files.new) (incoming_of incoming.now) verdict (Plan.Read name.now) result }
{
    let answer = files.read(name, FILE_LIMIT);
    found_reply(alloc, incoming, verdict, answer)
}

/// Replaces a file by the request's body, and gives the reply.
fn store_file<F: Files>(
    alloc: Global,
    incoming: &IncomingRequest<'_>,
    verdict: Verdict,
    name: &[u8],
    files: &mut F,
) -> Result<Response, OutOfMemory>
    ensures { let at = files_state F.contents F.asked F.faults in
        CarriesOut (at files.old) (at files.new) (incoming_of incoming.now) verdict (Plan.Replace name.now) result }
{
    let answer = files.replace(name, incoming.request.body.bytes());
    replaced_reply(alloc, incoming, verdict, answer)
}

/// Carries a plan out, and gives the reply.
fn carry_out<F: Files>(
    alloc: Global,
    incoming: &IncomingRequest<'_>,
    verdict: Verdict,
    plan: Plan,
    files: &mut F,
) -> Result<Response, OutOfMemory>
    ensures { let at = files_state F.contents F.asked F.faults in
        CarriesOut (at files.old) (at files.new) (incoming_of incoming.now) verdict plan result }
{
    match plan {
        Plan::Refuse(refusal) => status_reply(alloc, incoming, verdict, refusal.status()),
        Plan::Read { name } => send_file(alloc, incoming, verdict, name.bytes(), files),
        Plan::Replace { name } => store_file(alloc, incoming, verdict, name.bytes(), files),
    }
}

/// The reply that a verdict calls for, below a root: a file is read or replaced where the request is admitted or, to
/// read, needs no user (RFC 9110 sections 9.3 and 15). A file longer than `FILE_LIMIT` is answered 404.
pub fn reply_for<F: Files>(
    alloc: Global,
    incoming: &IncomingRequest<'_>,
    root: &[u8],
    verdict: Verdict,
    files: &mut F,
) -> Result<Response, OutOfMemory>
    ensures { let at = files_state F.contents F.asked F.faults in
        CarriesOut (at files.old) (at files.new) (incoming_of incoming.now) verdict
        (plan_of root.now incoming.now.request.now verdict) result }
{
    let plan = plan_of(alloc, root, incoming.request, &verdict)?;
    carry_out(alloc, incoming, verdict, plan, files)
}
