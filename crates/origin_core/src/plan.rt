//! What is done for a request once it is decided.
ghost use Rattle.std.specs.Prelude.{◌≡◌, ◌≤◌, IfOk};
ghost use Rattle.origin_core.specs.Replies.{file_plan, open_plan, plan_of, read_plan, replace_plan, status_of};

use crate::method::Method;
use crate::names::file_name;
use auth_decide::{Verdict, path_of};
use auth_grammar::{Octets, OutOfMemory};
use http_wire::Request;
use std::alloc::Global;

/// Why a request gets no file.
#[derive(Clone, Copy, Debug, PartialEq, Eq)]
pub(crate) enum Refusal {
    /// Its credentials are out of form.
    Bad,
    /// It is challenged, or its exchange goes on.
    Challenged,
    /// A file is replaced only for a user.
    Forbidden,
    /// Its path names no file.
    NotFound,
    /// Its method isn't served.
    NotAllowed,
}

impl Refusal {
    pub(crate) fn status(self) -> u16
        ensures value { result ≡ status_of self }
        ensures low { 200 ≤ result }
        ensures high { result ≤ 599 }
    {
        match self {
            Refusal::Bad => 400,
            Refusal::Challenged => 401,
            Refusal::Forbidden => 403,
            Refusal::NotFound => 404,
            Refusal::NotAllowed => 405,
        }
    }
}

/// What is done for a request once it is decided.
#[derive(Drop)]
pub(crate) enum Plan {
    /// It is refused.
    Refuse(Refusal),
    /// This file is read.
    Read { name: Octets },
    /// This file is replaced by the body.
    Replace { name: Octets },
}

fn read_plan(alloc: Global, root: &[u8], request: &Request) -> Result<Plan, OutOfMemory>
    ensures { IfOk result (λ plan. plan ≡ read_plan root.now request.now) }
{
    match file_name(alloc, root, true, path_of(request.target.bytes()))? {
        Some(name) => Ok(Plan::Read { name }),
        None => Ok(Plan::Refuse(Refusal::NotFound)),
    }
}

fn replace_plan(alloc: Global, root: &[u8], request: &Request) -> Result<Plan, OutOfMemory>
    ensures { IfOk result (λ plan. plan ≡ replace_plan root.now request.now) }
{
    match file_name(alloc, root, false, path_of(request.target.bytes()))? {
        Some(name) => Ok(Plan::Replace { name }),
        None => Ok(Plan::Refuse(Refusal::NotFound)),
    }
}

/// What a method calls for.
fn file_plan(
    alloc: Global,
    root: &[u8],
    request: &Request,
    method: Method,
) -> Result<Plan, OutOfMemory>
    ensures { IfOk result (λ plan. plan ≡ file_plan root.now request.now method) }
{
    match method {
        Method::Get | Method::Head => read_plan(alloc, root, request),
        Method::Put => replace_plan(alloc, root, request),
        Method::Other => Ok(Plan::Refuse(Refusal::NotAllowed)),
    }
}

/// What a method calls for without admission: nobody replaces a file so.
fn open_plan(
    alloc: Global,
    root: &[u8],
    request: &Request,
    method: Method,
) -> Result<Plan, OutOfMemory>
    ensures { IfOk result (λ plan. plan ≡ open_plan root.now request.now method) }
{
    match method {
        Method::Put => Ok(Plan::Refuse(Refusal::Forbidden)),
        _ => file_plan(alloc, root, request, method),
    }
}

/// What a verdict calls for.
pub(crate) fn plan_of(
    alloc: Global,
    root: &[u8],
    request: &Request,
    verdict: &Verdict,
) -> Result<Plan, OutOfMemory>
    ensures { IfOk result (λ plan. plan ≡ plan_of root.now request.now verdict.now) }
{
    let method = Method::of(request.method.bytes());
    match verdict {
        Verdict::Bad { .. } => Ok(Plan::Refuse(Refusal::Bad)),
        Verdict::Challenge { .. } | Verdict::Continue { .. } => {
            Ok(Plan::Refuse(Refusal::Challenged))
        }
        Verdict::Open { .. } => open_plan(alloc, root, request, method),
        Verdict::Admit { .. } => file_plan(alloc, root, request, method),
    }
}
