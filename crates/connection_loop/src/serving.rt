//! One message, from its bytes to its reply.
ghost use Rattle.std.specs.Prelude.{◌≡◌, ◌≢◌, ◌-◌, ◌∷◌, [], ◌++◌, ◌<◌, ◌≤◌, ◌+◌, ℕ, List, Ok, Err, length, IfOk, OnOk};
ghost use Rattle.auth_io.specs.Causes.{Rose};
ghost use Rattle.auth_io.specs.Told.{Adds};
ghost use Rattle.http_wire.specs.Requests.{Wrong, front};
ghost use Rattle.connection_loop.specs.Session.{is_last, admits, refusal};
ghost use Rattle.connection_loop.specs.Account.{LinkPassed, link_of};
ghost use Rattle.connection_loop.specs.Steps.{IsBetween, SendsText, Serves, request_account, place_at, StepsFrom, StepLeavesNone, AdmitsOne, step_after};

use crate::reading::{Arrived, Piece, next_message};
use crate::responder::{Lack, RespondError, Responder, Response};
use crate::sending::write_all;
use crate::served::{End, ServeError, Served};
use auth_grammar::OutOfMemory;
use auth_io::{Clock, Link};
use http_wire::{Answer, PairList, Request, RequestFeed, status_body, write_answer};
use std::alloc::Global;

/// How many requests a connection may make.
pub const REQUEST_LIMIT: u32 = 4096;

/// How one step over a message went.
#[derive(Clone, Copy)]
pub enum Step {
    /// A request was answered. How many were admitted: none or one.
    More { admitted: u32 },
    Over(Served),
}

fn count_of(response: &Response) -> u32
    ensures { result ≡ admits response.now }
{
    if response.admitted { 1 } else { 0 }
}

/// Answers one request, and writes its response whole.
fn serve_request<L: Link, C: Clock, R: Responder>(
    alloc: Global,
    link: &mut L,
    clock: &mut C,
    responder: &mut R,
    request: &Request,
    last: bool,
) -> Result<u32, ServeError>
    ensures served { let at = link_of L.left L.given L.written L.reads in
        (output : List ℕ) × (moment : ℕ) × (events : List R.Event)
        × LinkPassed (at link.old) (at link.new) [] output []
        × Adds (C.shown clock.old) (C.shown clock.new) (moment ∷ [])
        × R.passed responder.old responder.new events
        × Serves R.machine (R.lacked responder.old responder.new) (R.state responder.old) (R.state responder.new)
        (record { request = request.now; last = last; moment = moment }) (request_account output moment events) result }
    ensures draws { result ≢ Err ServeError.RandomFault → R.failed_draws responder.new ≡ R.failed_draws responder.old }
    ensures few { IfOk result (λ count. count ≤ 1) }
    ensures given { L.given link.new ≡ L.given link.old }
    ensures read_faults { L.read_faults link.new ≡ L.read_faults link.old }
    ensures write_later { L.write_faults link.old ≤ L.write_faults link.new }
    ensures write_fault { result ≡ Err ServeError.WriteFault → Rose (L.write_faults link.old) (L.write_faults link.new) }
{
    let moment = clock.now();
    let response = match responder.respond(alloc, request, last, moment) {
        Ok(response) => response,
        Err(RespondError::Lacking(Lack::Random)) => return Err(ServeError::RandomFault),
        Err(RespondError::Lacking(Lack::Worn { calls })) => return Err(ServeError::Worn { calls }),
        Err(RespondError::OutOfMemory) => return Err(ServeError::OutOfMemory),
    };
    write_all(link, response.text.bytes())?;
    Ok(count_of(&response))
}

/// The reply to a bad message.
fn refusal_text(
    alloc: Global,
    status: u16,
    moment: u64,
) -> Result<auth_grammar::Octets, OutOfMemory>
    requires low { 200 ≤ status }
    requires high { status ≤ 599 }
    ensures { IfOk result (λ text. text ≡ refusal status moment) }
{
    let answer = Answer {
        status,
        moment,
        lines: PairList::new(alloc),
        body: status_body(alloc, status)?,
        to_head: false,
        close: true,
    };
    write_answer(alloc, &answer)
}

/// Answers a bad message by its status.
fn refuse<L: Link, C: Clock>(
    alloc: Global,
    link: &mut L,
    clock: &mut C,
    status: u16,
) -> Result<(), ServeError>
    requires low { 200 ≤ status }
    requires high { status ≤ 599 }
    ensures refused { let at = link_of L.left L.given L.written L.reads in
        (output : List ℕ) × (moment : ℕ)
        × LinkPassed (at link.old) (at link.new) [] output []
        × Adds (C.shown clock.old) (C.shown clock.new) (moment ∷ [])
        × SendsText (refusal status moment) output result }
    ensures given { L.given link.new ≡ L.given link.old }
    ensures read_faults { L.read_faults link.new ≡ L.read_faults link.old }
    ensures write_later { L.write_faults link.old ≤ L.write_faults link.new }
    ensures write_fault { result ≡ Err ServeError.WriteFault → Rose (L.write_faults link.old) (L.write_faults link.new) }
{
    let shown = clock.now();
    let text = refusal_text(alloc, status, shown)?;
    write_all(link, text.bytes())
}

/// Whether the connection closes after this request.
fn closes_after(closing: bool, requests: u32) -> bool
    requires { requests < REQUEST_LIMIT }
    ensures { result ≡ is_last closing (REQUEST_LIMIT - (requests + 1)) }
{
    closing || requests + 1 == REQUEST_LIMIT
}

/// What comes after a request was answered.
fn after_request(closing: bool, one: u32, requests: u32, admitted: u32) -> Step
    requires room { requests < REQUEST_LIMIT }
    requires counted { admitted ≤ requests }
    requires one { one ≤ 1 }
    ensures step { result ≡ step_after closing one requests admitted }
{
    if closing && requests + 1 < REQUEST_LIMIT {
        Step::Over(Served {
            requests: requests + 1,
            admitted: admitted + one,
            end: End::CloseAsked,
        })
    } else {
        Step::More { admitted: one }
    }
}

/// Reads and answers one message, or finds the end.
pub fn serve_next<L: Link, C: Clock, R: Responder>(
    alloc: Global,
    link: &mut L,
    clock: &mut C,
    responder: &mut R,
    feed: &mut RequestFeed,
    piece: &mut Piece,
    requests: u32,
    admitted: u32,
) -> Result<Step, ServeError>
    requires room { requests < REQUEST_LIMIT }
    requires counted { admitted ≤ requests }
    requires between { IsBetween feed.old }
    requires within { feed.old.at + length feed.old.rest ≤ L.given link.old }
    ensures steps { let at = link_of L.left L.given L.written L.reads in
        StepsFrom R.machine (R.lacked responder.old responder.new) (R.passed responder.old responder.new) (at link.old) (at link.new)
        (Adds (C.shown clock.old) (C.shown clock.new)) (place_at (R.state responder.old) feed.old requests admitted)
        (R.state responder.new) feed.new result }
    ensures draws { result ≢ Err ServeError.RandomFault → R.failed_draws responder.new ≡ R.failed_draws responder.old }
    ensures few { AdmitsOne result }
    ensures at_end { StepLeavesNone (L.left link.new) result }
    ensures within { OnOk result (feed.new.at + length feed.new.rest ≤ L.given link.new) }
    ensures read_later { L.read_faults link.old ≤ L.read_faults link.new }
    ensures write_later { L.write_faults link.old ≤ L.write_faults link.new }
    ensures read_fault { result ≡ Err ServeError.ReadFault → Rose (L.read_faults link.old) (L.read_faults link.new) }
    ensures write_fault { result ≡ Err ServeError.WriteFault → Rose (L.write_faults link.old) (L.write_faults link.new) }
{
    match next_message(link, feed, piece)? {
        Arrived::Message(request) => {
            let last = closes_after(request.closes, requests);
            let one = serve_request(alloc, link, clock, responder, &request, last)?;
            Ok(after_request(request.closes, one, requests, admitted))
        }
        Arrived::Bad { status } => {
            refuse(alloc, link, clock, status)?;
            Ok(Step::Over(Served {
                requests,
                admitted,
                end: End::BadMessage,
            }))
        }
        Arrived::NoMore => match feed.rest() {
            None => Ok(Step::Over(Served {
                requests,
                admitted,
                end: End::Ended,
            })),
            Some(at) => Err(ServeError::Truncated { at }),
        },
    }
}
