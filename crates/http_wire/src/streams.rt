//! Whole streams, however they are cut into pieces.
ghost use Rattle.std.specs.Prelude.{◌≡◌, ◌<◌, ◌^◌, false, length, IfOk};
ghost use Rattle.std.specs.List.{concat};
ghost use Rattle.http_wire.specs.Streams.{IsAllOf, Takes, EndsIn};
ghost use Rattle.http_wire.specs.Responses.{response_front};

use crate::request::{Next, Request};
use crate::request_feed::RequestFeed;
use crate::response::NextResponse;
use crate::response_feed::ResponseFeed;
use auth_grammar::{Octets, OutOfMemory};
use std::alloc::Global;

/// The requests of a stream that comes in these pieces, up to the first bad one. They are the same in any cutting.
pub fn requests_of(alloc: Global, pieces: &[Octets]) -> Result<Vec<Request>, OutOfMemory>
    requires { length (concat pieces.now) < 2 ^ 63 }
    ensures { IfOk result (λ requests. IsAllOf (concat pieces.now) requests.items) }
{
    let mut feed = RequestFeed::new(alloc);
    let mut requests = Vec::new(alloc);
    for piece in pieces {
        feed.push(piece.bytes())?;
        let on = take_whole(&mut feed, &mut requests)?;
        if !on {
            return Ok(requests);
        }
    }
    Ok(requests)
}

/// Takes all whole messages. Answers whether no bad one stands behind them.
fn take_whole(feed: &mut RequestFeed, requests: &mut Vec<Request>) -> Result<bool, OutOfMemory>
    requires { feed.old.stopped ≡ false }
    ensures { IfOk result (Takes feed.old feed.new requests.old.items requests.new.items) }
{
    loop {
        match feed.next() {
            Next::Message(request) => requests.push(request)?,
            Next::Continue => {}
            Next::NeedMore => return Ok(true),
            Next::Bad { .. } => return Ok(false),
            Next::OutOfMemory => return Err(OutOfMemory),
        }
    }
}

/// The response of a stream that comes in these pieces and then ends. It is the same in any cutting. `NeedMore` never
/// comes.
pub fn response_of(alloc: Global, to_head: bool, pieces: &[Octets]) -> NextResponse
    requires { length (concat pieces.now) < 2 ^ 63 }
    ensures { EndsIn (response_front to_head 0 (concat pieces.now)) result }
{
    let mut feed = ResponseFeed::new(alloc, to_head);
    for piece in pieces {
        let Ok(()) = feed.push(piece.bytes()) else {
            return NextResponse::OutOfMemory;
        };
        match feed.next() {
            NextResponse::NeedMore => {}
            next => return next,
        }
    }
    feed.finish()
}
