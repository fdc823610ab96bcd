//! Reading a response.
ghost use Rattle.std.specs.Prelude.{◌≡◌, [], IfOk};
ghost use Rattle.http_wire.specs.ResponseFeed.{ahead, at_end};
ghost use Rattle.dial_exchange.specs.Exchanges.{got, reception_of};
ghost use Rattle.dial_exchange.specs.Talking.{Receives, talk_state};

use crate::events::Reception;
use auth_grammar::OutOfMemory;
use auth_io::Link;
use http_wire::{NextResponse, Response, ResponseFeed};
use std::alloc::Global;

/// A response, where its status is final (RFC 9110 section 15).
fn got(response: Response) -> Reception
    ensures { result ≡ got response }
{
    if response.status >= 200 && response.status <= 599 {
        Reception::Got(response)
    } else {
        Reception::Bad
    }
}

/// What stands there at the end of the input.
fn finish(feed: &mut ResponseFeed) -> Result<Reception, OutOfMemory>
    ensures { IfOk result (λ reception. reception ≡ reception_of (at_end (ahead feed.old []))) }
{
    match feed.finish() {
        NextResponse::Message(response) => Ok(got(response)),
        NextResponse::Bad { .. } => Ok(Reception::Bad),
        NextResponse::OutOfMemory => Err(OutOfMemory),
        NextResponse::NeedMore => unreachable!(),
    }
}

/// Reads a response to its end, until a fault stands there, or to the end of the input.
pub(crate) fn receive<L: Link>(
    alloc: Global,
    link: &mut L,
    to_head: bool,
) -> Result<Reception, OutOfMemory>
    ensures { let at = talk_state L.left L.written L.read_faults L.write_faults in
        Receives to_head (at link.old) (at link.new) result }
{
    let mut feed = ResponseFeed::new(alloc, to_head);
    let mut piece = [0; 4096];
    loop {
        let Ok(count) = link.read(&mut piece) else {
            return Ok(Reception::Failed);
        };
        if count == 0 {
            return finish(&mut feed);
        }
        let Ok(()) = feed.push(&piece[..count]) else {
            return Err(OutOfMemory);
        };
        match feed.next() {
            NextResponse::NeedMore => {}
            NextResponse::Message(response) => return Ok(got(response)),
            NextResponse::Bad { .. } => return Ok(Reception::Bad),
            NextResponse::OutOfMemory => return Err(OutOfMemory),
        }
    }
}
