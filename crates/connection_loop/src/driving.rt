//! The whole connection.
ghost use Rattle.std.specs.Prelude.{◌≡◌, ◌≢◌, ◌<◌, ◌≤◌, ℕ, List, [], Some, Ok, Err, length};
ghost use Rattle.http_wire.specs.declared.request.Request.{Request};
ghost use Rattle.http_wire.specs.Requests.{Cuts};
ghost use Rattle.auth_io.specs.Causes.{Rose};
ghost use Rattle.connection_loop.specs.Account.{link_of};
ghost use Rattle.connection_loop.specs.Results.{ServesSession, OnlyLastCloses, EndsWell, EndsAtLimit};
ghost use Rattle.connection_loop.specs.declared.serving.TheConstants.{REQUEST_LIMIT};

use crate::reading::PIECE_BYTES;
use crate::responder::Responder;
use crate::served::{End, ServeError, Served};
use crate::serving::{REQUEST_LIMIT, Step, serve_next};
use auth_io::{Clock, Link};
use http_wire::RequestFeed;
use std::alloc::Global;

/// Serves a connection to its end, or to the message that ends it.
///
/// Each message is read whole, answered at a moment of its own, and its response written whole, before the next is
/// read. The interim reply 100 (RFC 9110 section 10.1.1) is written once, before the rest of the body is read. A bad
/// message is answered by its status, and the connection closes. After 4,096 requests it closes too.
pub fn drive<L: Link, C: Clock, R: Responder>(
    alloc: Global,
    link: &mut L,
    clock: &mut C,
    responder: &mut R,
) -> Result<Served, ServeError>
    // What was read, written, shown and done is what the session over the input has, with nothing left over.
    ensures session { let at = link_of L.left L.given L.written L.reads in
        ServesSession R.machine (R.lacked responder.old responder.new) (R.passed responder.old responder.new) (at link.old) (at link.new)
        (C.shown clock.old) (C.shown clock.new) (R.state responder.old) (R.state responder.new) result }

    // An input of whole requests is served to its end, or to the request that closes.
    ensures complete { (input : List ℕ) (requests : List Request) → L.left link.old ≡ Some input → Cuts input requests []
        → length requests < REQUEST_LIMIT → EndsWell result }
    ensures full { (input : List ℕ) (requests : List Request) → L.left link.old ≡ Some input → Cuts input requests []
        → length requests ≡ REQUEST_LIMIT → OnlyLastCloses requests → EndsAtLimit result }

    // No draw failed, but where the connection ends by it.
    ensures draws { result ≢ Err ServeError.RandomFault → R.failed_draws responder.new ≡ R.failed_draws responder.old }

    // No fault is answered without its cause, and no count of faults falls.
    ensures read_fault { result ≡ Err ServeError.ReadFault → Rose (L.read_faults link.old) (L.read_faults link.new) }
    ensures write_fault { result ≡ Err ServeError.WriteFault → Rose (L.write_faults link.old) (L.write_faults link.new) }
    ensures read_later { L.read_faults link.old ≤ L.read_faults link.new }
    ensures write_later { L.write_faults link.old ≤ L.write_faults link.new }
{
    let mut feed = RequestFeed::new(alloc);
    let mut piece = [0; PIECE_BYTES];
    let mut admitted: u32 = 0;
    for requests in 0..REQUEST_LIMIT {
        match serve_next(
            alloc, link, clock, responder, &mut feed, &mut piece, requests, admitted,
        )? {
            Step::More { admitted: one } => admitted += one,
            Step::Over(served) => return Ok(served),
        }
    }
    Ok(Served {
        requests: REQUEST_LIMIT,
        admitted,
        end: End::Limit,
    })
}
