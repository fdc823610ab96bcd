//! Serving one connection.
ghost use Rattle.std.specs.Prelude.{◌≡◌, ◌≢◌, Err, List};
ghost use Rattle.auth_io.specs.Causes.{Rose};
ghost use Rattle.connection_loop.specs.Account.{link_of};
ghost use Rattle.connection_loop.specs.Machine.{Responds};
ghost use Rattle.origin_core.specs.Admissions.{ServesConnection};
ghost use Rattle.origin_core.specs.Outside.{Passed, outside_at};
ghost use Rattle.origin_core.specs.Serving.{origin};
ghost use Rattle.origin_core.specs.declared.events.FileEvent.{FileEvent};
ghost use Rattle.request_deciding.specs.Outside.{LackedBy};
ghost use Rattle.request_deciding.specs.Serving.{incoming_of, server};
ghost use Rattle.request_deciding.specs.declared.events.Event.{Event};

use crate::carrying::reply_for;
use crate::events::{FileEvent, FileOperation};
use auth_decide::Site;
use auth_grammar::Role;
use auth_io::{Clock, Files, Link, Words};
use connection_loop::{Lack, RespondError, Responder, Response, ServeError, Served, drive};
use http_wire::Request;
use nonce_shard::TableSeat;
use request_deciding::{Event, IncomingRequest, Operation, Server, decide};
use std::alloc::Global;

/// Decides on a request and answers it.
fn answer<F: Files, W: Words, T: TableSeat>(
    alloc: Global,
    incoming: &IncomingRequest<'_>,
    site: &Site,
    files: &mut F,
    random: &mut W,
    seat: &mut T,
) -> Result<Response, RespondError>
    ensures answers { let at = outside_at F.contents F.asked F.faults W.drawn W.faults T.seat in
        let server_now = server site.now (T.seat seat.old).shards in
        (events : List (Event FileEvent)) × Passed (at files.old random.old seat.old) (at files.new random.new seat.new) events
        × Responds origin (LackedBy (at files.old random.old seat.old).table (at files.new random.new seat.new).table)
        server_now server_now (incoming_of incoming.now) events result }
    ensures draws { result ≢ Err (RespondError.Lacking Lack.Random) → W.faults random.new ≡ W.faults random.old }
{
    let verdict = decide(alloc, Role::Origin, incoming, site, random, seat)?;
    match reply_for(alloc, incoming, site.root.bytes(), verdict, files) {
        Ok(response) => Ok(response),
        Err(_) => Err(RespondError::OutOfMemory),
    }
}

/// The parts of the outside that one request may use.
#[derive(Drop)]
struct Parts<'s, 'f, 'w, 't, F, W, T> {
    site: &'s Site,
    files: &'f mut F,
    random: &'w mut W,
    seat: &'t mut T,
}

impl<'s, 'f, 'w, 't, F: Files, W: Words, T: TableSeat> Responder
    for Parts<'s, 'f, 'w, 't, F, W, T> {
    ghost use Rattle.std.specs.Prelude.{◌≡◌};
    ghost use Rattle.std.proofs.Common.{refl, ◌∙◌};
    ghost use Rattle.request_deciding.specs.Findings.{found_in};
    ghost use Rattle.request_deciding.specs.Laws.{lacked_later};
    ghost use Rattle.request_deciding.specs.Outside.{LackedBy};
    ghost use Rattle.request_deciding.specs.Serving.{server};
    ghost use Rattle.origin_core.specs.Outside.{Passed, outside_at};
    ghost use Rattle.origin_core.specs.Serving.{origin};
    ghost use Rattle.origin_core.specs.Laws.{passed_none, passed_then};

    type State = Server;

    type Ask = Operation<FileOperation>;

    type Event = Event<FileEvent>;

    ghost machine = { origin };

    ghost state = { λ p. server p.site.now (T.seat p.seat.now).shards };

    ghost passed = { λ a b events. let at = outside_at F.contents F.asked F.faults W.drawn W.faults T.seat in
        ((b.site.now ≡ a.site.now) × (b.files.ghost_name ≡ a.files.ghost_name)
        × (b.random.ghost_name ≡ a.random.ghost_name) × (b.seat.ghost_name ≡ a.seat.ghost_name))
        × Passed (at a.files.now a.random.now a.seat.now) (at b.files.now b.random.now b.seat.now) events };

    ghost lacked = { λ a b. let at = outside_at F.contents F.asked F.faults W.drawn W.faults T.seat in
        LackedBy (at a.files.now a.random.now a.seat.now).table (at b.files.now b.random.now b.seat.now).table };

    ghost failed_draws = { λ p. W.faults p.random.now };

    fn respond(
        &mut self,
        alloc: Global,
        request: &Request,
        last: bool,
        moment: u64,
    ) -> Result<Response, RespondError> {
        let incoming = IncomingRequest {
            request,
            last,
            moment,
        };
        answer(
            alloc,
            &incoming,
            self.site,
            self.files,
            self.random,
            self.seat,
        )
    }

    ghost passed_none = { λ a. let at = outside_at F.contents F.asked F.faults W.drawn W.faults T.seat in
        ((refl, refl, refl, refl), passed_none (at a.files.now a.random.now a.seat.now)) };

    ghost passed_join = { λ a b c xs ys p q. let at = outside_at F.contents F.asked F.faults W.drawn W.faults T.seat in (
      (q.0.0 ∙ p.0.0, q.0.1 ∙ p.0.1, q.0.2 ∙ p.0.2, q.0.3 ∙ p.0.3),
      passed_then (at a.files.now a.random.now a.seat.now) (at b.files.now b.random.now b.seat.now)
          (at c.files.now c.random.now c.seat.now) xs ys p.1 q.1,
    ) };

    ghost lacked_later = { λ a b c xs p. let at = outside_at F.contents F.asked F.faults W.drawn W.faults T.seat in
        lacked_later (at a.files.now a.random.now a.seat.now).table (at b.files.now b.random.now b.seat.now).table
        (at c.files.now c.random.now c.seat.now).table (found_in xs) p.1.table };
}

/// Serves one connection to its end, or to the message that ends it. Each request is answered as the decision on
/// it says, by a file of the site where it is admitted or needs no user.
///
/// `RandomFault` comes where the random source failed, and `Worn` where a shard of the table takes no more calls.
/// All other errors are those of `connection_loop::drive`.
///
/// ```text
/// let mut table = JournalTable::open(alloc, CONNECTION_CALLS, &Sizes::single())?;
/// match serve_connection(alloc, &mut link, &mut files, &mut clock, &mut random, &mut table, &site) {
///     Ok(served) => log(served.requests, served.admitted),
///     Err(ServeError::Worn { calls }) => reopen(calls),
///     Err(error) => report(error),
/// }
/// ```
pub fn serve_connection<L: Link, F: Files, C: Clock, W: Words, T: TableSeat>(
    alloc: Global,
    link: &mut L,
    files: &mut F,
    clock: &mut C,
    random: &mut W,
    seat: &mut T,
    site: &Site,
) -> Result<Served, ServeError>
    // What was read, written, shown and done is what the session over the input has, and who is admitted deserved it.
    ensures serves { let link_at = link_of L.left L.given L.written L.reads in
        let at = outside_at F.contents F.asked F.faults W.drawn W.faults T.seat in
        ServesConnection (at files.old random.old seat.old) (at files.new random.new seat.new) (link_at link.old) (link_at link.new)
        (C.shown clock.old) (C.shown clock.new) (server site.now (T.seat seat.old).shards) result }

    // No draw failed, but where the connection ends by it.
    ensures draws { result ≢ Err ServeError.RandomFault → W.faults random.new ≡ W.faults random.old }

    // No fault is answered without its cause.
    ensures read_fault { result ≡ Err ServeError.ReadFault → Rose (L.read_faults link.old) (L.read_faults link.new) }
    ensures write_fault { result ≡ Err ServeError.WriteFault → Rose (L.write_faults link.old) (L.write_faults link.new) }
{
    let mut parts = Parts {
        site,
        files,
        random,
        seat,
    };
    drive(alloc, link, clock, &mut parts)
}
