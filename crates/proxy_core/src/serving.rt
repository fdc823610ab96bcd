//! Serving one connection.
ghost use Rattle.std.specs.Prelude.{◌≡◌, ◌≤◌, IsTrue, List, Some, None, IfSome, ◌≢◌, Err};
ghost use Rattle.auth_io.specs.Causes.{Rose};
ghost use Rattle.connection_loop.specs.Account.{link_of};
ghost use Rattle.connection_loop.specs.Machine.{Responds};
ghost use Rattle.request_deciding.specs.Outside.{LackedBy};
ghost use Rattle.request_deciding.specs.Serving.{incoming_of, server};
ghost use Rattle.request_deciding.specs.declared.events.Event.{Event};
ghost use Rattle.request_deciding.specs.declared.server.Server.{Server};
ghost use Rattle.spaces_map.specs.Spaces.{proxy_ready};
ghost use Rattle.proxy_core.specs.Admissions.{ServesConnection};
ghost use Rattle.proxy_core.specs.Outside.{Passed, outside_at};
ghost use Rattle.proxy_core.specs.Serving.{proxy, refusal_of};
ghost use Rattle.proxy_core.specs.Targets.{authority_of};
ghost use Rattle.proxy_core.specs.Carrying.{CarriesOut};
ghost use Rattle.dial_exchange.specs.Dials.{dial_state};
ghost use Rattle.dial_exchange.specs.declared.events.DialEvent.{DialEvent};

use crate::demand::Demand;
use crate::outgoing::outgoing_of;
use crate::replies::{no_target_reply, reply_by, status_reply};
use crate::targets::authority_of;
use auth_decide::{Site, Verdict};
use auth_grammar::{OutOfMemory, Role};
use auth_io::{Clock, Dial, Link, Words};
use connection_loop::{Lack, RespondError, Responder, Response, ServeError, Served, drive};
use dial_exchange::{DialEvent, make_exchange};
use http_wire::Request;
use nonce_shard::TableSeat;
use request_deciding::{Event, IncomingRequest, Operation, Server, decide};
use std::alloc::Global;

/// The status of a request that is refused, by its verdict. None where it is admitted.
fn refusal_of(verdict: &Verdict) -> Option<u16>
    ensures status { result ≡ refusal_of verdict.now }
    ensures low { IfSome result (λ status. 200 ≤ status) }
    ensures high { IfSome result (λ status. status ≤ 599) }
{
    match verdict {
        Verdict::Admit { .. } => None,
        Verdict::Bad { .. } => Some(400),
        Verdict::Open { .. } | Verdict::Challenge { .. } | Verdict::Continue { .. } => Some(407),
    }
}

/// Sends a request on to its authority, and gives the reply.
fn pass_on<D: Dial>(
    alloc: Global,
    incoming: &IncomingRequest<'_>,
    authority: &[u8],
    verdict: Verdict,
    dial: &mut D,
) -> Result<Response, OutOfMemory>
    requires { refusal_of verdict ≡ None }
    ensures { let at = dial_state D.dialled D.coming D.handed D.faults D.link_faults in
        (s : Server) → CarriesOut (at dial.old) (at dial.new) authority.now s (incoming_of incoming.now) verdict result }
{
    let Ok(outgoing) = outgoing_of(alloc, incoming.request, authority) else {
        return Err(OutOfMemory);
    };
    let reception = make_exchange(alloc, dial, &outgoing)?;
    reply_by(alloc, incoming, verdict, reception)
}

/// Carries a verdict out, and gives the reply.
fn carry_out<D: Dial>(
    alloc: Global,
    incoming: &IncomingRequest<'_>,
    authority: &[u8],
    verdict: Verdict,
    dial: &mut D,
) -> Result<Response, OutOfMemory>
    ensures { let at = dial_state D.dialled D.coming D.handed D.faults D.link_faults in
        (s : Server) → CarriesOut (at dial.old) (at dial.new) authority.now s (incoming_of incoming.now) verdict result }
{
    match refusal_of(&verdict) {
        Some(status) => status_reply(alloc, incoming, verdict, status),
        None => pass_on(alloc, incoming, authority, verdict, dial),
    }
}

/// Decides on a request to this authority, and answers it.
fn answer_to<D: Dial, W: Words, T: TableSeat>(
    alloc: Global,
    incoming: &IncomingRequest<'_>,
    authority: &[u8],
    site: &Site,
    dial: &mut D,
    random: &mut W,
    seat: &mut T,
) -> Result<Response, RespondError>
    requires { authority_of incoming.now.request.now.target ≡ Some authority.now }
    ensures answers { let at = outside_at D.dialled D.coming D.handed D.faults D.link_faults W.drawn W.faults T.seat in
        let server_now = server site.now (T.seat seat.old).shards in
        (events : List (Event DialEvent)) × Passed (at dial.old random.old seat.old) (at dial.new random.new seat.new) events
        × Responds proxy (LackedBy (at dial.old random.old seat.old).table (at dial.new random.new seat.new).table)
        server_now server_now (incoming_of incoming.now) events result }
    ensures draws { result ≢ Err (RespondError.Lacking Lack.Random) → W.faults random.new ≡ W.faults random.old }
{
    let verdict = decide(alloc, Role::Proxy, incoming, site, random, seat)?;
    match carry_out(alloc, incoming, authority, verdict, dial) {
        Ok(reply) => Ok(reply),
        Err(_) => Err(RespondError::OutOfMemory),
    }
}

/// Answers a request.
fn answer<D: Dial, W: Words, T: TableSeat>(
    alloc: Global,
    incoming: &IncomingRequest<'_>,
    site: &Site,
    dial: &mut D,
    random: &mut W,
    seat: &mut T,
) -> Result<Response, RespondError>
    ensures answers { let at = outside_at D.dialled D.coming D.handed D.faults D.link_faults W.drawn W.faults T.seat in
        let server_now = server site.now (T.seat seat.old).shards in
        (events : List (Event DialEvent)) × Passed (at dial.old random.old seat.old) (at dial.new random.new seat.new) events
        × Responds proxy (LackedBy (at dial.old random.old seat.old).table (at dial.new random.new seat.new).table)
        server_now server_now (incoming_of incoming.now) events result }
    ensures draws { result ≢ Err (RespondError.Lacking Lack.Random) → W.faults random.new ≡ W.faults random.old }
{
    match authority_of(incoming.request.target.bytes()) {
        Some(authority) => answer_to(alloc, incoming, authority, site, dial, random, seat),
        None => match no_target_reply(alloc, incoming) {
            Ok(reply) => Ok(reply),
            Err(_) => Err(RespondError::OutOfMemory),
        },
    }
}

/// The parts of the outside that one request may use.
#[derive(Drop)]
struct Parts<'s, 'd, 'w, 't, D, W, T> {
    site: &'s Site,
    dial: &'d mut D,
    random: &'w mut W,
    seat: &'t mut T,
}

impl<'s, 'd, 'w, 't, D: Dial, W: Words, T: TableSeat> Responder for Parts<'s, 'd, 'w, 't, D, W, T> {
    ghost use Rattle.std.specs.Prelude.{◌≡◌};
    ghost use Rattle.std.proofs.Common.{refl, ◌∙◌};
    ghost use Rattle.request_deciding.specs.Laws.{lacked_later};
    ghost use Rattle.request_deciding.specs.Outside.{LackedBy};
    ghost use Rattle.request_deciding.specs.Findings.{found_in};
    ghost use Rattle.request_deciding.specs.Serving.{server};
    ghost use Rattle.proxy_core.specs.Outside.{Passed, outside_at};
    ghost use Rattle.proxy_core.specs.Serving.{proxy};
    ghost use Rattle.proxy_core.specs.Laws.{passed_none, passed_then};

    type State = Server;

    type Ask = Operation<Demand>;

    type Event = Event<DialEvent>;

    ghost machine = { proxy };

    ghost state = { λ p. server p.site.now (T.seat p.seat.now).shards };

    ghost passed = { λ a b events. let at = outside_at D.dialled D.coming D.handed D.faults D.link_faults W.drawn W.faults T.seat in
        ((b.site.now ≡ a.site.now) × (b.dial.ghost_name ≡ a.dial.ghost_name)
        × (b.random.ghost_name ≡ a.random.ghost_name) × (b.seat.ghost_name ≡ a.seat.ghost_name))
        × Passed (at a.dial.now a.random.now a.seat.now) (at b.dial.now b.random.now b.seat.now) events };

    ghost lacked = { λ a b. let at = outside_at D.dialled D.coming D.handed D.faults D.link_faults W.drawn W.faults T.seat in
        LackedBy (at a.dial.now a.random.now a.seat.now).table (at b.dial.now b.random.now b.seat.now).table };

    ghost failed_draws = { λ p. W.faults p.random.now };

    fn respond(
        &mut self,
        alloc: Global,
        request: &Request,
        last: bool,
        moment: u64,
    ) -> Result<Response, RespondError> {
        let incoming = IncomingRequest {
            request,
            last,
            moment,
        };
        answer(
            alloc,
            &incoming,
            self.site,
            self.dial,
            self.random,
            self.seat,
        )
    }

    ghost passed_none = { λ a. let at = outside_at D.dialled D.coming D.handed D.faults D.link_faults W.drawn W.faults T.seat in
        ((refl, refl, refl, refl), passed_none (at a.dial.now a.random.now a.seat.now)) };

    ghost passed_join = { λ a b c xs ys p q.
        let at = outside_at D.dialled D.coming D.handed D.faults D.link_faults W.drawn W.faults T.seat in (
          (q.0.0 ∙ p.0.0, q.0.1 ∙ p.0.1, q.0.2 ∙ p.0.2, q.0.3 ∙ p.0.3),
          passed_then (at a.dial.now a.random.now a.seat.now) (at b.dial.now b.random.now b.seat.now)
              (at c.dial.now c.random.now c.seat.now) xs ys p.1 q.1,
        ) };

    ghost lacked_later = { λ a b c xs p. let at = outside_at D.dialled D.coming D.handed D.faults D.link_faults W.drawn W.faults T.seat in
        lacked_later (at a.dial.now a.random.now a.seat.now).table (at b.dial.now b.random.now b.seat.now).table
        (at c.dial.now c.random.now c.seat.now).table (found_in xs) p.1.table };
}

/// Serves one connection to its end, or to the message that ends it, as a forward proxy (RFC 9110 section 7.6). Each
/// request is decided first, by the space of `/`. One that is admitted is sent to the authority of its target over a
/// connection of its own, and answered by the response that comes, or by 502. No other is sent anywhere. A request
/// whose target isn't `http://` with an authority is answered 400.
///
/// `RandomFault` comes where the random source failed, and `Worn` where a shard of the table takes no more calls. A
/// dial or a dialled connection that fails is no error. All other errors are those of `connection_loop::drive`.
pub fn proxy_connection<L: Link, D: Dial, C: Clock, W: Words, T: TableSeat>(
    alloc: Global,
    link: &mut L,
    dial: &mut D,
    clock: &mut C,
    random: &mut W,
    seat: &mut T,
    site: &Site,
) -> Result<Served, ServeError>
    requires { IsTrue (proxy_ready site.now.spaces) }
    // What was read, written, shown and done is what the session over the input has, and who is admitted deserved it.
    ensures serves { let link_at = link_of L.left L.given L.written L.reads in
        let at = outside_at D.dialled D.coming D.handed D.faults D.link_faults W.drawn W.faults T.seat in
        let before = at dial.old random.old seat.old in let now = at dial.new random.new seat.new in
        let s = server site.now (T.seat seat.old).shards in
        ServesConnection before now (link_at link.old) (link_at link.new) (C.shown clock.old) (C.shown clock.new) s result }

    // No draw failed, but where the connection ends by it.
    ensures draws { result ≢ Err ServeError.RandomFault → W.faults random.new ≡ W.faults random.old }

    // No fault is answered without its cause.
    ensures read_fault { result ≡ Err ServeError.ReadFault → Rose (L.read_faults link.old) (L.read_faults link.new) }
    ensures write_fault { result ≡ Err ServeError.WriteFault → Rose (L.write_faults link.old) (L.write_faults link.new) }
{
    let mut parts = Parts {
        site,
        dial,
        random,
        seat,
    };
    drive(alloc, link, clock, &mut parts)
}
