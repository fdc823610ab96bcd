//! What serves the connections of one worker.
use auth_io::{Clock, Dial, Link, Words};
use connection_loop::{ServeError, Served};
use dial_exchange::DialEvent;
use nonce_shard::TableSeat;
use proxy_core::{Demand, ProxySite, proxy_connection};
use request_deciding::{Event, Operation, Server as Proxy};
use std::alloc::Global;
use worker_loop::Server;

/// What serves the connections of one worker as a proxy: its dial, its clock, its random source, and its seat at the
/// table of nonces. Its files are kept beside them, and not used.
#[derive(Drop)]
pub struct ProxyServer<N, F, C, W, T> {
    pub dial: N,
    pub files: F,
    pub clock: C,
    pub random: W,
    pub seat: T,
}

impl<N: Dial, F, C: Clock, W: Words, T: TableSeat> Server for ProxyServer<N, F, C, W, T> {
    ghost use Rattle.std.specs.Prelude.{◌≡◌};
    ghost use Rattle.std.proofs.Common.{refl, ◌∙◌};
    ghost use Rattle.request_deciding.specs.Findings.{found_in};
    ghost use Rattle.request_deciding.specs.Laws.{lacked_later};
    ghost use Rattle.request_deciding.specs.Outside.{LackedBy};
    ghost use Rattle.request_deciding.specs.Serving.{server};
    ghost use Rattle.proxy_core.specs.Laws.{passed_none, passed_then};
    ghost use Rattle.proxy_core.specs.Outside.{Passed};
    ghost use Rattle.proxy_core.specs.Serving.{proxy};
    ghost use Rattle.proxy_listen.specs.Service.{outside_at, shards_of};
    ghost use Rattle.worker_loop.specs.Ends.{DrawsWell};

    type Site = ProxySite;

    type State = Proxy;

    type Ask = Operation<Demand>;

    type Event = Event<DialEvent>;

    ghost machine = { proxy };

    ghost state = { λ site s. server site.site (shards_of T.seat s) };

    ghost shown = { λ s. C.shown s.clock };

    ghost passed = { λ a b events. let at = outside_at N.dialled N.coming N.handed N.faults N.link_faults W.drawn W.faults T.seat in
        (b.files ≡ a.files) × Passed (at a) (at b) events };

    ghost lacked = { λ a b. let at = outside_at N.dialled N.coming N.handed N.faults N.link_faults W.drawn W.faults T.seat in
        LackedBy (at a).table (at b).table };

    ghost ends = { λ a b. DrawsWell (W.faults a.random) (W.faults b.random) };

    fn serve<L: Link>(
        &mut self,
        alloc: Global,
        link: &mut L,
        site: &ProxySite,
    ) -> Result<Served, ServeError> {
        proxy_connection(
            alloc,
            link,
            &mut self.dial,
            &mut self.clock,
            &mut self.random,
            &mut self.seat,
            &site.site,
        )
    }

    ghost passed_none = { λ a. (
      refl,
      passed_none (outside_at N.dialled N.coming N.handed N.faults N.link_faults W.drawn W.faults T.seat a),
    ) };

    ghost passed_join = { λ a b c xs ys p q.
        let at = outside_at N.dialled N.coming N.handed N.faults N.link_faults W.drawn W.faults T.seat in
        (q.0 ∙ p.0, passed_then (at a) (at b) (at c) xs ys p.1 q.1) };

    ghost lacked_later = { λ a b c xs p. let at = outside_at N.dialled N.coming N.handed N.faults N.link_faults W.drawn W.faults T.seat in
        lacked_later (at a).table (at b).table (at c).table (found_in xs) p.1.table };
}
