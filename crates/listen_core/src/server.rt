//! What serves the connections of one worker.
use auth_decide::Site;
use auth_io::{Clock, Files, Link, Words};
use connection_loop::{ServeError, Served};
use nonce_shard::TableSeat;
use origin_core::{FileEvent, FileOperation, serve_connection};
use request_deciding::{Event, Operation, Server as Origin};
use std::alloc::Global;
use worker_loop::Server;

/// What serves the connections of one worker by a site: its files, its clock, its random source, and its seat at the
/// table of nonces.
#[derive(Drop)]
pub struct OriginServer<F, C, W, T> {
    pub files: F,
    pub clock: C,
    pub random: W,
    pub seat: T,
}

impl<F: Files, C: Clock, W: Words, T: TableSeat> Server for OriginServer<F, C, W, T> {
    ghost use Rattle.listen_core.specs.Service.{outside_at, shards_of};
    ghost use Rattle.origin_core.specs.Laws.{passed_none, passed_then};
    ghost use Rattle.origin_core.specs.Outside.{Passed};
    ghost use Rattle.origin_core.specs.Serving.{origin};
    ghost use Rattle.request_deciding.specs.Findings.{found_in};
    ghost use Rattle.request_deciding.specs.Laws.{lacked_later};
    ghost use Rattle.request_deciding.specs.Outside.{LackedBy};
    ghost use Rattle.request_deciding.specs.Serving.{server};
    ghost use Rattle.worker_loop.specs.Ends.{DrawsWell};

    type Site = Site;

    type State = Origin;

    type Ask = Operation<FileOperation>;

    type Event = Event<FileEvent>;

    ghost machine = { origin };

    ghost state = { λ site s. server site (shards_of T.seat s) };

    ghost shown = { λ s. C.shown s.clock };

    ghost passed = { λ a b. let at = outside_at F.contents F.asked F.faults W.drawn W.faults T.seat in Passed (at a) (at b) };

    ghost lacked = { λ a b. let at = outside_at F.contents F.asked F.faults W.drawn W.faults T.seat in LackedBy (at a).table (at b).table };

    ghost ends = { λ a b. DrawsWell (W.faults a.random) (W.faults b.random) };

    fn serve<L: Link>(
        &mut self,
        alloc: Global,
        link: &mut L,
        site: &Site,
    ) -> Result<Served, ServeError> {
        serve_connection(
            alloc,
            link,
            &mut self.files,
            &mut self.clock,
            &mut self.random,
            &mut self.seat,
            site,
        )
    }

    ghost passed_none = { λ a. passed_none (outside_at F.contents F.asked F.faults W.drawn W.faults T.seat a) };

    ghost passed_join = { λ a b c xs ys p q. let at = outside_at F.contents F.asked F.faults W.drawn W.faults T.seat in
        passed_then (at a) (at b) (at c) xs ys p q };

    ghost lacked_later = { λ a b c xs p. let at = outside_at F.contents F.asked F.faults W.drawn W.faults T.seat in
        lacked_later (at a).table (at b).table (at c).table (found_in xs) p.table };
}
