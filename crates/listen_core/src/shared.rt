//! Workers that share one table of nonces.
ghost use Rattle.std.specs.Prelude.{◌≡◌, ◌<◌, ℕ, All, Ok, slice_index_or, vec_len, IfOk, OnErr};
ghost use Rattle.auth_io.specs.Causes.{Rose};
ghost use Rattle.listen_core.specs.Workers.{NotesLimit, origin_service, state_of};
ghost use Rattle.listen_core.specs.declared.workers.Worker.{Worker};
ghost use Rattle.nonce_table.specs.Passes.{TablePassFacts, seat_of as pass_seat};
ghost use Rattle.nonce_table.specs.Tables.{IsOf};
ghost use Rattle.worker_loop.specs.Seating.{EndsAsWorst};
ghost use Rattle.worker_loop.specs.Workers.{Serves};

use crate::server::OriginServer;
use crate::workers::Worker;
use auth_decide::Site;
use auth_grammar::OutOfMemory;
use auth_io::{Accept, Clock, Files, Words};
use nonce_table::{NonceTable, TableDesk, TablePass, Turns};
use std::alloc::Global;
use std::sync::Wait;
use std::thread::Threads;
use worker_loop::{Finish, Seating, serve_seated};

/// Each pass is used at a desk of its own.
#[derive(Drop)]
struct AtDesks<'t, R> {
    rt: &'t R,
    turns: &'t Turns,
}

impl<'t, R: Wait, A, F, C, W> Seating<A, OriginServer<F, C, W, TableDesk<'t, R>>>
    for AtDesks<'t, R> {
    ghost use Rattle.listen_core.specs.Workers.{seat_of, worker_of};
    ghost use Rattle.nonce_table.specs.Tables.{IsAt};

    type Worker = Worker<A, F, C, W>;

    type Seat = TablePass;

    ghost worker_of = { λ _. worker_of };

    ghost seat_of = { λ _. seat_of };

    ghost fits = { λ s pass. IsAt s.turns.now pass };

    fn seated(
        &self,
        worker: Worker<A, F, C, W>,
        pass: TablePass,
    ) -> (A, OriginServer<F, C, W, TableDesk<'t, R>>) {
        let Worker {
            accept,
            files,
            clock,
            random,
        } = worker;
        let server = OriginServer {
            files,
            clock,
            random,
            seat: TableDesk::at(self.rt, self.turns, pass),
        };
        (accept, server)
    }

    fn parted(
        &self,
        accept: A,
        server: OriginServer<F, C, W, TableDesk<'t, R>>,
    ) -> (Worker<A, F, C, W>, TablePass) {
        let OriginServer {
            files,
            clock,
            random,
            seat,
        } = server;
        let worker = Worker {
            accept,
            files,
            clock,
            random,
        };
        (worker, seat.into_pass())
    }
}

/// Serves a site with these workers on one table, each with the pass at its place, in a thread of its own, and each for
/// the same number of connections. All workers and all passes come back in the same order. Where there is no memory for
/// the lists that go back, both come back as they were given, and no connection was taken. A call of the table may wait
/// for other threads.
pub fn serve_shared<
    R: Threads + Wait + Sync,
    A: Accept + Send,
    F: Files + Send,
    C: Clock + Send,
    W: Words + Send,
>(
    rt: &R,
    alloc: Global,
    table: &NonceTable,
    workers: Vec<Worker<A, F, C, W>>,
    passes: Vec<TablePass>,
    site: &Site,
    count: u32,
) -> (
    Result<Finish, OutOfMemory>,
    Vec<Worker<A, F, C, W>>,
    Vec<TablePass>,
)
where
    A::In: Send,
    requires as_many { vec_len workers ≡ vec_len passes }
    requires of_table { All (λ pass. IsOf table.now pass) passes.items }
    // Between each worker and its pass as they were given and as they are handed back, at the same place, one relation
    // holds, and the end is the worst of theirs.
    ensures each { let service = origin_service F.contents F.asked F.faults C.shown W.drawn W.faults pass_seat site.now in
        let at = state_of A.coming A.handed A.faults in
        IfOk result.0 (λ whole. EndsAsWorst (vec_len workers) whole (λ k finish. (w : Worker A F C W) (t : TablePassFacts) →
        Serves service (at (slice_index_or workers.items k w) (slice_index_or passes.items k t))
        (at (slice_index_or result.1.items k w) (slice_index_or result.2.items k t)) count finish)) }

    // Neither comes without its cause at one of the places.
    ensures accept_fault { result.0 ≡ Ok Finish.AcceptFault → (k : ℕ) × (k < vec_len workers)
        × ((w : Worker A F C W)
        → Rose (A.faults (slice_index_or workers.items k w).accept) (A.faults (slice_index_or result.1.items k w).accept)) }
    ensures worn { result.0 ≡ Ok Finish.Worn → (k : ℕ) × (k < vec_len workers)
        × ((t : TablePassFacts)
        → NotesLimit (pass_seat (slice_index_or passes.items k t)) (pass_seat (slice_index_or result.2.items k t))) }

    ensures of_table { All (λ pass. IsOf table.now pass) result.2.items }
    ensures refused_workers { OnErr result.0 (result.1.items ≡ workers.items) }
    ensures refused_passes { OnErr result.0 (result.2.items ≡ passes.items) }
    ensures as_many_workers { vec_len result.1 ≡ vec_len workers }
    ensures as_many_passes { vec_len result.2 ≡ vec_len passes }
{
    let desks = AtDesks {
        rt,
        turns: table.turns(),
    };
    serve_seated(rt, alloc, &desks, workers, passes, site, count)
}
