//! Workers that come beside their seats, as two lists, and go back so.
ghost use Rattle.std.specs.Prelude.{◌≡◌, ◌<◌, ℕ, Ok, slice_index_or, vec_len, IfOk, OnErr};
ghost use Rattle.auth_io.specs.Causes.{Rose};
ghost use Rattle.listen_core.specs.Workers.{NotesLimit, origin_service, state_of};
ghost use Rattle.listen_core.specs.declared.workers.Worker.{Worker};
ghost use Rattle.worker_loop.specs.Seating.{EndsAsWorst};
ghost use Rattle.worker_loop.specs.Workers.{Serves};

use crate::server::OriginServer;
use auth_decide::Site;
use auth_grammar::OutOfMemory;
use auth_io::{Accept, Clock, Files, Words};
use nonce_shard::TableSeat;
use std::alloc::Global;
use std::thread::Threads;
use worker_loop::{Finish, Seating, serve_seated};

/// What a worker serves with: what hands out its connections, its files, its clock and its random source.
#[derive(Drop)]
pub struct Worker<A, F, C, W> {
    pub accept: A,
    pub files: F,
    pub clock: C,
    pub random: W,
}

/// Each seat is used as it is.
#[derive(Drop)]
struct AsTheyAre;

impl<A, F, C, W, T> Seating<A, OriginServer<F, C, W, T>> for AsTheyAre {
    ghost use Rattle.listen_core.specs.Workers.{seat_of, worker_of};

    type Worker = Worker<A, F, C, W>;

    type Seat = T;

    ghost worker_of = { λ _. worker_of };

    ghost seat_of = { λ _. seat_of };

    ghost fits = { λ _ _. Unit {0} };

    fn seated(&self, worker: Worker<A, F, C, W>, seat: T) -> (A, OriginServer<F, C, W, T>) {
        let Worker {
            accept,
            files,
            clock,
            random,
        } = worker;
        let server = OriginServer {
            files,
            clock,
            random,
            seat,
        };
        (accept, server)
    }

    fn parted(&self, accept: A, server: OriginServer<F, C, W, T>) -> (Worker<A, F, C, W>, T) {
        let OriginServer {
            files,
            clock,
            random,
            seat,
        } = server;
        let worker = Worker {
            accept,
            files,
            clock,
            random,
        };
        (worker, seat)
    }
}

/// Serves a site with these workers, each with the seat at its place, in a thread of its own, and each for the same
/// number of connections. All workers and all seats come back in the same order. Where there is no memory for the lists
/// that go back, both come back as they were given, and no connection was taken.
pub fn serve_workers<
    R: Threads + Sync,
    A: Accept + Send,
    F: Files + Send,
    C: Clock + Send,
    W: Words + Send,
    T: TableSeat + Send,
>(
    rt: &R,
    alloc: Global,
    workers: Vec<Worker<A, F, C, W>>,
    seats: Vec<T>,
    site: &Site,
    count: u32,
) -> (Result<Finish, OutOfMemory>, Vec<Worker<A, F, C, W>>, Vec<T>)
where
    A::In: Send,
    requires { vec_len workers ≡ vec_len seats }
    // Between each worker and its seat as they were given and as they are handed back, at the same place, one relation
    // holds, and the end is the worst of theirs.
    ensures each { let service = origin_service F.contents F.asked F.faults C.shown W.drawn W.faults T.seat site.now in
        let at = state_of A.coming A.handed A.faults in
        IfOk result.0 (λ whole. EndsAsWorst (vec_len workers) whole (λ k finish. (w : Worker A F C W) (t : T) →
        Serves service (at (slice_index_or workers.items k w) (slice_index_or seats.items k t))
        (at (slice_index_or result.1.items k w) (slice_index_or result.2.items k t)) count finish)) }

    // Neither comes without its cause at one of the places.
    ensures accept_fault { result.0 ≡ Ok Finish.AcceptFault → (k : ℕ) × (k < vec_len workers) × ((w : Worker A F C W) →
        Rose (A.faults (slice_index_or workers.items k w).accept) (A.faults (slice_index_or result.1.items k w).accept)) }
    ensures worn { result.0 ≡ Ok Finish.Worn → (k : ℕ) × (k < vec_len workers) × ((t : T) →
        NotesLimit (T.seat (slice_index_or seats.items k t)) (T.seat (slice_index_or result.2.items k t))) }

    ensures refused_workers { OnErr result.0 (result.1.items ≡ workers.items) }
    ensures refused_seats { OnErr result.0 (result.2.items ≡ seats.items) }
    ensures as_many_workers { vec_len result.1 ≡ vec_len workers }
    ensures as_many_seats { vec_len result.2 ≡ vec_len seats }
{
    serve_seated(rt, alloc, &AsTheyAre, workers, seats, site, count)
}
