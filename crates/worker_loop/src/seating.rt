//! Workers that come as two lists, themselves and their seats, and go back so.
ghost use Rattle.std.specs.Prelude.{◌≡◌, ◌≤◌, All, map, slice_index_or, vec_len, vec_capacity, IfOk, OnErr};
ghost use Rattle.worker_loop.specs.Jobs.{of_job};
ghost use Rattle.worker_loop.specs.Seating.{EndsAsWorst, ServesPlace};
ghost use Rattle.worker_loop.specs.Service.{service_of};

use crate::finish::Finish;
use crate::jobs::{Job, serve_jobs};
use crate::server::Server;
use auth_grammar::OutOfMemory;
use auth_io::Accept;
use std::alloc::Global;
use std::thread::Threads;

/// How a worker and its seat at a table make a job, and are had back from it.
pub trait Seating<A, S> {
    ghost use Rattle.std.specs.Prelude.{◌≡◌};

    type Worker;

    type Seat;

    ghost worker_of: { Self → A → S → Self.Worker };

    ghost seat_of: { Self → A → S → Self.Seat };

    /// The seats that fit.
    ghost fits: { Self → Self.Seat → Type 0 };

    fn seated(&self, worker: Self::Worker, seat: Self::Seat) -> (A, S)
        requires { fits self.now seat }
        ensures worker { worker_of self.now result.0 result.1 ≡ worker }
        ensures seat { seat_of self.now result.0 result.1 ≡ seat };

    fn parted(&self, accept: A, server: S) -> (Self::Worker, Self::Seat)
        ensures worker { result.0 ≡ worker_of self.now accept server }
        ensures seat { result.1 ≡ seat_of self.now accept server };
}

/// Puts each worker at its seat.
fn seat_all<A, S, P: Seating<A, S>>(
    seating: &P,
    workers: Vec<P::Worker>,
    seats: Vec<P::Seat>,
    jobs: &mut Vec<Job<A, S>>,
)
    requires as_many { vec_len workers ≡ vec_len seats }
    requires fit { All (P.fits seating.now) seats.items }
    requires empty { vec_len jobs.old ≡ 0 }
    requires room { vec_len workers ≤ vec_capacity jobs.old }
    ensures workers { map (of_job (P.worker_of seating.now)) jobs.new.items ≡ workers.items }
    ensures seats { map (of_job (P.seat_of seating.now)) jobs.new.items ≡ seats.items }
    ensures number { vec_len jobs.new ≡ vec_len workers }
{
    let count = workers.len();
    let mut rest = workers.into_iter();
    let mut rest_seats = seats.into_iter();
    for placed in 0..count {
        let Some(worker) = rest.next() else {
            unreachable!()
        };
        let Some(seat) = rest_seats.next() else {
            unreachable!()
        };
        let (accept, server) = seating.seated(worker, seat);
        jobs.push_reserved(Job {
            accept,
            server,
            finish: Finish::Well,
        });
    }
    rest.destroy_empty();
    rest_seats.destroy_empty();
}

/// Has each worker and each seat back.
fn part_all<A, S, P: Seating<A, S>>(
    seating: &P,
    jobs: Vec<Job<A, S>>,
    workers: &mut Vec<P::Worker>,
    seats: &mut Vec<P::Seat>,
)
    requires no_worker { vec_len workers.old ≡ 0 }
    requires no_seat { vec_len seats.old ≡ 0 }
    requires worker_room { vec_len jobs ≤ vec_capacity workers.old }
    requires seat_room { vec_len jobs ≤ vec_capacity seats.old }
    ensures workers { workers.new.items ≡ map (of_job (P.worker_of seating.now)) jobs.items }
    ensures seats { seats.new.items ≡ map (of_job (P.seat_of seating.now)) jobs.items }
    ensures as_many_workers { vec_len workers.new ≡ vec_len jobs }
    ensures as_many_seats { vec_len seats.new ≡ vec_len jobs }
{
    let count = jobs.len();
    let mut rest = jobs.into_iter();
    for taken in 0..count {
        let Some(job) = rest.next() else {
            unreachable!()
        };
        let Job {
            accept,
            server,
            finish: _,
        } = job;
        let (worker, seat) = seating.parted(accept, server);
        workers.push_reserved(worker);
        seats.push_reserved(seat);
    }
    rest.destroy_empty();
}

/// Serves with these workers, each at the seat at its place, in a thread of its own, and each for the same number of
/// connections. All workers and all seats come back in the same order. Where there is no memory for the lists that go
/// back, both come back as they were given.
pub fn serve_seated<R: Threads + Sync, A: Accept + Send, S: Server + Send, P: Seating<A, S>>(
    rt: &R,
    alloc: Global,
    seating: &P,
    workers: Vec<P::Worker>,
    seats: Vec<P::Seat>,
    site: &S::Site,
    count: u32,
) -> (Result<Finish, OutOfMemory>, Vec<P::Worker>, Vec<P::Seat>)
where
    A::In: Send,
    S::Site: Sync,
    requires as_many { vec_len workers ≡ vec_len seats }
    requires fit { All (P.fits seating.now) seats.items }
    // Between each worker and its seat as they were given and as they are handed back, at the same place, one relation
    // holds, and the end is the worst of theirs.
    ensures each { IfOk result.0 (λ whole. EndsAsWorst (vec_len workers) whole (λ k finish. (w : P.Worker) (t : P.Seat) →
        ServesPlace (service_of S.machine (S.state site.now) S.shown S.passed S.lacked S.ends) A.coming A.handed A.faults
        (P.worker_of seating.now) (P.seat_of seating.now)
        (slice_index_or workers.items k w) (slice_index_or seats.items k t)
        (slice_index_or result.1.items k w) (slice_index_or result.2.items k t) count finish)) }
    ensures refused_workers { OnErr result.0 (result.1.items ≡ workers.items) }
    ensures refused_seats { OnErr result.0 (result.2.items ≡ seats.items) }
    ensures as_many_workers { vec_len result.1 ≡ vec_len workers }
    ensures as_many_seats { vec_len result.2 ≡ vec_len seats }
{
    let Ok(mut jobs) = Vec::with_capacity(alloc, workers.len()) else {
        return (Err(OutOfMemory), workers, seats);
    };
    let Ok(mut workers_back) = Vec::with_capacity(alloc, workers.len()) else {
        jobs.destroy_empty();
        return (Err(OutOfMemory), workers, seats);
    };
    let Ok(mut seats_back) = Vec::with_capacity(alloc, workers.len()) else {
        jobs.destroy_empty();
        workers_back.destroy_empty();
        return (Err(OutOfMemory), workers, seats);
    };
    seat_all(seating, workers, seats, &mut jobs);
    let finish = serve_jobs(rt, alloc, jobs.as_mut_slice(), site, count);
    part_all(seating, jobs, &mut workers_back, &mut seats_back);
    (Ok(finish), workers_back, seats_back)
}
