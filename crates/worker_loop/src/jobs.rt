//! Several workers, each in a thread of its own.
ghost use Rattle.std.specs.Prelude.{◌≡◌, ◌<◌, ℕ, List, length, map, slice_index_or};
ghost use Rattle.auth_io.specs.Causes.{Rose};
ghost use Rattle.connection_loop.specs.declared.responder.Lack.TheVariants.{Worn};
ghost use Rattle.worker_loop.specs.Ends.{worst_of};
ghost use Rattle.worker_loop.specs.Jobs.{finish_of, job_state};
ghost use Rattle.worker_loop.specs.Service.{service_of};
ghost use Rattle.worker_loop.specs.Workers.{Serves};
ghost use Rattle.worker_loop.specs.declared.jobs.Job.{Job};

use crate::finish::Finish;
use crate::server::Server;
use crate::worker::serve_links;
use auth_io::Accept;
use std::alloc::Global;
use std::thread::{Threads, for_each_mut};

/// What one worker works through: what hands out its connections, what serves them, and how it ended.
#[derive(Drop)]
pub struct Job<A, S> {
    pub accept: A,
    pub server: S,
    pub finish: Finish,
}

/// One of them.
fn serve_job<A: Accept, S: Server>(alloc: Global, job: &mut Job<A, S>, site: &S::Site, count: u32)
    ensures serves { let at = job_state A.coming A.handed A.faults in
        Serves (service_of S.machine (S.state site.now) S.shown S.passed S.lacked S.ends) (at job.old) (at job.new) count job.new.finish }
    ensures worn { job.new.finish ≡ Finish.Worn → (calls : ℕ) × (ask : S.Ask) × S.lacked job.old.server job.new.server (Worn calls) ask }
{
    job.finish = serve_links(alloc, &mut job.accept, &mut job.server, site, count);
}

/// All of them at once. Each stays at its place.
fn serve_each<R: Threads + Sync, A: Accept + Send, S: Server + Send>(
    rt: &R,
    alloc: Global,
    jobs: &mut [Job<A, S>],
    site: &S::Site,
    count: u32,
)
where
    A::In: Send,
    S::Site: Sync,
    ensures each { let at = job_state A.coming A.handed A.faults in
        (k : ℕ) (d : Job A S) → k < length jobs.old →
        Serves (service_of S.machine (S.state site.now) S.shown S.passed S.lacked S.ends)
        (at (slice_index_or jobs.old k d)) (at (slice_index_or jobs.new k d)) count (slice_index_or jobs.new k d).finish }
    ensures worn { (k : ℕ) (d : Job A S) → k < length jobs.old → (slice_index_or jobs.new k d).finish ≡ Finish.Worn →
        (calls : ℕ) × (ask : S.Ask) × S.lacked (slice_index_or jobs.old k d).server (slice_index_or jobs.new k d).server (Worn calls) ask }
{
    let threads = jobs.len().max(1);
    for_each_mut(
        rt,
        jobs,
        threads,
        &|_, job| serve_job(alloc, job, site, count),
    );
}

/// The worst of their ends.
fn worst<A, S>(jobs: &[Job<A, S>]) -> Finish
    ensures { result ≡ worst_of Finish.Well (map finish_of jobs.now) }
{
    let mut worst = Finish::Well;
    for job in jobs {
        worst = worst.worse(job.finish);
    }
    worst
}

/// Works through these jobs, each in a thread of its own, and each for the same number of connections. The end of all is
/// the worst of theirs: that no connection was handed out, then that a table of nonces takes no more calls, then that
/// there was no memory.
pub fn serve_jobs<R: Threads + Sync, A: Accept + Send, S: Server + Send>(
    rt: &R,
    alloc: Global,
    jobs: &mut [Job<A, S>],
    site: &S::Site,
    count: u32,
) -> Finish
where
    A::In: Send,
    S::Site: Sync,
    // Between each job as it was given and as it is handed back, at the same place, one relation holds.
    ensures each { let at = job_state A.coming A.handed A.faults in
        (k : ℕ) (d : Job A S) → k < length jobs.old →
        Serves (service_of S.machine (S.state site.now) S.shown S.passed S.lacked S.ends)
        (at (slice_index_or jobs.old k d)) (at (slice_index_or jobs.new k d)) count (slice_index_or jobs.new k d).finish }
    ensures worst { result ≡ worst_of Finish.Well (map finish_of jobs.new) }

    // Neither comes without its cause at one of the places.
    ensures accept_fault { result ≡ Finish.AcceptFault → (k : ℕ) × (k < length jobs.old) × ((d : Job A S) →
        Rose (A.faults (slice_index_or jobs.old k d).accept) (A.faults (slice_index_or jobs.new k d).accept)) }
    ensures worn { result ≡ Finish.Worn → (k : ℕ) × (k < length jobs.old) × ((d : Job A S) →
        (calls : ℕ) × (ask : S.Ask) × S.lacked (slice_index_or jobs.old k d).server (slice_index_or jobs.new k d).server (Worn calls) ask) }
{
    serve_each(rt, alloc, jobs, site, count);
    worst(jobs)
}
