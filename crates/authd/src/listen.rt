//! The command `listen`: workers serve a site on one table of nonces.
ghost use Rattle.std.specs.Prelude.{◌≡◌, ◌⊎◌, ◌≤◌, All, IfErr, Result, map, string_bytes, vec_len};
ghost use Rattle.std.specs.Option.{option_map};
ghost use Rattle.auth_grammar.specs.declared.octets.OutOfMemory.{OutOfMemory};
ghost use Rattle.authd.specs.Commands.{listening_of};
ghost use Rattle.authd.specs.Endings.{status_of};
ghost use Rattle.authd.specs.Listen.{AcceptFaultRose, FileFaultRose, Listens, ServesSite, SomeWorn, Starts, crew, diag_state, for_workers, sight_of, status_for};
ghost use Rattle.authd.specs.Words.{command_of, listening_in};
ghost use Rattle.nonce_table.specs.Passes.{seat_of};
ghost use Rattle.nonce_table.specs.Tables.{IsOf};
ghost use Rattle.origin_core.specs.Outside.{files_state};
ghost use Rattle.worker_loop.specs.declared.finish.Finish.{Finish};

use crate::command::{Place, command_of};
use crate::crew::Listening;
use crate::failure::Failure;
use crate::loading::site_of;
use crate::run::report;
use auth_decide::Site;
use auth_grammar::OutOfMemory;
use auth_io::{Accept, Clock, Files, Sink, Words};
use listen_core::{Worker, serve_shared};
use nonce_table::{NonceTable, TablePass};
use std::alloc::Global;
use std::sync::Wait;
use std::thread::Threads;
use worker_loop::Finish;

/// The exit status of workers that ended so, or that there was no memory for.
pub(crate) fn status_of(end: Result<Finish, OutOfMemory>) -> u8
    ensures { result ≡ status_for end }
{
    match end {
        Ok(Finish::Well) => 0,
        Ok(Finish::AcceptFault) => 4,
        Ok(Finish::Worn) => 6,
        Ok(Finish::OutOfMemory) | Err(OutOfMemory) => 7,
    }
}

/// What words of `listen` ask of so many workers.
fn listening_for(words: &[String], workers: usize) -> Option<Listening<'_>>
    ensures { option_map listening_of result ≡ for_workers workers (listening_in (command_of (map string_bytes words.now))) }
{
    let Some(listening) = command_of(words).listening() else {
        return None;
    };
    if listening.workers as usize == workers {
        Some(listening)
    } else {
        None
    }
}

/// Reads the site at a place by the first worker's files.
fn start<A, F: Files, C, W>(
    alloc: Global,
    workers: &mut Vec<Worker<A, F, C, W>>,
    place: &Place<'_>,
) -> Result<Site, Failure>
    requires { 1 ≤ vec_len workers.old }
    ensures starts { Starts
        (files_state F.contents F.asked F.faults) place.now.store.now place.now.spaces.now place.now.root.now
        workers.old.items workers.new.items result }
    ensures fault { IfErr result (λ why. status_of why ≡ 4 → FileFaultRose F.faults workers.old.items workers.new.items) }
{
    site_of(alloc, &mut workers[0].files, place)
}

/// Serves a site with these workers on this table, each with the pass at its place.
fn serve_site<
    R: Threads + Wait + Sync,
    A: Accept + Send,
    F: Files + Send,
    C: Clock + Send,
    W: Words + Send,
>(
    rt: &R,
    alloc: Global,
    table: &NonceTable,
    workers: Vec<Worker<A, F, C, W>>,
    passes: Vec<TablePass>,
    site: &Site,
    connections: u32,
) -> (u8, Vec<Worker<A, F, C, W>>, Vec<TablePass>)
where
    A::In: Send,
    requires as_many { vec_len workers ≡ vec_len passes }
    requires of_table { All (λ pass. IsOf table.now pass) passes.items }
    ensures serves { let sight = sight_of A.coming A.handed A.faults F.contents F.asked F.faults C.shown W.drawn W.faults seat_of in
        (end : Result Finish OutOfMemory)
        × ServesSite sight site.now connections (crew workers.items passes.items)
        (crew result.1.items result.2.items) end × (result.0 ≡ status_for end) }
    ensures accept_fault { result.0 ≡ 4 → AcceptFaultRose A.faults workers.items result.1.items }
    ensures worn { result.0 ≡ 6 → SomeWorn seat_of passes.items result.2.items }
    ensures as_many_workers { vec_len result.1 ≡ vec_len workers }
    ensures as_many_passes { vec_len result.2 ≡ vec_len passes }
    ensures passes_of_table { All (λ pass. IsOf table.now pass) result.2.items }
{
    let (end, workers, passes) = serve_shared(rt, alloc, table, workers, passes, site, connections);
    (status_of(end), workers, passes)
}

/// Serves as words of `listen` ask for.
fn listen_for<
    R: Threads + Wait + Sync,
    A: Accept + Send,
    F: Files + Send,
    C: Clock + Send,
    W: Words + Send,
    D: Sink,
>(
    rt: &R,
    alloc: Global,
    listening: &Listening<'_>,
    table: &NonceTable,
    workers: Vec<Worker<A, F, C, W>>,
    passes: Vec<TablePass>,
    diag: &mut D,
) -> (u8, Vec<Worker<A, F, C, W>>, Vec<TablePass>)
where
    A::In: Send,
    requires some { 1 ≤ vec_len workers }
    requires as_many { vec_len workers ≡ vec_len passes }
    requires of_table { All (λ pass. IsOf table.now pass) passes.items }
    ensures listens { let sight = sight_of A.coming A.handed A.faults F.contents F.asked F.faults C.shown W.drawn W.faults seat_of in
        let diag_at = diag_state D.written D.faults in
        Listens sight (Some (listening_of listening.now)) (crew workers.items passes.items)
        (crew result.1.items result.2.items) (diag_at diag.old) (diag_at diag.new) result.0 }
    ensures fault { result.0 ≡ 4 → AcceptFaultRose A.faults workers.items result.1.items
        ⊎ (FileFaultRose F.faults workers.items result.1.items × (result.2.items ≡ passes.items)) }
    ensures worn { result.0 ≡ 6 → SomeWorn seat_of passes.items result.2.items }
    ensures as_many_workers { vec_len result.1 ≡ vec_len workers }
    ensures as_many_passes { vec_len result.2 ≡ vec_len passes }
    ensures passes_of_table { All (λ pass. IsOf table.now pass) result.2.items }
{
    let mut workers = workers;
    match start(alloc, &mut workers, &listening.place) {
        Ok(site) => serve_site(
            rt,
            alloc,
            table,
            workers,
            passes,
            &site,
            listening.connections,
        ),
        Err(why) => (report(alloc, Err(why), diag), workers, passes),
    }
}

/// Does what words of `listen` ask for, with these workers on this table, and answers the exit status: the first
/// worker's files give a site, and then each worker serves so many connections by it, in a thread of its own, with the
/// pass at its place. Other words, and those that state another number of workers, are refused. All workers and all
/// passes come back in the same order. The words don't include the program's name. A failure of status 2 or 3 is told by
/// a line on `diag`, whose own faults change nothing. A call of the table may wait for other threads.
pub fn listen<
    R: Threads + Wait + Sync,
    A: Accept + Send,
    F: Files + Send,
    C: Clock + Send,
    W: Words + Send,
    D: Sink,
>(
    rt: &R,
    alloc: Global,
    words: &Vec<String>,
    table: &NonceTable,
    workers: Vec<Worker<A, F, C, W>>,
    passes: Vec<TablePass>,
    diag: &mut D,
) -> (u8, Vec<Worker<A, F, C, W>>, Vec<TablePass>)
where
    A::In: Send,
    requires some { 1 ≤ vec_len workers }
    requires as_many { vec_len workers ≡ vec_len passes }
    requires of_table { All (λ pass. IsOf table.now pass) passes.items }
    // At each place one relation holds between the worker and its pass as they were given and as they are handed back.
    ensures listens { let sight = sight_of A.coming A.handed A.faults F.contents F.asked F.faults C.shown W.drawn W.faults seat_of in
        let diag_at = diag_state D.written D.faults in
        Listens sight (for_workers (vec_len workers) (listening_in (command_of (map string_bytes words.now.items))))
        (crew workers.items passes.items) (crew result.1.items result.2.items) (diag_at diag.old) (diag_at diag.new) result.0 }

    // Neither comes without its cause: a fault of handing out at some place or of the first worker's files, and a pass
    // that notes its limit.
    ensures fault { result.0 ≡ 4 → AcceptFaultRose A.faults workers.items result.1.items
        ⊎ (FileFaultRose F.faults workers.items result.1.items × (result.2.items ≡ passes.items)) }
    ensures worn { result.0 ≡ 6 → SomeWorn seat_of passes.items result.2.items }

    ensures as_many_workers { vec_len result.1 ≡ vec_len workers }
    ensures as_many_passes { vec_len result.2 ≡ vec_len passes }
    ensures passes_of_table { All (λ pass. IsOf table.now pass) result.2.items }
{
    match listening_for(words.as_slice(), workers.len()) {
        Some(listening) => listen_for(rt, alloc, &listening, table, workers, passes, diag),
        None => (report(alloc, Err(Failure::Usage), diag), workers, passes),
    }
}
