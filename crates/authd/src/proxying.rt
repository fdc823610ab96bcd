//! The command `proxy`: workers serve as one forward proxy on one table of nonces.
ghost use Rattle.std.specs.Prelude.{◌≡◌, ◌⊎◌, ◌≤◌, All, IfErr, Ok, Result, map, string_bytes, vec_len};
ghost use Rattle.std.specs.Option.{option_map};
ghost use Rattle.auth_grammar.specs.declared.octets.OutOfMemory.{OutOfMemory};
ghost use Rattle.authd.specs.Commands.{proxying_of};
ghost use Rattle.authd.specs.Endings.{status_of};
ghost use Rattle.authd.specs.Listen.{SomeWorn, diag_state, status_for};
ghost use Rattle.authd.specs.Proxying.{AcceptFaultRose, FileFaultRose, IsFit, Proxies, ServesSite, Starts, crew, for_workers, sight_of};
ghost use Rattle.authd.specs.Words.{command_of, proxying_in};
ghost use Rattle.nonce_table.specs.Passes.{seat_of};
ghost use Rattle.nonce_table.specs.Tables.{IsOf};
ghost use Rattle.origin_core.specs.Outside.{files_state};
ghost use Rattle.worker_loop.specs.declared.finish.Finish.{Finish};

use crate::command::{Place, command_of};
use crate::crew::Proxying;
use crate::failure::{Failure, Refusal};
use crate::listen::status_of;
use crate::loading::site_of;
use crate::run::report;
use auth_decide::Site;
use auth_io::{Accept, Clock, Dial, Files, Sink, Words};
use nonce_table::{NonceTable, TablePass};
use proxy_core::ProxySite;
use proxy_listen::{ProxyWorker, serve_proxied};
use std::alloc::Global;
use std::sync::Wait;
use std::thread::Threads;

/// What words of `proxy` ask of so many workers.
fn proxying_for(words: &[String], workers: usize) -> Option<Proxying<'_>>
    ensures { option_map proxying_of result ≡ for_workers workers (proxying_in (command_of (map string_bytes words.now))) }
{
    let Some(proxying) = command_of(words).proxying() else {
        return None;
    };
    if proxying.workers as usize == workers {
        Some(proxying)
    } else {
        None
    }
}

/// The site, if it is fit for a proxy.
fn fit(site: Site) -> Result<ProxySite, Failure>
    ensures fit { IsFit (Ok site) result }
    ensures refused { IfErr result (λ why. status_of why ≡ 3) }
{
    if site.spaces.proxy_ready() {
        Ok(ProxySite::new(site))
    } else {
        Err(Failure::Refused(Refusal::NotForProxy))
    }
}

/// Reads the site of these files by the first worker's.
fn start<A, N, F: Files, C, W>(
    alloc: Global,
    workers: &mut Vec<ProxyWorker<A, N, F, C, W>>,
    store: &[u8],
    spaces: &[u8],
) -> Result<ProxySite, Failure>
    requires { 1 ≤ vec_len workers.old }
    ensures starts { Starts (files_state F.contents F.asked F.faults) store.now spaces.now workers.old.items workers.new.items result }
    ensures fault { IfErr result (λ why. status_of why ≡ 4 → FileFaultRose F.faults workers.old.items workers.new.items) }
{
    let place = Place {
        store,
        spaces,
        root: b"",
    };
    match site_of(alloc, &mut workers[0].files, &place) {
        Ok(site) => fit(site),
        Err(why) => Err(why),
    }
}

/// Serves as a proxy with these workers on this table, each with the pass at its place.
fn serve_site<
    R: Threads + Wait + Sync,
    A: Accept + Send,
    N: Dial + Send,
    F: Files + Send,
    C: Clock + Send,
    W: Words + Send,
>(
    rt: &R,
    alloc: Global,
    table: &NonceTable,
    workers: Vec<ProxyWorker<A, N, F, C, W>>,
    passes: Vec<TablePass>,
    site: &ProxySite,
    connections: u32,
) -> (u8, Vec<ProxyWorker<A, N, F, C, W>>, Vec<TablePass>)
where
    A::In: Send,
    N::Out: Send,
    requires as_many { vec_len workers ≡ vec_len passes }
    requires of_table { All (λ pass. IsOf table.now pass) passes.items }
    ensures serves { let sight = sight_of A.coming A.handed A.faults N.dialled N.coming N.handed N.faults N.link_faults F.contents
        F.asked F.faults C.shown W.drawn W.faults seat_of in
        (end : Result Finish OutOfMemory)
        × ServesSite sight site.now.site connections (crew workers.items passes.items)
        (crew result.1.items result.2.items) end × (result.0 ≡ status_for end) }
    ensures accept_fault { result.0 ≡ 4 → AcceptFaultRose A.faults workers.items result.1.items }
    ensures worn { result.0 ≡ 6 → SomeWorn seat_of passes.items result.2.items }
    ensures as_many_workers { vec_len result.1 ≡ vec_len workers }
    ensures as_many_passes { vec_len result.2 ≡ vec_len passes }
    ensures passes_of_table { All (λ pass. IsOf table.now pass) result.2.items }
{
    let (end, workers, passes) = serve_proxied(
        rt,
        alloc,
        table,
        workers,
        passes,
        site,
        connections,
    );
    (status_of(end), workers, passes)
}

/// Serves as words of `proxy` ask for.
fn proxy_for<
    R: Threads + Wait + Sync,
    A: Accept + Send,
    N: Dial + Send,
    F: Files + Send,
    C: Clock + Send,
    W: Words + Send,
    D: Sink,
>(
    rt: &R,
    alloc: Global,
    proxying: &Proxying<'_>,
    table: &NonceTable,
    workers: Vec<ProxyWorker<A, N, F, C, W>>,
    passes: Vec<TablePass>,
    diag: &mut D,
) -> (u8, Vec<ProxyWorker<A, N, F, C, W>>, Vec<TablePass>)
where
    A::In: Send,
    N::Out: Send,
    requires some { 1 ≤ vec_len workers }
    requires as_many { vec_len workers ≡ vec_len passes }
    requires of_table { All (λ pass. IsOf table.now pass) passes.items }
    ensures proxies { let sight = sight_of A.coming A.handed A.faults N.dialled N.coming N.handed N.faults N.link_faults F.contents
        F.asked F.faults C.shown W.drawn W.faults seat_of in
        let diag_at = diag_state D.written D.faults in
        Proxies sight (Some (proxying_of proxying.now)) (crew workers.items passes.items)
        (crew result.1.items result.2.items) (diag_at diag.old) (diag_at diag.new) result.0 }
    ensures fault { result.0 ≡ 4 → AcceptFaultRose A.faults workers.items result.1.items
        ⊎ (FileFaultRose F.faults workers.items result.1.items × (result.2.items ≡ passes.items)) }
    ensures worn { result.0 ≡ 6 → SomeWorn seat_of passes.items result.2.items }
    ensures as_many_workers { vec_len result.1 ≡ vec_len workers }
    ensures as_many_passes { vec_len result.2 ≡ vec_len passes }
    ensures passes_of_table { All (λ pass. IsOf table.now pass) result.2.items }
{
    let mut workers = workers;
    match start(alloc, &mut workers, proxying.store, proxying.spaces) {
        Ok(site) => serve_site(
            rt,
            alloc,
            table,
            workers,
            passes,
            &site,
            proxying.connections,
        ),
        Err(why) => (report(alloc, Err(why), diag), workers, passes),
    }
}

/// Does what words of `proxy` ask for, with these workers on this table, and answers the exit status: the first
/// worker's files give a site, and then each worker serves so many connections as a proxy by it, in a thread of its own, with the
/// pass at its place. Other words, and those that state another number of workers, are refused. All workers and all
/// passes come back in the same order. The words don't include the program's name. A failure of status 2 or 3 is told by
/// a line on `diag`, whose own faults change nothing. A call of the table may wait for other threads.
pub fn proxy<
    R: Threads + Wait + Sync,
    A: Accept + Send,
    N: Dial + Send,
    F: Files + Send,
    C: Clock + Send,
    W: Words + Send,
    D: Sink,
>(
    rt: &R,
    alloc: Global,
    words: &Vec<String>,
    table: &NonceTable,
    workers: Vec<ProxyWorker<A, N, F, C, W>>,
    passes: Vec<TablePass>,
    diag: &mut D,
) -> (u8, Vec<ProxyWorker<A, N, F, C, W>>, Vec<TablePass>)
where
    A::In: Send,
    N::Out: Send,
    requires some { 1 ≤ vec_len workers }
    requires as_many { vec_len workers ≡ vec_len passes }
    requires of_table { All (λ pass. IsOf table.now pass) passes.items }
    // At each place one relation holds between the worker and its pass as they were given and as they are handed back.
    ensures proxies { let sight = sight_of A.coming A.handed A.faults N.dialled N.coming N.handed N.faults N.link_faults F.contents
        F.asked F.faults C.shown W.drawn W.faults seat_of in
        let diag_at = diag_state D.written D.faults in
        Proxies sight (for_workers (vec_len workers) (proxying_in (command_of (map string_bytes words.now.items))))
        (crew workers.items passes.items) (crew result.1.items result.2.items) (diag_at diag.old) (diag_at diag.new) result.0 }

    // Neither comes without its cause: a fault of handing out at some place or of the first worker's files, and a pass
    // that notes its limit.
    ensures fault { result.0 ≡ 4 → AcceptFaultRose A.faults workers.items result.1.items
        ⊎ (FileFaultRose F.faults workers.items result.1.items × (result.2.items ≡ passes.items)) }
    ensures worn { result.0 ≡ 6 → SomeWorn seat_of passes.items result.2.items }

    ensures as_many_workers { vec_len result.1 ≡ vec_len workers }
    ensures as_many_passes { vec_len result.2 ≡ vec_len passes }
    ensures passes_of_table { All (λ pass. IsOf table.now pass) result.2.items }
{
    match proxying_for(words.as_slice(), workers.len()) {
        Some(proxying) => proxy_for(rt, alloc, &proxying, table, workers, passes, diag),
        None => (report(alloc, Err(Failure::Usage), diag), workers, passes),
    }
}
