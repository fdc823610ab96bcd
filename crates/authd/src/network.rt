//! What `listen` and `proxy` are given: workers that share one listening socket, and a new table of nonces.
ghost use Rattle.std.specs.Prelude.{◌≡◌, ◌≤◌, All, IfOk, vec_len};
ghost use Rattle.nonce_table.specs.Tables.{IsOf};
ghost use Rattle.authd.specs.declared.crew.TheConstants.{MOST_WORKERS as most};

use crate::crew::Crew;
use crate::listen::listen;
use crate::printing::tell;
use crate::proxying::proxy;
use crate::report::report_line;
use auth_grammar::OutOfMemory;
use auth_io::{DiskFiles, OsWords, StdLink, SystemClock, TcpAccept, TcpDial};
use listen_core::Worker;
use nonce_shard::Sizes;
use nonce_table::{Closed, NonceTable, TablePass};
use proxy_listen::ProxyWorker;
use std::alloc::Global;
use std::net::TcpListener;
use std::sync::Wait;
use std::thread::Threads;
use std::{io, str};

/// A worker over the system's files, clock and random source, and a listening socket that others may share.
type SystemWorker<'r> = Worker<
    TcpAccept<'r, TcpListener>,
    DiskFiles<'r, HostRuntime>,
    SystemClock<'r, HostRuntime>,
    OsWords<'r, HostRuntime>,
>;

/// The same with what makes connections over TCP, for a proxy.
type SystemProxyWorker<'r> = ProxyWorker<
    TcpAccept<'r, TcpListener>,
    TcpDial<'r, HostRuntime>,
    DiskFiles<'r, HostRuntime>,
    SystemClock<'r, HostRuntime>,
    OsWords<'r, HostRuntime>,
>;

/// The exit status where nobody can listen on the address.
const CANNOT_LISTEN: u8 = 4;

/// The address in a text, if somebody can listen on it.
fn listener_on(rt: &HostRuntime, address: &[u8]) -> Option<TcpListener> {
    let address = str::from_utf8(address).ok()?;
    TcpListener::bind(rt, address).ok()
}

/// Tells on standard error that nobody can listen on the address.
fn tell_refused(rt: &HostRuntime, address: &[u8]) -> Result<(), OutOfMemory> {
    let mut diag = StdLink::new(io::empty(), rt.stderr());
    tell(&mut diag, b"cannot listen on ")?;
    tell(&mut diag, address)?;
    tell(&mut diag, b"\n")
}

/// Tells the totals of a table on standard output.
fn tell_totals(rt: &HostRuntime, alloc: Global, closed: &Closed) -> Result<(), OutOfMemory> {
    let line = report_line(alloc, closed)?;
    tell(&mut StdLink::new(io::empty(), rt.stdout()), line.bytes())
}

/// As many workers, all over this socket.
fn workers_over<'r>(
    rt: &'r HostRuntime,
    alloc: Global,
    listener: &'r TcpListener,
    count: u32,
) -> Result<Vec<SystemWorker<'r>>, OutOfMemory>
    ensures { IfOk result (λ workers. vec_len workers ≡ count) }
{
    let mut workers = Vec::with_capacity(alloc, count as usize)?;
    for placed in 0..count {
        workers.push_reserved(Worker {
            accept: TcpAccept::new(listener),
            files: DiskFiles::new(rt, alloc),
            clock: SystemClock::new(rt),
            random: OsWords::new(rt),
        });
    }
    Ok(workers)
}

/// The same for a proxy.
fn proxy_workers_over<'r>(
    rt: &'r HostRuntime,
    alloc: Global,
    listener: &'r TcpListener,
    count: u32,
) -> Result<Vec<SystemProxyWorker<'r>>, OutOfMemory>
    ensures { IfOk result (λ workers. vec_len workers ≡ count) }
{
    let mut workers = Vec::with_capacity(alloc, count as usize)?;
    for placed in 0..count {
        workers.push_reserved(ProxyWorker {
            accept: TcpAccept::new(listener),
            dial: TcpDial::new(rt),
            files: DiskFiles::new(rt, alloc),
            clock: SystemClock::new(rt),
            random: OsWords::new(rt),
        });
    }
    Ok(workers)
}

/// Serves by a site over this socket with these passes, as the words of `listen` ask for.
fn listen_over<R: Threads + Wait + Sync>(
    rt: &HostRuntime,
    threads: &R,
    alloc: Global,
    words: &Vec<String>,
    listener: &TcpListener,
    table: &NonceTable,
    passes: Vec<TablePass>,
) -> Result<(u8, Vec<TablePass>), OutOfMemory>
    requires some { 1 ≤ vec_len passes }
    requires few { vec_len passes ≤ most }
    requires of_table { All (λ pass. IsOf table.now pass) passes.items }
    ensures as_many { IfOk result (λ back. vec_len back.1 ≡ vec_len passes) }
    ensures of_table { IfOk result (λ back. All (λ pass. IsOf table.now pass) back.1.items) }
{
    let workers = workers_over(rt, alloc, listener, passes.len() as u32)?;
    let mut diag = StdLink::new(io::empty(), rt.stderr());
    let (status, _, passes) = listen(threads, alloc, words, table, workers, passes, &mut diag);
    Ok((status, passes))
}

/// Serves as a proxy over this socket with these passes, as the words of `proxy` ask for.
fn proxy_over<R: Threads + Wait + Sync>(
    rt: &HostRuntime,
    threads: &R,
    alloc: Global,
    words: &Vec<String>,
    listener: &TcpListener,
    table: &NonceTable,
    passes: Vec<TablePass>,
) -> Result<(u8, Vec<TablePass>), OutOfMemory>
    requires some { 1 ≤ vec_len passes }
    requires few { vec_len passes ≤ most }
    requires of_table { All (λ pass. IsOf table.now pass) passes.items }
    ensures as_many { IfOk result (λ back. vec_len back.1 ≡ vec_len passes) }
    ensures of_table { IfOk result (λ back. All (λ pass. IsOf table.now pass) back.1.items) }
{
    let workers = proxy_workers_over(rt, alloc, listener, passes.len() as u32)?;
    let mut diag = StdLink::new(io::empty(), rt.stderr());
    let (status, _, passes) = proxy(threads, alloc, words, table, workers, passes, &mut diag);
    Ok((status, passes))
}

/// Serves over this socket with these passes, as the words ask for, which are those of `proxy` or of `listen`.
fn work_over<R: Threads + Wait + Sync>(
    rt: &HostRuntime,
    threads: &R,
    alloc: Global,
    words: &Vec<String>,
    listener: &TcpListener,
    table: &NonceTable,
    passes: Vec<TablePass>,
    proxy: bool,
) -> Result<(u8, Vec<TablePass>), OutOfMemory>
    requires some { 1 ≤ vec_len passes }
    requires few { vec_len passes ≤ most }
    requires of_table { All (λ pass. IsOf table.now pass) passes.items }
    ensures as_many { IfOk result (λ back. vec_len back.1 ≡ vec_len passes) }
    ensures of_table { IfOk result (λ back. All (λ pass. IsOf table.now pass) back.1.items) }
{
    if proxy {
        proxy_over(rt, threads, alloc, words, listener, table, passes)
    } else {
        listen_over(rt, threads, alloc, words, listener, table, passes)
    }
}

/// Serves over this socket as the words ask for, with as many workers as the crew has, on a new table of nonces, whose
/// totals are told at the end.
fn serve_over<R: Threads + Wait + Sync>(
    rt: &HostRuntime,
    threads: &R,
    alloc: Global,
    words: &Vec<String>,
    listener: &TcpListener,
    crew: &Crew,
) -> Result<u8, OutOfMemory> {
    let Ok(mut table) = NonceTable::open(alloc, &Sizes::standard()) else {
        return Err(OutOfMemory);
    };
    let Ok(passes) = table.passes(alloc, crew.workers) else {
        return Err(OutOfMemory);
    };
    let (status, passes) = work_over(
        rt, threads, alloc, words, listener, &table, passes, crew.proxy,
    )?;
    let Ok(closed) = table.close(passes) else {
        unreachable!()
    };
    tell_totals(rt, alloc, &closed)?;
    Ok(status)
}

/// Listens on the crew's address, and serves as the words ask for. `threads` is the leave to start threads and to wait
/// for them.
pub(crate) fn listen_on<R: Threads + Wait + Sync>(
    rt: &HostRuntime,
    threads: &R,
    alloc: Global,
    words: &Vec<String>,
    crew: &Crew,
) -> Result<u8, OutOfMemory> {
    match listener_on(rt, crew.address.bytes()) {
        Some(listener) => serve_over(rt, threads, alloc, words, &listener, crew),
        None => {
            tell_refused(rt, crew.address.bytes())?;
            Ok(CANNOT_LISTEN)
        }
    }
}
