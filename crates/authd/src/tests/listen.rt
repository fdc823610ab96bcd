//! `listen`: who is made for which words, how it ends, and the totals.
ghost use Rattle.std.specs.Prelude.{◌≡◌, ◌≤◌, IfOk, vec_len};
ghost use Rattle.auth_io.specs.Memory.{IsUnused};

use super::pipe::{bare_request, files_of, spaces_text, store_text};
use super::words_of;
use crate::command::crew_of;
use crate::crew::Crew;
use crate::listen::listen;
use crate::report::report_line;
use auth_grammar::Octets;
use auth_io::{Accept, Files, MemAccept, MemClock, MemFiles, MemLink, MemSink, MemWords};
use listen_core::Worker;
use nonce_shard::Sizes;
use nonce_table::NonceTable;
use std::alloc::Global;
use std::process::Abort;
use std::sync::Wait;
use std::test::Fail;
use std::thread::Threads;

/// How many workers the words want and on which address they listen, or none.
const CREWS: &str = "listen s p w 127.0.0.1:8080 2 1|2 127.0.0.1:8080
listen s p w 127.0.0.1:8080 64 1000000|64 127.0.0.1:8080
listen s p w a-b.Example:1 1 1|1 a-b.Example:1
listen s p w h:65535 10 7|10 h:65535
listen s p w 127.0.0.1:8080 0 1|
listen s p w 127.0.0.1:8080 65 1|
listen s p w 127.0.0.1:8080 2 0|
listen s p w 127.0.0.1:8080 2 1000001|
listen s p w 127.0.0.1:8080 02 1|
listen s p w 127.0.0.1:8080 +2 1|
listen s p w 127.0.0.1:8080 2 18446744073709551617|
listen s p w 127.0.0.1:0 2 1|
listen s p w 127.0.0.1:65536 2 1|
listen s p w 127.0.0.1:080 2 1|
listen s p w 127.0.0.1: 2 1|
listen s p w 127.0.0.1 2 1|
listen s p w :8080 2 1|
listen s p w [::1]:8080 2 1|
listen s p w a:b:80 2 1|
listen s p w a_b:80 2 1|
listen s p w 127.0.0.1:8080 2|
listen s p w 127.0.0.1:8080 2 1 1|
listen s p -w 127.0.0.1:8080 2 1|
listen s p  127.0.0.1:8080 2 1|
Listen s p w 127.0.0.1:8080 2 1|
proxy s p 127.0.0.1:8080 2 1|proxy 2 127.0.0.1:8080
proxy s p w 127.0.0.1:8080 2 1|
proxy s p 127.0.0.1:8080 0 1|
proxy s p 127.0.0.1 2 1|
pipe s p w|
show|";

/// A crew as a row tells it.
fn row_of(alloc: Global, crew: Option<Crew>) -> Result<Octets, Fail> {
    let mut row = Octets::new(alloc);
    if let Some(crew) = crew {
        if crew.proxy {
            row.extend(b"proxy ")?;
        }
        row.extend(format!(in alloc; "{} ", crew.workers)?.as_bytes())?;
        row.extend(crew.address.bytes())?;
    }
    Ok(row)
}

#[test]
fn a_crew_is_made_for_words_of_listen_alone(rt: HostRuntime) -> Result<(), Fail> {
    let alloc = rt.alloc();
    for row in CREWS.split('\n') {
        let (text, wanted) = row.split_once('|').unwrap_or((row, "no row"));
        let crew = crew_of(alloc, &words_of(alloc, text)?)?;
        assert_eq!(rt;
            row_of(alloc, crew)?.bytes(),
            wanted.as_bytes(),
            "crew of {text:?}"
        );
    }
    Ok(())
}

/// How `listen` ended: its status, what it told on diag, the workers that came back, and the line of the totals.
#[derive(Drop)]
pub(super) struct Listened<A, F> {
    pub(super) status: u8,
    pub(super) diag: Octets,
    pub(super) workers: Vec<Worker<A, F, MemClock, MemWords>>,
    pub(super) line: Octets,
}

/// A connection on which this comes in.
fn link_with(alloc: Global, input: &[u8]) -> Result<MemLink, Fail>
    ensures { IfOk result IsUnused }
{
    let input = Octets::of(alloc, input)?;
    let (pieces, takes) = (vec![in alloc]?, vec![in alloc]?);
    let (no_read, no_write) = (vec![in alloc]?, vec![in alloc]?);
    Ok(MemLink::new(alloc, input, pieces, takes, no_read, no_write, 99)?)
}

/// One connection, on which this comes in.
pub(super) fn accept_of(alloc: Global, input: &[u8]) -> Result<MemAccept, Fail> {
    let links = vec![in alloc; link_with(alloc, input)?]?;
    let failing = vec![in alloc]?;
    Ok(MemAccept::new(alloc, links, failing)?)
}

/// A worker at moment 0, whose random bytes are all zero.
pub(super) fn worker_of<A: Drop, F: Drop>(
    alloc: Global,
    accept: A,
    files: F,
) -> Result<Worker<A, F, MemClock, MemWords>, Fail> {
    Ok(Worker {
        accept,
        files,
        clock: MemClock::new(vec![in alloc; 0]?),
        random: MemWords::new(vec![in alloc; [0; 16]]?, vec![in alloc]?),
    })
}

/// Listens with these workers on a new table.
pub(super) fn listen_over<
    R: Threads + Wait + Sync,
    A: Accept + Send + Drop,
    F: Files + Send + Drop,
>(
    rt: &R,
    alloc: Global,
    words: &str,
    workers: Vec<Worker<A, F, MemClock, MemWords>>,
) -> Result<Listened<A, F>, Fail>
where
    A::In: Send,
    requires some { 1 ≤ vec_len workers }
    requires few { vec_len workers ≤ 64 }
{
    let mut table = NonceTable::open(alloc, &Sizes::standard())?;
    let passes = table.passes(alloc, workers.len() as u32)?;
    let mut diag = MemSink::new(alloc, vec![in alloc]?, vec![in alloc]?);
    let words = words_of(alloc, words)?;
    let (status, workers, passes) = listen(rt, alloc, &words, &table, workers, passes, &mut diag);
    let Ok(closed) = table.close(passes) else {
        unreachable!()
    };
    Ok(Listened {
        status,
        diag: Octets::of(alloc, diag.written())?,
        workers,
        line: report_line(alloc, &closed)?,
    })
}

/// The words; which call of the first worker's files fails, if one does; the status; what diag is told; the totals.
const ENDS: [(&str, u32, u8, &str, &str); 8] = [
    (
        "listen store spaces www h:80 2 1",
        0,
        0,
        "",
        "calls 2 issued 2 admitted 0 repeated 0",
    ),
    (
        "listen store spaces www h:80 2 2",
        0,
        4,
        "",
        "calls 2 issued 2 admitted 0 repeated 0",
    ),
    (
        "listen store spaces www h:80 3 1",
        0,
        2,
        "usage: authd COMMAND WORDS",
        "calls 0 issued 0 admitted 0 repeated 0",
    ),
    (
        "pipe store spaces www",
        0,
        2,
        "usage: authd COMMAND WORDS",
        "calls 0 issued 0 admitted 0 repeated 0",
    ),
    (
        "listen none spaces www h:80 2 1",
        0,
        3,
        "store absent",
        "calls 0 issued 0 admitted 0 repeated 0",
    ),
    (
        "listen store none www h:80 2 1",
        0,
        3,
        "spaces absent",
        "calls 0 issued 0 admitted 0 repeated 0",
    ),
    (
        "listen store spaces www h:80 2 1",
        1,
        4,
        "",
        "calls 0 issued 0 admitted 0 repeated 0",
    ),
    (
        "listen store spaces www h:80 2 1",
        2,
        4,
        "",
        "calls 0 issued 0 admitted 0 repeated 0",
    ),
];

/// The files of a site.
fn site_files(alloc: Global, failing: u32) -> Result<MemFiles, Fail> {
    let contents = files_of(
        alloc,
        &[(b"store", store_text()), (b"spaces", spaces_text())],
    )?;
    Ok(MemFiles::new(alloc, contents, vec![in alloc; failing]?, vec![in alloc]?))
}

/// Two workers of one connection each, with a request without credentials.
fn two_workers(
    alloc: Global,
    failing: u32,
) -> Result<Vec<Worker<MemAccept, MemFiles, MemClock, MemWords>>, Fail>
    ensures { IfOk result (λ workers. vec_len workers ≡ 2) }
{
    let first = worker_of(
        alloc,
        accept_of(alloc, bare_request())?,
        site_files(alloc, failing)?,
    )?;
    let second = worker_of(
        alloc,
        accept_of(alloc, bare_request())?,
        site_files(alloc, 0)?,
    )?;
    Ok(vec![in alloc; first, second]?)
}

/// A line without its end.
fn line_of(text: &Octets) -> &[u8] {
    text.bytes()
        .strip_suffix(b"\n".as_slice())
        .unwrap_or(text.bytes())
}

#[test]
fn listen_ends_as_its_workers_do(rt: HostRuntime) -> Result<(), Fail> {
    let alloc = rt.alloc();
    for (words, failing, status, diag, line) in &ENDS {
        let ended = listen_over(&rt, alloc, words, two_workers(alloc, *failing)?)?;
        assert_eq!(rt; ended.status, *status, "status of {words:?}");
        assert_eq!(rt; line_of(&ended.diag), diag.as_bytes(), "diag of {words:?}");
        assert_eq!(rt;
            line_of(&ended.line),
            line.as_bytes(),
            "totals of {words:?}"
        );
        assert_eq!(rt; ended.workers.len(), 2, "workers of {words:?}");
    }
    Ok(())
}

/// The one reply of a worker's one connection.
fn reply_of<F>(worker: &Worker<MemAccept, F, MemClock, MemWords>) -> &[u8] {
    match worker.accept.ended() {
        [link] => link.written(),
        _ => b"",
    }
}

#[test]
fn two_connections_are_given_two_nonces_of_one_table(rt: HostRuntime) -> Result<(), Fail> {
    let alloc = rt.alloc();
    let words = "listen store spaces www h:80 2 1";
    let ended = listen_over(&rt, alloc, words, two_workers(alloc, 0)?)?;
    let [first, second] = ended.workers.as_slice() else {
        return Ok(());
    };
    for reply in [reply_of(first), reply_of(second)] {
        assert!(rt; reply.starts_with(b"HTTP/1.1 401 Unauthorized\r\n"));
    }
    assert_ne!(rt; reply_of(first), reply_of(second));
    Ok(())
}
