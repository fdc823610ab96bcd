//! `proxy`: how it ends, and which sites are none for it.
use super::listen::accept_of;
use super::pipe::{files_of, store_text};
use super::words_of;
use crate::proxying::proxy;
use crate::report::report_line;
use auth_io::{MemAccept, MemClock, MemDial, MemFiles, MemSink, MemWords};
use nonce_shard::Sizes;
use nonce_table::NonceTable;
use proxy_listen::ProxyWorker;
use std::alloc::Global;
use std::process::Abort;
use std::sync::Wait;
use std::test::Fail;
use std::thread::Threads;

type MemWorker = ProxyWorker<MemAccept, MemDial, MemFiles, MemClock, MemWords>;

/// The words; the spaces; the status; what diag is told; the totals.
const ENDS: [(&str, &str, u8, &str, &str); 6] = [
    (
        "proxy store spaces h:80 1 1",
        "authspaces 1\n/ required SHA-256 r\n",
        0,
        "",
        "calls 1 issued 1 admitted 0 repeated 0\n",
    ),
    (
        "proxy store spaces h:80 1 1",
        "authspaces 1\n/ optional SHA-256 r\n",
        3,
        "not for a proxy\n",
        "calls 0 issued 0 admitted 0 repeated 0\n",
    ),
    (
        "proxy store spaces h:80 1 1",
        "authspaces 1\n/a required SHA-256 r\n",
        3,
        "not for a proxy\n",
        "calls 0 issued 0 admitted 0 repeated 0\n",
    ),
    (
        "proxy none spaces h:80 1 1",
        "authspaces 1\n/ required SHA-256 r\n",
        3,
        "store absent\n",
        "calls 0 issued 0 admitted 0 repeated 0\n",
    ),
    (
        "proxy store spaces h:80 2 1",
        "authspaces 1\n/ required SHA-256 r\n",
        2,
        "usage: authd COMMAND WORDS\n",
        "calls 0 issued 0 admitted 0 repeated 0\n",
    ),
    (
        "listen store spaces www h:80 1 1",
        "authspaces 1\n/ required SHA-256 r\n",
        2,
        "usage: authd COMMAND WORDS\n",
        "calls 0 issued 0 admitted 0 repeated 0\n",
    ),
];

/// A worker of one connection, with a request without credentials, whose dials all fail.
fn worker_of(alloc: Global, spaces: &[u8]) -> Result<MemWorker, Fail> {
    let contents = files_of(alloc, &[(b"store", store_text()), (b"spaces", spaces)])?;
    let request = b"GET http://example.org/ HTTP/1.1\r\nHost: example.org\r\n\r\n";
    Ok(ProxyWorker {
        accept: accept_of(alloc, request)?,
        dial: MemDial::new(alloc, Vec::new(alloc), vec![in alloc]?)?,
        files: MemFiles::new(alloc, contents, vec![in alloc]?, vec![in alloc]?),
        clock: MemClock::new(vec![in alloc; 0]?),
        random: MemWords::new(vec![in alloc; [0; 16]]?, vec![in alloc]?),
    })
}

/// Checks how one worker ends with these words.
fn check<R: Threads + Wait + Sync + Abort>(
    rt: &R,
    alloc: Global,
    row: &(&str, &str, u8, &str, &str),
) -> Result<(), Fail> {
    let (words, spaces, wanted, told, line) = row;
    let mut table = NonceTable::open(alloc, &Sizes::standard())?;
    let passes = table.passes(alloc, 1)?;
    let workers = vec![in alloc; worker_of(alloc, spaces.as_bytes())?]?;
    let mut diag = MemSink::new(alloc, vec![in alloc]?, vec![in alloc]?);
    let listed = words_of(alloc, words)?;
    let (status, workers, passes) = proxy(rt, alloc, &listed, &table, workers, passes, &mut diag);
    let Ok(closed) = table.close(passes) else {
        unreachable!()
    };
    assert_eq!(rt; status, *wanted, "status of {words:?}");
    assert_eq!(rt; diag.written(), told.as_bytes(), "diag of {words:?}");
    let totals = report_line(alloc, &closed)?;
    assert_eq!(rt; totals.bytes(), line.as_bytes(), "totals of {words:?}");
    assert_eq!(rt; workers.len(), 1, "workers of {words:?}");
    Ok(())
}

#[test]
fn proxy_ends_as_its_workers_do(rt: HostRuntime) -> Result<(), Fail> {
    for row in &ENDS {
        check(&rt, rt.alloc(), row)?;
    }
    Ok(())
}
