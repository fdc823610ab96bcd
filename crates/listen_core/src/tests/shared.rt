//! Two workers on one table of nonces, over connections in memory.
ghost use Rattle.std.specs.Prelude.{◌<◌, IfOk};
ghost use Rattle.auth_io.specs.Memory.{IsUnused};

use super::MemWorker;
use crate::{Worker, serve_shared};
use auth_decide::Site;
use auth_grammar::Octets;
use auth_io::{MemAccept, MemClock, MemFiles, MemLink, MemWords};
use cred_store::Store;
use nonce_shard::Sizes;
use nonce_table::{Closed, NonceTable};
use spaces_map::Spaces;
use std::alloc::Global;
use std::process::Abort;
use std::test::Fail;
use worker_loop::Finish;

/// The use of count 1 of the first nonce of a table of one shard, drawn with zeros. The response is that of sha256sum.
const RIGHT: &[u8] =
    b"GET /dir/index.html HTTP/1.1\r\nHost: example.org\r\nAuthorization: Digest username=\"Mufasa\", realm=\"http-auth@example.org\", uri=\"/dir/index.html\", algorithm=SHA-256, nonce=\"AQAAAAAAAAAAAAAAAAAAAAAAAAAAAAAAAAAA\", nc=00000001, cnonce=\"0a4f113b\", qop=auth, response=\"dd3586817418902404d6fed504c4bf69643a5f5b062cbf0c0fd0571a09a5bbc5\"\r\n\r\n";

/// The length of a challenge, and of one that says that the nonce was stale.
const CHALLENGE: usize = 232;

const STALE: usize = 244;

fn site_of(alloc: Global) -> Result<Site, Fail> {
    Ok(Site {
        store: Store::read(
            alloc,
            b"authstore 1\nMufasa:http-auth@example.org:sha-256:7987c64c30e25f1b74be53f966b49b90f2808aa92faf9a00262392d7b4794232\n",
        )?,
        spaces: Spaces::read(
            alloc,
            b"authspaces 1\n/ required SHA-256 http-auth@example.org\n",
        )?,
        root: Octets::of(alloc, b"www")?,
    })
}

fn link_of(alloc: Global, input: &[u8]) -> Result<MemLink, Fail>
    ensures { IfOk result IsUnused }
{
    let input = Octets::of(alloc, input)?;
    let pieces = vec![in alloc; 2000]?;
    let takes = vec![in alloc; 2000]?;
    let none = vec![in alloc]?;
    let none_too = vec![in alloc]?;
    Ok(MemLink::new(alloc, input, pieces, takes, none, none_too, 9)?)
}

/// A worker of three connections, of which the first brings no credentials.
fn worker_of(alloc: Global) -> Result<MemWorker, Fail> {
    let links = vec![in alloc;
        link_of(alloc, super::request())?,
        link_of(alloc, RIGHT)?,
        link_of(alloc, RIGHT)?,
    ]?;
    let name = Octets::of(alloc, b"www/dir/index.html")?;
    let files = vec![in alloc; (name, Octets::of(alloc, b"hello\n")?)]?;
    let none = vec![in alloc]?;
    let none_done = vec![in alloc]?;
    let none_failing = vec![in alloc]?;
    Ok(Worker {
        accept: MemAccept::new(alloc, links, vec![in alloc]?)?,
        files: MemFiles::new(alloc, files, none, none_done),
        clock: MemClock::new(vec![in alloc; 0]?),
        random: MemWords::new(vec![in alloc; [0; 16]]?, none_failing),
    })
}

/// What was written: the file, a challenge, one that says that the nonce was stale, or something else.
fn place_of(text: &[u8]) -> usize
    ensures { result < 4 }
{
    if text.starts_with(b"HTTP/1.1 200 OK\r\n") && text.ends_with(b"\r\n\r\nhello\n") {
        return 0;
    }
    match text.len() {
        CHALLENGE => 1,
        STALE => 2,
        _ => 3,
    }
}

/// Counts the connections of a worker that came back by what was written on them.
fn count_replies(worker: &MemWorker, counts: &mut [u32; 4]) {
    for link in worker.accept.ended() {
        let place = place_of(link.written());
        counts[place] = counts[place].saturating_add(1);
    }
}

// Each worker's first connection has a challenge, so the first nonce is there when it is used. It is used four times
// with one count.
#[test]
fn one_use_is_admitted_whatever_worker_it_comes_to(rt: HostRuntime) -> Result<(), Fail> {
    let alloc = rt.alloc();
    let mut table = NonceTable::open(alloc, &Sizes::single())?;
    let passes = table.passes(alloc, 2)?;
    let workers = vec![in alloc; worker_of(alloc)?, worker_of(alloc)?]?;
    let (finish, workers, passes) = serve_shared(
        &rt,
        alloc,
        &table,
        workers,
        passes,
        &site_of(alloc)?,
        3,
    );
    assert_eq!(rt; finish, Ok(Finish::Well));
    let mut counts = [0; 4];
    for worker in &workers {
        count_replies(worker, &mut counts);
    }
    assert_eq!(rt; counts, [1, 2, 3, 0]);
    let wanted = Closed {
        calls: 9,
        issued: 5,
        admitted: 1,
        repeated: 3,
    };
    assert_eq!(rt; table.close(passes).ok(), Some(wanted));
    Ok(())
}
