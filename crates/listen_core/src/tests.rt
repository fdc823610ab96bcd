//! Two workers, over connections in memory that meet faults, and over real ones.
mod shared;

ghost use Rattle.std.specs.Prelude.{IfOk, All};
ghost use Rattle.auth_io.specs.Memory.{IsUnused};

use crate::{Worker, serve_workers};
use auth_decide::Site;
use auth_grammar::Octets;
use auth_io::{
    DiskFiles, MemAccept, MemClock, MemFiles, MemLink, MemWords, OsWords, SystemClock, TcpAccept,
};
use cred_store::Store;
use nonce_shard::{JournalTable, Sizes};
use spaces_map::Spaces;
use std::alloc::Global;
use std::io::{Read, Write};
use std::net::{Shutdown, TcpListener, TcpStream};
use std::process::Abort;
use std::test::Fail;
use std::thread::Threads;
use worker_loop::Finish;

type MemWorker = Worker<MemAccept, MemFiles, MemClock, MemWords>;

/// Where a fault comes.
const ACCEPT: u32 = 1;

const READ: u32 = 2;

const WRITE: u32 = 3;

const DRAW: u32 = 4;

/// A request of 51 bytes comes in three reads of at most 20, and a fourth finds the end. Its answer is a challenge of
/// 232 bytes, which goes in three writes of at most 100. The nonce is that of a table of one shard, drawn with zeros;
/// its number changes one letter of the text alone: A, E and I of 65, 69 and 73 are those of the numbers 0, 1 and 2.
const NUMBER_PLACE: usize = 141;

/// Where the fault comes and at which call; the rank of the end; the lengths of the three answers of the first worker,
/// and whether a call of its second connection failed; the letter of the last challenge that was written whole.
const ROWS: [[u32; 8]; 13] = [
    [ACCEPT, 1, 3, 0, 0, 0, 0, 0],
    [ACCEPT, 2, 3, 232, 0, 0, 0, 65],
    [ACCEPT, 3, 3, 232, 232, 0, 0, 69],
    [ACCEPT, 4, 0, 232, 232, 232, 0, 73],
    [READ, 1, 0, 232, 0, 232, 1, 69],
    [READ, 3, 0, 232, 0, 232, 1, 69],
    [READ, 4, 0, 232, 232, 232, 1, 73],
    [WRITE, 1, 0, 232, 0, 232, 1, 73],
    [WRITE, 2, 0, 232, 100, 232, 1, 73],
    [WRITE, 3, 0, 232, 200, 232, 1, 73],
    [DRAW, 1, 0, 0, 232, 232, 0, 69],
    [DRAW, 2, 0, 232, 0, 232, 0, 69],
    [DRAW, 3, 0, 232, 232, 0, 0, 69],
];

fn request() -> &'static [u8] {
    b"GET /dir/index.html HTTP/1.1\r\nHost: example.org\r\n\r\n"
}

fn site_of(alloc: Global) -> Result<Site, Fail> {
    Ok(Site {
        store: Store::read(alloc, b"authstore 1\n")?,
        spaces: Spaces::read(
            alloc,
            b"authspaces 1\n/ required SHA-256 http-auth@example.org\n",
        )?,
        root: Octets::of(alloc, b"www")?,
    })
}

/// The number of the call that fails, if one is to.
fn failing(alloc: Global, fails: bool, call: u32) -> Result<Vec<u32>, Fail> {
    let mut numbers = Vec::new(alloc);
    if fails {
        numbers.push(call)?;
    }
    Ok(numbers)
}

/// A connection with one request, with a fault at this call.
fn link_of(alloc: Global, fault: u32, call: u32) -> Result<MemLink, Fail>
    ensures { IfOk result IsUnused }
{
    let input = Octets::of(alloc, request())?;
    let pieces = vec![in alloc; 20, 20, 20, 20]?;
    let takes = vec![in alloc; 100, 100, 100]?;
    let failing_reads = failing(alloc, fault == READ, call)?;
    let failing_writes = failing(alloc, fault == WRITE, call)?;
    Ok(MemLink::new(
        alloc,
        input,
        pieces,
        takes,
        failing_reads,
        failing_writes,
        9,
    )?)
}

/// A worker of three connections, of which the second meets the fault of a link.
fn worker_of(alloc: Global, fault: u32, call: u32) -> Result<MemWorker, Fail> {
    let links = vec![in alloc;
        link_of(alloc, 0, 0)?,
        link_of(alloc, fault, call)?,
        link_of(alloc, 0, 0)?,
    ]?;
    let no_file = vec![in alloc]?;
    let none = vec![in alloc]?;
    let none_done = vec![in alloc]?;
    let zeros = vec![in alloc; [0; 16]]?;
    Ok(Worker {
        accept: MemAccept::new(alloc, links, failing(alloc, fault == ACCEPT, call)?)?,
        files: MemFiles::new(alloc, no_file, none, none_done),
        clock: MemClock::new(vec![in alloc; 0]?),
        random: MemWords::new(zeros, failing(alloc, fault == DRAW, call)?),
    })
}

/// The connections of a worker that came back wrote so many bytes each. The letter of the last whole challenge.
fn check_written(rt: &impl Abort, worker: &MemWorker, lengths: &[u32]) -> u32 {
    let mut letter = 0;
    for (link, length) in worker.accept.ended().iter().zip(lengths) {
        let text = link.written();
        assert_eq!(rt; text.len(), *length as usize);
        if text.len() == 232 {
            letter = u32::from(text[NUMBER_PLACE]);
        }
    }
    letter
}

fn check_row<R: Threads + Sync + Abort>(rt: &R, alloc: Global, row: &[u32; 8]) -> Result<(), Fail> {
    let first = worker_of(alloc, row[0], row[1])?;
    let second = worker_of(alloc, 0, 0)?;
    let workers = vec![in alloc; first, second]?;
    let first_table = JournalTable::open(alloc, 9, &Sizes::single())?;
    let second_table = JournalTable::open(alloc, 9, &Sizes::single())?;
    let seats = vec![in alloc; first_table, second_table]?;
    let (finish, workers, _) = serve_workers(rt, alloc, workers, seats, &site_of(alloc)?, 3);
    assert_eq!(rt;
        finish.map(|finish| u32::from(finish.rank())).ok(),
        Some(row[2])
    );
    assert_eq!(rt; workers.len(), 2);
    assert_eq!(rt; check_written(rt, &workers[0], &row[3..6]), row[7]);
    assert_eq!(rt; check_written(rt, &workers[1], &[232, 232, 232]), 73);
    if let Some(link) = workers[0].accept.ended().get(1) {
        assert_eq!(rt; u32::from(link.has_failed()), row[6]);
    }
    Ok(())
}

// What the second worker answers, and what the first one answers on its other connections, is as ever.
#[test]
fn a_worker_goes_on_after_a_fault_and_the_others_meet_none(rt: HostRuntime) -> Result<(), Fail> {
    for row in &ROWS {
        check_row(&rt, rt.alloc(), row)?;
    }
    Ok(())
}

/// A client that has sent its request, and nothing more.
fn asked(rt: &HostRuntime, listener: &TcpListener) -> Result<TcpStream, Fail> {
    let mut client = TcpStream::connect(rt, listener.local_addr()?)?;
    client.write_all(request())?;
    client.shutdown(Shutdown::Write)?;
    Ok(client)
}

/// Whether all that comes back is a challenge.
fn is_challenged(alloc: Global, mut client: TcpStream) -> Result<bool, Fail> {
    let mut reply = Vec::new(alloc);
    client.read_to_end(&mut reply)?;
    Ok(
        reply
            .as_slice()
            .starts_with(b"HTTP/1.1 401 Unauthorized\r\n"),
    )
}

#[test]
fn two_workers_answer_two_clients_over_one_listening_socket(rt: HostRuntime) -> Result<(), Fail> {
    let alloc = rt.alloc();
    let listener = TcpListener::bind(&rt, "127.0.0.1:0")?;
    let first = asked(&rt, &listener)?;
    let second = asked(&rt, &listener)?;
    let mut workers = Vec::new(alloc);
    let mut seats = Vec::new(alloc);
    for _ in 0..2 {
        workers.push(Worker {
            accept: TcpAccept::new(&listener),
            files: DiskFiles::new(&rt, alloc),
            clock: SystemClock::new(&rt),
            random: OsWords::new(&rt),
        })?;
        seats.push(JournalTable::open(alloc, 9, &Sizes::single())?)?;
    }
    assert_eq!(rt; (workers.len(), seats.len()), (2, 2));
    let (finish, _, _) = serve_workers(&rt, alloc, workers, seats, &site_of(alloc)?, 1);
    assert_eq!(rt; finish, Ok(Finish::Well));
    assert!(rt; is_challenged(alloc, first)?);
    assert!(rt; is_challenged(alloc, second)?);
    Ok(())
}
