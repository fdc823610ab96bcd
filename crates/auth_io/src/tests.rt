//! What no clause says: which calls the forms in memory fail, and that the adapters reach the real things.
use crate::{
    Accept, Clock, Dial, DialFault, DiskFiles, FileAnswer, Files, Link, MemClock, MemDial,
    MemFiles, MemLink, MemWords, OsWords, Replaced, StdLink, SureLink, SureWords, SystemClock,
    TcpAccept, TcpDial, TcpLink, Words, Wrote,
};
use auth_grammar::Octets;
use std::alloc::Global;
use std::net::{TcpListener, TcpStream};
use std::process::Abort;
use std::test::Fail;

/// One read of up to 8 bytes gives these, or fails where they are None.
fn check_gives<L: Link>(rt: &impl Abort, link: &mut L, wanted: Option<&[u8]>) {
    let mut into = [0; 8];
    match link.read(&mut into) {
        Ok(count) => assert_eq!(rt; Some(&into[..count]), wanted),
        Err(_) => assert!(rt; wanted.is_none()),
    }
}

#[test]
fn a_link_in_memory_gives_pieces_and_fails_when_told(rt: HostRuntime) -> Result<(), Fail> {
    let alloc = rt.alloc();
    let left = Octets::of(alloc, b"abcdef")?;
    let pieces = vec![in alloc; 2, 0]?;
    let takes = vec![in alloc; 1]?;
    let mut link = MemLink::new(
        alloc,
        left,
        pieces,
        takes,
        vec![in alloc; 3]?,
        vec![in alloc; 2]?,
        3,
    )?;
    check_gives(&rt, &mut link, Some(b"ab".as_slice()));
    assert_eq!(rt; link.write(b"xy"), Wrote::Taken(1));
    check_gives(&rt, &mut link, Some(b"c".as_slice()));
    // the third read fails
    check_gives(&rt, &mut link, None);
    assert_eq!(rt; link.write(b"y"), Wrote::Failed);
    check_gives(&rt, &mut link, Some(b"def".as_slice()));
    // there is room for three reads
    check_gives(&rt, &mut link, None);
    assert_eq!(rt; link.written(), b"x".as_slice());
    assert_eq!(rt; link.reads(), [(0, 0), (2, 1), (3, 1)].as_slice());
    Ok(())
}

#[test]
fn a_clock_and_words_in_memory_end_with_their_last(rt: HostRuntime) -> Result<(), Fail> {
    let alloc = rt.alloc();
    let mut clock = MemClock::new(vec![in alloc; 5, 3]?);
    assert_eq!(rt; (clock.now(), clock.now(), clock.now()), (5, 3, 3));
    let mut random = MemWords::new(vec![in alloc; [1; 16], [2; 16]]?, vec![in alloc; 2]?);
    assert_eq!(rt; random.draw().ok(), Some([1; 16]));
    assert_eq!(rt; random.draw().ok(), None);
    assert_eq!(rt; random.draw().ok(), Some([2; 16]));
    assert_eq!(rt; random.draw().ok(), Some([2; 16]));
    assert_eq!(rt; MemClock::new(vec![in alloc]?).now(), 0);
    Ok(())
}

#[test]
fn a_link_and_words_that_never_fail_end_with_their_last(rt: HostRuntime) -> Result<(), Fail> {
    let alloc = rt.alloc();
    let left = Octets::of(alloc, b"abc")?;
    let mut link = SureLink::new(alloc, left, vec![in alloc; 2]?, vec![in alloc; 1]?);
    check_gives(&rt, &mut link, Some(b"ab".as_slice()));
    assert_eq!(rt; link.write(b"xy"), Wrote::Taken(1));
    check_gives(&rt, &mut link, Some(b"c".as_slice()));
    check_gives(&rt, &mut link, Some(b"".as_slice()));
    assert_eq!(rt; link.written(), b"x".as_slice());
    let mut random = SureWords::new(vec![in alloc; [1; 16], [2; 16]]?);
    assert_eq!(rt; random.draw().ok(), Some([1; 16]));
    assert_eq!(rt; random.draw().ok(), Some([2; 16]));
    assert_eq!(rt; random.draw().ok(), Some([2; 16]));
    Ok(())
}

/// A word for what a read answered.
fn word_of(answer: &FileAnswer) -> &'static str {
    match answer {
        FileAnswer::Found(bytes) if bytes.bytes() == b"new".as_slice() => "new",
        FileAnswer::Found(_) => "other",
        FileAnswer::Absent => "absent",
        FileAnswer::TooLarge => "too large",
        FileAnswer::Failed => "failed",
        FileAnswer::OutOfMemory => "out of memory",
    }
}

fn check_read<F: Files>(rt: &impl Abort, files: &mut F, name: &[u8], limit: u64, word: &str) {
    let answer = files.read(name, limit);
    assert_eq!(rt; word_of(&answer), word);
}

#[test]
fn files_in_memory_fail_before_and_after_they_are_replaced(rt: HostRuntime) -> Result<(), Fail> {
    let alloc = rt.alloc();
    let mut files = MemFiles::new(
        alloc,
        vec![in alloc]?,
        vec![in alloc; 2]?,
        vec![in alloc; 4]?,
    );
    check_read(&rt, &mut files, b"a", 9, "absent");
    assert_eq!(rt; files.replace(b"a", b"new"), Replaced::Failed);
    check_read(&rt, &mut files, b"a", 9, "absent");
    assert_eq!(rt; files.replace(b"a", b"new"), Replaced::Failed);
    check_read(&rt, &mut files, b"a", 3, "new");
    check_read(&rt, &mut files, b"a", 2, "too large");
    assert_eq!(rt; files.replace(b"a", b"old"), Replaced::Done);
    check_read(&rt, &mut files, b"a", 9, "other");
    Ok(())
}

#[test]
fn files_on_disk_are_read_and_replaced(rt: HostRuntime) -> Result<(), Fail> {
    let mut files = DiskFiles::new(&rt, rt.alloc());
    check_read(&rt, &mut files, b"file", 9, "absent");
    assert_eq!(rt; files.replace(b"file", b"old"), Replaced::Done);
    assert_eq!(rt; files.replace(b"file", b"new"), Replaced::Done);
    check_read(&rt, &mut files, b"file", 3, "new");
    check_read(&rt, &mut files, b"file", 2, "too large");
    check_read(&rt, &mut files, b"file/below", 9, "absent");
    check_read(&rt, &mut files, b".", 9, "absent");
    check_read(&rt, &mut files, b"a\0b", 9, "absent");
    assert_eq!(rt; files.replace(b"no/folder", b"new"), Replaced::Failed);
    Ok(())
}

/// A file of so many bytes is read as it was written, where the limit allows it.
fn check_whole<F: Files>(
    rt: &impl Abort,
    alloc: Global,
    files: &mut F,
    len: usize,
) -> Result<(), Fail> {
    let mut bytes = Vec::new(alloc);
    for at in 0..len {
        bytes.push((at % 251) as u8)?;
    }
    assert_eq!(rt; files.replace(b"whole", bytes.as_slice()), Replaced::Done);
    match files.read(b"whole", len as u64) {
        FileAnswer::Found(found) => assert_eq!(rt; found.bytes(), bytes.as_slice()),
        _ => panic!(rt; "the file isn't read"),
    }
    check_read(
        rt,
        files,
        b"whole",
        (len as u64).saturating_sub(1),
        "too large",
    );
    Ok(())
}

#[test]
fn short_and_long_files_on_disk_are_read_whole(rt: HostRuntime) -> Result<(), Fail> {
    let mut files = DiskFiles::new(&rt, rt.alloc());
    for len in [511, 512, 513, 5_000] {
        check_whole(&rt, rt.alloc(), &mut files, len)?;
    }
    Ok(())
}

#[test]
fn a_link_over_std_reads_and_writes(rt: HostRuntime) -> Result<(), Fail> {
    let alloc = rt.alloc();
    let mut link = StdLink::new(b"ab".as_slice(), Vec::new(alloc));
    check_gives(&rt, &mut link, Some(b"ab".as_slice()));
    check_gives(&rt, &mut link, Some(b"".as_slice()));
    assert_eq!(rt; Link::write(&mut link, b"xyz"), Wrote::Taken(3));
    Ok(())
}

#[test]
fn the_clock_shows_a_moment_of_this_century(rt: HostRuntime) {
    let mut clock = SystemClock::new(&rt);
    assert!(rt; clock.now() > 1_700_000_000);
}

#[test]
fn two_draws_of_the_system_differ(rt: HostRuntime) {
    let mut random = OsWords::new(&rt);
    let first = random.draw().ok();
    assert!(rt; first.is_some());
    assert!(rt; first != random.draw().ok());
}

/// The next connection gives these bytes first, takes a reply, and is closed with the rest of its input unread.
fn check_serves<A: Accept>(rt: &impl Abort, accept: &mut A, wanted: &[u8], reply: &[u8]) {
    let Ok(mut link) = accept.accept() else {
        panic!(rt; "no connection");
    };
    check_gives(rt, &mut link, Some(wanted));
    assert_eq!(rt; link.write(reply), Wrote::Taken(reply.len()));
    accept.done(link);
}

#[test]
fn connections_over_tcp_end_with_their_reply_though_input_is_left(
    rt: HostRuntime,
) -> Result<(), Fail> {
    let listener = TcpListener::bind(&rt, "127.0.0.1:0")?;
    let address = listener.local_addr()?;
    let mut first = TcpLink::new(TcpStream::connect(&rt, address)?)?;
    let mut second = TcpLink::new(TcpStream::connect(&rt, address)?)?;
    assert_eq!(rt; first.write(b"abcdefgh and more"), Wrote::Taken(17));
    assert_eq!(rt; second.write(b"12345678 and more"), Wrote::Taken(17));
    // two workers share the listening socket
    check_serves(&rt, &mut TcpAccept::new(&listener), b"abcdefgh", b"xyz");
    check_serves(&rt, &mut TcpAccept::new(&listener), b"12345678", b"uvw");
    check_gives(&rt, &mut first, Some(b"xyz"));
    check_gives(&rt, &mut first, Some(b""));
    check_gives(&rt, &mut second, Some(b"uvw"));
    check_gives(&rt, &mut second, Some(b""));
    first.close();
    second.close();
    Ok(())
}

/// One dial fails or connects, and then a connection gives these bytes first and takes a reply.
fn check_dials<D: Dial>(rt: &impl Abort, dial: &mut D, authority: &[u8], wanted: Option<&[u8]>) {
    match dial.dial(authority) {
        Ok(mut link) => {
            assert_eq!(rt; link.write(b"xyz"), Wrote::Taken(3));
            check_gives(rt, &mut link, wanted);
            dial.done(link);
        }
        Err(fault) => {
            assert_eq!(rt; fault, DialFault::Failed);
            assert!(rt; wanted.is_none());
        }
    }
}

#[test]
fn dials_in_memory_connect_in_order_and_fail_when_told(rt: HostRuntime) -> Result<(), Fail> {
    let alloc = rt.alloc();
    let left = Octets::of(alloc, b"abc")?;
    let link = MemLink::new(
        alloc,
        left,
        Vec::new(alloc),
        Vec::new(alloc),
        Vec::new(alloc),
        Vec::new(alloc),
        4,
    )?;
    let mut dial = MemDial::new(alloc, vec![in alloc; link]?, vec![in alloc; 1]?)?;
    check_dials(&rt, &mut dial, b"a", None);
    check_dials(&rt, &mut dial, b"b:8080", Some(b"abc"));
    // no connection is left
    check_dials(&rt, &mut dial, b"c", None);
    let told: [(&[u8], bool); 3] = [(b"a", true), (b"b:8080", false), (b"c", true)];
    for ((authority, failed), (wanted, fails)) in dial.dialled().iter().zip(told) {
        assert_eq!(rt; authority.bytes(), wanted);
        assert_eq!(rt; *failed, fails);
    }
    assert_eq!(rt; (dial.dialled().len(), dial.ended().len()), (3, 1));
    Ok(())
}

#[test]
fn dials_over_tcp_reach_a_listening_socket_and_nobody_else(rt: HostRuntime) -> Result<(), Fail> {
    let alloc = rt.alloc();
    let listener = TcpListener::bind(&rt, "127.0.0.1:0")?;
    let authority = format!(in alloc; "127.0.0.1:{}", listener.local_addr()?.port())?;
    let mut dial = TcpDial::new(&rt);
    let Ok(mut link) = dial.dial(authority.as_bytes()) else {
        panic!(rt; "no connection");
    };
    assert_eq!(rt; link.write(b"abcdefgh"), Wrote::Taken(8));
    check_serves(&rt, &mut TcpAccept::new(&listener), b"abcdefgh", b"xyz");
    check_gives(&rt, &mut link, Some(b"xyz"));
    dial.done(link);
    check_dials(&rt, &mut dial, b"127.0.0.1:70000", None);
    check_dials(&rt, &mut dial, b"\xFF", None);
    Ok(())
}
