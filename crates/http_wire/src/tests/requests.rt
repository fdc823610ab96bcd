//! Requests with what they are by RFC 9112, each read whole, in two pieces at every place, and byte by byte.
use super::repeated;
use crate::{Next, Request, RequestFeed};
use auth_grammar::Octets;
use std::alloc::Global;
use std::fmt::Write;
use std::process::Abort;
use std::test::Fail;

/// What a feed gives, as words.
#[derive(Drop)]
struct Told {
    feed: RequestFeed,
    words: String,
    bad: bool,
}

fn start(alloc: Global) -> Told {
    Told {
        feed: RequestFeed::new(alloc),
        words: String::new(alloc),
        bad: false,
    }
}

/// Takes what a piece brings, up to a bad message.
fn add(told: &mut Told, piece: &[u8]) -> Result<(), Fail> {
    if !told.feed.has_room(piece.len()) {
        return Err("room")?;
    }
    told.feed.push(piece)?;
    for _ in 0..9 {
        if told.bad {
            return Ok(());
        }
        match told.feed.next() {
            Next::Message(request) if request.closes => told.words.push_str(" close")?,
            Next::Message(_) => told.words.push_str(" message")?,
            Next::Continue => told.words.push_str(" continue")?,
            Next::Bad { status, at } => {
                write!(told.words, " bad {status} at {at}")?;
                told.bad = true;
            }
            Next::NeedMore => return Ok(()),
            Next::OutOfMemory => return Err("memory")?,
        }
    }
    Ok(())
}

fn finish(told: Told) -> Result<String, Fail> {
    let Told {
        feed,
        mut words,
        bad,
    } = told;
    if let (Some(at), false) = (feed.rest(), bad) {
        write!(words, " rest {at}")?;
    }
    Ok(words)
}

fn read_cut(alloc: Global, front: &[u8], back: &[u8]) -> Result<String, Fail> {
    let mut told = start(alloc);
    add(&mut told, front)?;
    add(&mut told, back)?;
    finish(told)
}

fn read_bytes(alloc: Global, text: &[u8]) -> Result<String, Fail> {
    let mut told = start(alloc);
    for b in text {
        add(&mut told, &[*b])?;
    }
    finish(told)
}

/// A row is a text and what it is, each ended by a NUL.
const WHOLE_OR_UNFINISHED: &[u8] = b"\
    GET / HTTP/1.1\r\nHost: a\r\n\r\n\0message\0\
    GET / HTTP/1.1\nHost:\n\n\0message\0\
    \r\n\n\r\nGET / HTTP/1.1\r\nHost: a\r\n\r\n\r\n\0message\0\
    GET / HTTP/1.0\r\n\r\n\0close\0\
    GET / HTTP/1.1\r\nHost: a\r\nConnection: x ,\tCLOSE\r\n\r\n\0close\0\
    GET / HTTP/1.1\r\nHost: a\r\nConnection: closed\r\n\r\n\0message\0\
    PUT /a HTTP/1.1\r\nHost: a\r\nContent-Length: 003\r\n\r\nabcGET / HTTP/1.1\r\nHost: a\r\n\r\n\0message message\0\
    PUT /a HTTP/1.1\r\nHost: a\r\nContent-Length: 3\r\n\r\nab\0rest 0\0\
    GET / HTTP/1.1\r\nHost: a\r\n\r\nPUT /a HTTP/1.1\r\nHost: a\r\nContent-Length: 3\r\n\r\nab\0message rest 27\0\
    \r\n\r\n\0\0\
    \r\n\r\0rest 0\0\
    GET / HTTP/1.1\r\nHost\0rest 0\0\
    PUT /a HTTP/1.1\r\nHost: a\r\nExpect: 100-Continue\r\nContent-Length: 3\r\n\r\nab\0continue rest 0\0\
    PUT /a HTTP/1.1\r\nHost: a\r\nExpect: 100-continue\r\nContent-Length: 3\r\n\r\nabc\0continue message\0\
    PUT /a HTTP/1.1\r\nHost: a\r\nExpect: 100-continue\r\n\r\n\0message\0\
    PUT /a HTTP/1.0\r\nExpect: 100-continue\r\nContent-Length: 3\r\n\r\nabc\0close\0\
    PUT / HTTP/1.1\r\nHost: a\r\nContent-Length: 1048576\r\n\r\n\0rest 0\0\
";

const REFUSED: &[u8] = b"\
    GET / HTTP/1.1\r\n\r\n\0bad 400 at 0\0\
    GET / HTTP/1.1\r\nHost: a\r\nhost: a\r\n\r\n\0bad 400 at 0\0\
    GET / HTTP/1.0\r\nHost: a\r\nHost: a\r\n\r\n\0bad 400 at 0\0\
    GET / HTTP/1.1\r\nHost: a\r\n\r\n\r\nGET / HTTP/1.1\r\n\r\n\0message bad 400 at 27\0\
    GET / HTTP/1.1\r\nHost : a\r\n\r\n\0bad 400 at 0\0\
    GET / HTTP/1.1\r\nHost: a\r\n b\r\n\r\n\0bad 400 at 0\0\
    GET  / HTTP/1.1\r\nHost: a\r\n\r\n\0bad 400 at 0\0\
    GET / HTTP/1.2\r\nHost: a\r\n\r\n\0bad 400 at 0\0\
    GET /\r\n\r\n\0bad 400 at 0\0\
    PUT / HTTP/1.1\r\nHost: a\r\nTransfer-Encoding: chunked\r\n\r\n\0bad 411 at 0\0\
    PUT / HTTP/1.1\r\nTransfer-Encoding: chunked\r\n\r\n\0bad 400 at 0\0\
    PUT / HTTP/1.1\r\nHost: a\r\nTransfer-Encoding:\r\nContent-Length: x\r\n\r\n\0bad 411 at 0\0\
    PUT / HTTP/1.1\r\nHost: a\r\nContent-Length:\r\n\r\n\0bad 400 at 0\0\
    PUT / HTTP/1.1\r\nHost: a\r\nContent-Length: +3\r\n\r\n\0bad 400 at 0\0\
    PUT / HTTP/1.1\r\nHost: a\r\nContent-Length: 3\r\nContent-Length: 3\r\n\r\n\0bad 400 at 0\0\
    PUT / HTTP/1.1\r\nHost: a\r\nContent-Length: 1048577\r\n\r\n\0bad 413 at 0\0\
    PUT / HTTP/1.1\r\nHost: a\r\nContent-Length: 99999999999999999999\r\nExpect: x\r\n\r\n\0bad 413 at 0\0\
    PUT / HTTP/1.1\r\nHost: a\r\nExpect: 100-continued\r\n\r\n\0bad 417 at 0\0\
    PUT / HTTP/1.1\r\nHost: a\r\nExpect: 100-continue\r\nExpect:\r\n\r\n\0bad 417 at 0\0\
";

/// Reads a text whole, in two pieces at every place, and byte by byte.
fn read_row(rt: &impl Abort, alloc: Global, text: &[u8], want: &[u8]) -> Result<(), Fail> {
    for at in 0..=text.len() {
        let words = read_cut(alloc, &text[..at], &text[at..])?;
        assert_eq!(rt; words.trim().as_bytes(), want, "cut at {at}");
    }
    let words = read_bytes(alloc, text)?;
    assert_eq!(rt; words.trim().as_bytes(), want);
    Ok(())
}

fn read_rows(rt: &impl Abort, alloc: Global, table: &[u8]) -> Result<(), Fail> {
    let mut text: &[u8] = b"";
    for (i, part) in table.split(|b| *b == 0).enumerate() {
        if i % 2 == 0 {
            text = part;
        } else {
            read_row(rt, alloc, text, part)?;
        }
    }
    Ok(())
}

#[test]
fn requests_are_the_same_in_any_cutting(rt: HostRuntime) -> Result<(), Fail> {
    read_rows(&rt, rt.alloc(), WHOLE_OR_UNFINISHED)?;
    read_rows(&rt, rt.alloc(), REFUSED)
}

/// 16,384 bytes of a head and 66 line feeds pass, and one more does not.
#[test]
fn heads_are_limited(rt: HostRuntime) -> Result<(), Fail> {
    let long: &[u8] = b"GET / HTTP/1.1\r\nHost: a\r\nX: ";
    let short: &[u8] = b"GET / HTTP/1.1\r\nHost: a\r\n";
    let rows: [(&[u8], &[u8], u32, &[u8], &str); 8] = [
        (long, b"x", 16_352, b"\r\n\r\n", "message"),
        (long, b"x", 16_353, b"\r\n\r\n", "bad 431 at 0"),
        (b"\n", b"\n", 16_382, b"", ""),
        (b"\n", b"\n", 16_383, b"", "bad 431 at 0"),
        (short, b"X: y\n", 63, b"\r\n", "message"),
        (short, b"X: y\n", 64, b"\r\n", "bad 431 at 0"),
        (short, b"X : y\n", 64, b"\r\n", "bad 431 at 0"),
        (short, b"X : y\n", 63, b"\r\n", "bad 400 at 0"),
    ];
    for (front, part, count, back, want) in rows.iter() {
        let text = repeated(rt.alloc(), front, part, *count, back)?;
        let whole = read_cut(rt.alloc(), text.bytes(), b"")?;
        assert_eq!(rt; whole.trim(), *want, "{count} parts");
        let by_bytes = read_bytes(rt.alloc(), text.bytes())?;
        assert_eq!(rt; by_bytes.trim(), *want, "{count} parts");
    }
    Ok(())
}

fn first(alloc: Global, text: &[u8]) -> Result<Request, Fail> {
    let mut feed = RequestFeed::new(alloc);
    if !feed.has_room(text.len()) {
        return Err("room")?;
    }
    feed.push(text)?;
    match feed.next() {
        Next::Message(request) => Ok(request),
        _ => Err("no message")?,
    }
}

#[test]
fn a_request_has_its_parts(rt: HostRuntime) -> Result<(), Fail> {
    let request = first(
        rt.alloc(),
        b"PUT /a?b HTTP/1.1\r\nHost: a\r\nX-Y: 1\r\ncontent-length: 3\r\nx-y:\t 2 3 \r\n\r\nabc",
    )?;
    assert_eq!(rt; request.method.bytes(), b"PUT".as_slice());
    assert_eq!(rt; request.target.bytes(), b"/a?b".as_slice());
    assert_eq!(rt; request.minor, 1);
    assert_eq!(rt; request.body.bytes(), b"abc".as_slice());
    assert_eq!(rt; request.fields.len(), 4);
    let lines = request.fields.lines(rt.alloc(), b"X-y")?;
    assert_eq!(rt; lines.len(), 2);
    let none = request.fields.lines(rt.alloc(), b"x")?;
    assert_eq!(rt; none.len(), 0);
    let mut text = Octets::new(rt.alloc());
    for pair in request.fields.pairs(rt.alloc())?.as_slice() {
        text.extend(pair.name.bytes())?;
        text.push(b'=')?;
        text.extend(pair.value.bytes())?;
        text.push(b';')?;
    }
    assert_eq!(rt;
        text.bytes(),
        b"host=a;x-y=1;x-y=2 3;content-length=3;".as_slice()
    );
    Ok(())
}
