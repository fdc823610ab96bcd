//! Responses with what they are by RFC 9112, each read whole, in two pieces at every place, and byte by byte.
use super::repeated;
use crate::{NextResponse, Response, ResponseFeed};
use std::alloc::Global;
use std::fmt::Write;
use std::process::Abort;
use std::test::Fail;

/// What a feed gives, as words.
#[derive(Drop)]
struct Told {
    feed: ResponseFeed,
    words: String,
    over: bool,
}

fn start(alloc: Global, to_head: bool) -> Told {
    Told {
        feed: ResponseFeed::new(alloc, to_head),
        words: String::new(alloc),
        over: false,
    }
}

fn tell(told: &mut Told, response: &Response) -> Result<(), Fail> {
    write!(told.words, " {} ", response.status)?;
    for b in response.body.bytes() {
        told.words.push(*b as char)?;
    }
    Ok(())
}

/// Takes what a piece brings, up to a fault.
fn add(told: &mut Told, piece: &[u8]) -> Result<(), Fail> {
    if !told.feed.has_room(piece.len()) {
        return Err("room")?;
    }
    told.feed.push(piece)?;
    for _ in 0..9 {
        if told.over {
            return Ok(());
        }
        match told.feed.next() {
            NextResponse::Message(response) => tell(told, &response)?,
            NextResponse::Bad { at } => {
                write!(told.words, " bad {at}")?;
                told.over = true;
            }
            NextResponse::NeedMore => return Ok(()),
            NextResponse::OutOfMemory => return Err("memory")?,
        }
    }
    Ok(())
}

/// Adds what the end of the input tells.
fn finish(mut told: Told) -> Result<String, Fail> {
    if !told.over {
        told.words.push_str(" end")?;
        match told.feed.finish() {
            NextResponse::Message(response) => tell(&mut told, &response)?,
            NextResponse::Bad { at } => write!(told.words, " bad {at}")?,
            _ => return Err("end")?,
        }
    }
    let Told { words, .. } = told;
    Ok(words)
}

fn read_cut(alloc: Global, to_head: bool, front: &[u8], back: &[u8]) -> Result<String, Fail> {
    let mut told = start(alloc, to_head);
    add(&mut told, front)?;
    add(&mut told, back)?;
    finish(told)
}

fn read_bytes(alloc: Global, to_head: bool, text: &[u8]) -> Result<String, Fail> {
    let mut told = start(alloc, to_head);
    for b in text {
        add(&mut told, &[*b])?;
    }
    finish(told)
}

/// A row is a text and what it is, each ended by a NUL.
const FRAMED_BY_LENGTH: &[u8] = b"\
    HTTP/1.1\0end bad 0\0\
    HTTP/1.1 200 O\0end bad 0\0\
    HTTP/1.1 200 OK\r\nContent-Length: 2\r\n\r\nok\0200 ok end bad 40\0\
    HTTP/1.1 200 OK\r\nContent-Length: 3\r\n\r\nok\0end bad 38\0\
    HTTP/1.1 200\nContent-Length: 2\n\nokHTTP/1.0 404 \n\nno\0200 ok end 404 no\0\
    HTTP/1.1 204 \r\nContent-Length: 5\r\n\r\n\0204  end bad 36\0\
    HTTP/1.1 304 \r\nTransfer-Encoding: chunked\r\n\r\n\0304  end bad 45\0\
    HTTP/1.1 100 Continue\r\n\r\nHTTP/1.1 103 \r\nLink: x\r\n\r\nHTTP/1.1 204 \r\n\r\n\0204  end bad 68\0\
    HTTP/1.1 204 OK\r\nContent-Length: 99999999999999999999\r\n\r\n\0204  end bad 57\0\
    HTTP/1.1 200 OK\r\nContent-Length: 99999999999999999999\r\n\r\n\0bad 57\0\
    HTTP/1.1 200 OK\r\nContent-Length: 16777217\r\n\r\n\0bad 45\0\
    HTTP/1.1 200 OK\r\nContent-Length: 16777216\r\n\r\n\0end bad 45\0\
    HTTP/1.1 100 \r\n\r\nHTTP/1.1 2OO \r\n\r\n\0bad 17\0\
    HTTP/1.1 100 \r\nContent-Length: x\r\n\r\n\0bad 0\0\
    HTTP/1.1 099 \r\n\r\n\0bad 0\0\
    HTTP/1.1 600 \r\n\r\n\0bad 0\0\
";

const REFUSED_HEADS: &[u8] = b"\
    HTTP/1.1 20 \r\n\r\n\0bad 0\0\
    HTTP/1.1 200 OK\r\nX : y\r\n\r\n\0bad 0\0\
    HTTP/1.1 200 OK\r\nContent-Length:\r\n\r\n\0bad 0\0\
    HTTP/1.1 200 OK\r\nContent-Length: 1\r\nContent-Length: 1\r\n\r\n\0bad 0\0\
    HTTP/1.1 204 OK\r\nContent-Length: -1\r\n\r\n\0bad 0\0\
    HTTP/1.1 200 OK\r\nTransfer-Encoding: gzip\r\n\r\n\0bad 0\0\
    HTTP/1.1 204 OK\r\nTransfer-Encoding:\r\n\r\n\0bad 0\0\
    HTTP/1.1 200 OK\r\nTransfer-Encoding: chunked\r\nTransfer-Encoding: chunked\r\n\r\n\0bad 0\0\
    HTTP/1.1 200 OK\r\nTransfer-Encoding: gzip, chunked\r\n\r\n\0bad 0\0\
";

const CHUNKED_HEAD: &[u8] =
    b"HTTP/1.1 200 OK\r\nContent-Length: 9\r\nTransfer-Encoding: Chunked\r\n\r\n";

/// What follows that head of 66 bytes.
const CHUNKED: &[u8] = b"\
    2\r\nok\r\n0\r\n\r\n\0200 ok end bad 78\0\
    1;a=\"b\"\r\no\r\n01 \t\r\nk\r\n0\r\nX: y\r\nz\n\n\0200 ok end bad 99\0\
    a\r\n0123456789\r\n00;\r\n\n\0200 0123456789 end bad 87\0\
    0\r\n\r\nHTTP/1.1 201 \r\n\r\nok\0200  end 201 ok\0\
    \0end bad 66\0\
    2\r\nok\0end bad 66\0\
    2\r\nok\r\0end bad 66\0\
    2\r\nok\r\n0\r\nX: y\r\n\0end bad 66\0\
    x\0bad 66\0\
    \r\n\0bad 66\0\
    2\nok\n\0bad 66\0\
    2;a\nb\0bad 66\0\
    2 3\r\n\0bad 66\0\
    00000000000000002\r\n\0bad 66\0\
    2\r\nok\r\n-\r\n\0bad 73\0\
    2\r\nokX\0bad 66\0\
    2\r\nok\r\n3\r\nabc\rX\0bad 73\0\
    1000001\r\n\0bad 66\0\
    1\r\no\r\n1000000\r\n\0bad 66\0\
    1\r\no\r\nffffffffffffffff\r\n\0bad 66\0\
";

/// Rows of responses to the method HEAD.
const TO_HEAD: &[u8] = b"\
    \r\nHTTP/1.1 200 OK\r\nContent-Length: 5\r\n\r\n\0200  end bad 40\0\
    \r\nHTTP/1.1 200 OK\r\nTransfer-Encoding: chunked\r\n\r\n\0200  end bad 49\0\
    \r\n\nHTTP/1.1 200 OK\r\n\r\n\0bad 0\0\
";

/// Reads a text whole, in two pieces at every place, and byte by byte.
fn read_row(
    rt: &impl Abort,
    alloc: Global,
    to_head: bool,
    text: &[u8],
    want: &[u8],
) -> Result<(), Fail> {
    for at in 0..=text.len() {
        let words = read_cut(alloc, to_head, &text[..at], &text[at..])?;
        assert_eq!(rt; words.trim().as_bytes(), want, "cut at {at}");
    }
    let words = read_bytes(alloc, to_head, text)?;
    assert_eq!(rt; words.trim().as_bytes(), want);
    Ok(())
}

/// Reads the rows of a table, each text behind a front.
fn read_rows(
    rt: &impl Abort,
    alloc: Global,
    to_head: bool,
    front: &[u8],
    table: &[u8],
) -> Result<(), Fail> {
    let mut rest: &[u8] = b"";
    for (i, part) in table.split(|b| *b == 0).enumerate() {
        if i % 2 == 0 {
            rest = part;
        } else {
            let text = repeated(alloc, front, rest, 1, b"")?;
            read_row(rt, alloc, to_head, text.bytes(), part)?;
        }
    }
    Ok(())
}

#[test]
fn responses_are_the_same_in_any_cutting(rt: HostRuntime) -> Result<(), Fail> {
    read_rows(&rt, rt.alloc(), false, b"", FRAMED_BY_LENGTH)?;
    read_rows(&rt, rt.alloc(), false, b"", REFUSED_HEADS)?;
    read_rows(&rt, rt.alloc(), false, CHUNKED_HEAD, CHUNKED)?;
    read_rows(&rt, rt.alloc(), true, b"", TO_HEAD)
}

/// Heads, chunk lines and trailers of 16,384 bytes pass, and one byte more does not.
#[test]
fn parts_of_responses_are_limited(rt: HostRuntime) -> Result<(), Fail> {
    let head: &[u8] = b"HTTP/1.1 204 \r\nX: ";
    let lines: &[u8] = b"HTTP/1.1 204 \n";
    let chunked: &[u8] = b"HTTP/1.1 200 OK\r\nTransfer-Encoding: chunked\r\n\r\n0;";
    let last: &[u8] = b"HTTP/1.1 200 OK\r\nTransfer-Encoding: chunked\r\n\r\n0\r\n";
    let rows: [(&[u8], &[u8], u32, &[u8], &str); 8] = [
        (head, b"x", 16_362, b"\r\n\r\n", "204  end bad 16384"),
        (head, b"x", 16_363, b"\r\n\r\n", "bad 0"),
        (lines, b"X: y\n", 64, b"\n", "204  end bad 335"),
        (lines, b"X: y\n", 65, b"\n", "bad 0"),
        (chunked, b"x", 16_380, b"\r\n\n", "200  end bad 16432"),
        (chunked, b"x", 16_381, b"\r\n\n", "bad 47"),
        (last, b"x\n", 8_191, b"\r\n", "200  end bad 16434"),
        (last, b"x\n", 8_192, b"\n", "bad 47"),
    ];
    for (front, part, count, back, want) in rows.iter() {
        let text = repeated(rt.alloc(), front, part, *count, back)?;
        let whole = read_cut(rt.alloc(), false, text.bytes(), b"")?;
        assert_eq!(rt; whole.trim(), *want, "{count} parts");
        let by_bytes = read_bytes(rt.alloc(), false, text.bytes())?;
        assert_eq!(rt; by_bytes.trim(), *want, "{count} parts by bytes");
    }
    Ok(())
}

#[test]
fn any_number_of_informational_responses_is_passed_over(rt: HostRuntime) -> Result<(), Fail> {
    let last: &[u8] = b"HTTP/1.1 204 \r\n\r\n";
    let text = repeated(rt.alloc(), b"", b"HTTP/1.1 100 \r\n\r\n", 10_000, last)?;
    let words = read_cut(rt.alloc(), false, text.bytes(), b"")?;
    assert_eq!(rt; words.trim(), "204  end bad 170017");
    Ok(())
}

/// A body of 16,777,216 bytes up to the end of the input passes.
#[test]
fn a_body_may_have_16_mebibytes(rt: HostRuntime) -> Result<(), Fail> {
    let piece = repeated(rt.alloc(), b"", b"x", 65_536, b"")?;
    let head: &[u8] = b"HTTP/1.1 200 OK\r\n\r\n";
    let mut feed = ResponseFeed::new(rt.alloc(), false);
    assert!(rt; feed.has_room(head.len()));
    feed.push(head)?;
    for _ in 0..256 {
        assert!(rt; feed.has_room(piece.len()));
        feed.push(piece.bytes())?;
        assert!(rt; matches!(feed.next(), NextResponse::NeedMore));
    }
    match feed.finish() {
        NextResponse::Message(response) => assert_eq!(rt; response.body.len(), 16_777_216),
        _ => return Err("no response")?,
    }
    Ok(())
}
