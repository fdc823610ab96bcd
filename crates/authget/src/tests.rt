//! Whole runs of the program over connections in memory.
ghost use Rattle.std.specs.Prelude.{All, IfOk};
ghost use Rattle.auth_io.specs.Memory.{IsUnused};

use crate::fetch::fetch;
use auth_grammar::Octets;
use auth_io::{MemClock, MemDial, MemLink, MemSink, MemSource, MemWords};
use std::alloc::Global;
use std::test::Fail;

/// Each row has the words, the replies, the exit status, and what is told. Random words are zeros. A reply is a status and
/// field lines, whose body is always the same; one that begins with `!` stands as it is, with `~` for a line's end. The
/// proofs were computed with Python.
const ROWS: &str =
    r#"Mufasa http://example.org/dir/index.html | 401 WWW-Authenticate: Digest realm="http-auth@example.org", nonce="AQAAAAAAAAAAAAAAAAAAAAAAAAAAAAAAAAAA", algorithm=SHA-256, qop="auth" > 200 Authentication-Info: qop=auth, rspauth="e954bab100728af1746fb13401d7aaa535bd4002ede5f5ece0a75af159c73d28", cnonce="AAAAAAAAAAAAAAAAAAAAAA==", nc=00000001 | 0 | http://example.org/dir/index.html 200 mutual
Mufasa http://example.org/dir/index.html | 401 WWW-Authenticate: Digest realm="http-auth@example.org", nonce="AQAAAAAAAAAAAAAAAAAAAAAAAAAAAAAAAAAA", algorithm=SHA-256, qop="auth" > 401 WWW-Authenticate: Digest realm="http-auth@example.org", nonce="AQAAAAAAAAAAAAEAAAAAAAAAAAAAAAAAAAAA", stale=true, algorithm=SHA-256, qop="auth" > 401 WWW-Authenticate: Digest realm="http-auth@example.org", nonce="AQAAAAAAAAAAAAEAAAAAAAAAAAAAAAAAAAAA", stale=true, algorithm=SHA-256, qop="auth" > 401 WWW-Authenticate: Digest realm="http-auth@example.org", nonce="AQAAAAAAAAAAAAEAAAAAAAAAAAAAAAAAAAAA", stale=true, algorithm=SHA-256, qop="auth" | 2 | -
Mufasa http://example.org/dir/index.html | !HTTP/1.1 401 Unauth | 4 | -
Mufasa http://example.org/dir/index.html | 401 WWW-Authenticate: Basic realm="x" > 200 A: b | 8 | -
Mufasa http://example.org/dir/index.html | 401 WWW-Authenticate: Digest realm="http-auth@example.org", nonce="AQAAAAAAAAAAAAAAAAAAAAAAAAAAAAAAAAAA", algorithm=SHA-256, qop="auth" > 200 Authentication-Info: qop=auth, rspauth="0954bab100728af1746fb13401d7aaa535bd4002ede5f5ece0a75af159c73d28", cnonce="AAAAAAAAAAAAAAAAAAAAAA==", nc=00000001 | 3 | -
Mufasa http://example.org/dir/index.html | 401 WWW-Authenticate: Digest realm="http-auth@example.org", nonce="AQAAAAAAAAAAAAAAAAAAAAAAAAAAAAAAAAAA", algorithm=SHA-256, qop="auth" > 200 A: b | 1 | http://example.org/dir/index.html 200 one-way
Mufasa http://example.org/dir/index.html | 401 WWW-Authenticate: Digest realm="http-auth@example.org", nonce="AQAAAAAAAAAAAAAAAAAAAAAAAAAAAAAAAAAA", algorithm=SHA-256, qop="auth" > 401 WWW-Authenticate: Digest realm="http-auth@example.org", nonce="AQAAAAAAAAAAAAAAAAAAAAAAAAAAAAAAAAAA", algorithm=SHA-256, qop="auth" | 2 | -
Mufasa http://example.org/dir/index.html | 401 WWW-Authenticate: Digest =x | 4 | -
Mufasa http://example.org/dir/index.html | 404 A: b | 1 | http://example.org/dir/index.html 404 one-way
Mufasa http://example.org/dir/index.html | !HTTP/1.1 200 OK~~hello | 1 | http://example.org/dir/index.html 200 one-way
Mufasa http://example.org/dir/index.html http://example.org/dir/index.html | 401 WWW-Authenticate: Digest realm="http-auth@example.org", nonce="AQAAAAAAAAAAAAAAAAAAAAAAAAAAAAAAAAAA", algorithm=SHA-256, qop="auth" > 200 Authentication-Info: qop=auth, rspauth="e954bab100728af1746fb13401d7aaa535bd4002ede5f5ece0a75af159c73d28", cnonce="AAAAAAAAAAAAAAAAAAAAAA==", nc=00000001 > 200 Authentication-Info: qop=auth, rspauth="5ae944b3e722bfcbccb76860616ffccb3923067668686ed4f0e55de4d0857149", cnonce="AAAAAAAAAAAAAAAAAAAAAA==", nc=00000002 | 0 | http://example.org/dir/index.html 200 mutual ; http://example.org/dir/index.html 200 mutual
Mufasa http://example.org/ http://example.org/dir/index.html | 200 A: b > 401 WWW-Authenticate: Digest realm="http-auth@example.org", nonce="AQAAAAAAAAAAAAAAAAAAAAAAAAAAAAAAAAAA", algorithm=SHA-256, qop="auth" > 200 Authentication-Info: qop=auth, rspauth="e954bab100728af1746fb13401d7aaa535bd4002ede5f5ece0a75af159c73d28", cnonce="AAAAAAAAAAAAAAAAAAAAAA==", nc=00000001 | 1 | http://example.org/ 200 one-way ; http://example.org/dir/index.html 200 mutual
Mufasa http://example.org/dir/index.html http://example.org/dir/index.html | 401 WWW-Authenticate: Digest realm="http-auth@example.org", nonce="AQAAAAAAAAAAAAAAAAAAAAAAAAAAAAAAAAAA", algorithm=SHA-256, qop="auth" > 200 Authentication-Info: qop=auth, rspauth="e954bab100728af1746fb13401d7aaa535bd4002ede5f5ece0a75af159c73d28", cnonce="AAAAAAAAAAAAAAAAAAAAAA==", nc=00000001 > 401 WWW-Authenticate: Digest realm="http-auth@example.org", nonce="AQAAAAAAAAAAAAAAAAAAAAAAAAAAAAAAAAAA", algorithm=SHA-256, qop="auth" > 200 A: b | 2 | http://example.org/dir/index.html 200 mutual
--proxy=p:3128 Mufasa http://example.org/dir/index.html | 407 Proxy-Authenticate: Digest realm="http-auth@example.org", nonce="AQAAAAAAAAAAAAAAAAAAAAAAAAAAAAAAAAAA", algorithm=SHA-256, qop="auth" > 200 Proxy-Authentication-Info: qop=auth, rspauth="a5fcafeab89f1e31460ded46bdea85444022d746c1246ab2b1c2fac0cf6973cf", cnonce="AAAAAAAAAAAAAAAAAAAAAA==", nc=00000001 | 0 | http://example.org/dir/index.html 200 mutual
Mufasa --proxy=p:3128 http://example.org/dir/index.html | 401 WWW-Authenticate: Digest realm="http-auth@example.org", nonce="AQAAAAAAAAAAAAAAAAAAAAAAAAAAAAAAAAAA", algorithm=SHA-256, qop="auth" | 1 | http://example.org/dir/index.html 401 one-way
Mufasa http://example.org/dir/index.html --proxy=p:3128 | 407 Proxy-Authenticate: Digest realm="http-auth@example.org", nonce="AQAAAAAAAAAAAAAAAAAAAAAAAAAAAAAAAAAA", algorithm=SHA-256, qop="auth" > 407 Proxy-Authenticate: Digest realm="http-auth@example.org", nonce="AQAAAAAAAAAAAAAAAAAAAAAAAAAAAAAAAAAA", algorithm=SHA-256, qop="auth" | 2 | -
Mufasa http://h:65535/?a"b | 200 A: b | 1 | http://h:65535/?a"b 200 one-way
Mufasa | 200 A: b | 5 | usage: authget [--proxy=HOST:PORT] NAME URL..
Mufasa ftp://example.org/ | 200 A: b | 5 | usage: authget [--proxy=HOST:PORT] NAME URL..
Mufasa http://h | 200 A: b | 5 | usage: authget [--proxy=HOST:PORT] NAME URL..
Mufasa http:///a | 200 A: b | 5 | usage: authget [--proxy=HOST:PORT] NAME URL..
Mufasa http://h:0/ | 200 A: b | 5 | usage: authget [--proxy=HOST:PORT] NAME URL..
Mufasa http://h:65536/ | 200 A: b | 5 | usage: authget [--proxy=HOST:PORT] NAME URL..
Mufasa http://h:080/ | 200 A: b | 5 | usage: authget [--proxy=HOST:PORT] NAME URL..
Mufasa http://h:/ | 200 A: b | 5 | usage: authget [--proxy=HOST:PORT] NAME URL..
Mufasa http://h_/ | 200 A: b | 5 | usage: authget [--proxy=HOST:PORT] NAME URL..
Mufasa http://h/a#b | 200 A: b | 5 | usage: authget [--proxy=HOST:PORT] NAME URL..
Mufasa http://h/a http://g/a | 200 A: b | 5 | usage: authget [--proxy=HOST:PORT] NAME URL..
-x Mufasa http://h/ | 200 A: b | 5 | usage: authget [--proxy=HOST:PORT] NAME URL..
--proxy=h Mufasa http://h/ | 200 A: b | 5 | usage: authget [--proxy=HOST:PORT] NAME URL..
--proxy=h:1 --proxy=h:1 Mufasa http://h/ | 200 A: b | 5 | usage: authget [--proxy=HOST:PORT] NAME URL..
a:b http://h/ | 200 A: b | 5 | usage: authget [--proxy=HOST:PORT] NAME URL..
 http://h/ | 200 A: b | 5 | usage: authget [--proxy=HOST:PORT] NAME URL..
Mufasa http://h/ http://h/ http://h/ http://h/ http://h/ http://h/ http://h/ http://h/ http://h/ http://h/ http://h/ http://h/ http://h/ http://h/ http://h/ http://h/ http://h/ | 200 A: b | 5 | usage: authget [--proxy=HOST:PORT] NAME URL..
Mufasa http://h/ http://h/ http://h/ http://h/ http://h/ http://h/ http://h/ http://h/ http://h/ http://h/ http://h/ http://h/ http://h/ http://h/ http://h/ http://h/ | 200 A: b > 200 A: b > 200 A: b > 200 A: b > 200 A: b > 200 A: b > 200 A: b > 200 A: b > 200 A: b > 200 A: b > 200 A: b > 200 A: b > 200 A: b > 200 A: b > 200 A: b > 200 A: b | 1 | http://h/ 200 one-way ; http://h/ 200 one-way ; http://h/ 200 one-way ; http://h/ 200 one-way ; http://h/ 200 one-way ; http://h/ 200 one-way ; http://h/ 200 one-way ; http://h/ 200 one-way ; http://h/ 200 one-way ; http://h/ 200 one-way ; http://h/ 200 one-way ; http://h/ 200 one-way ; http://h/ 200 one-way ; http://h/ 200 one-way ; http://h/ 200 one-way ; http://h/ 200 one-way"#;

/// The body of each reply.
const BODY: &[u8; 6] = b"hello\n";

/// What a run did.
#[derive(Drop)]
struct Ran {
    status: u8,
    output: Octets,
    told: Octets,
    dial: MemDial,
}

/// Adds the lines, each with its end.
fn push_lines(text: &mut Octets, lines: &str, between: &str, end: &[u8]) -> Result<(), Fail> {
    for line in lines.split(between) {
        text.extend(line.as_bytes())?;
        text.extend(end)?;
    }
    Ok(())
}

/// The bytes of a reply.
fn reply_of(alloc: Global, reply: &str) -> Result<Octets, Fail> {
    let mut text = Octets::new(alloc);
    if let Some(lines) = reply.strip_prefix('!') {
        push_lines(&mut text, lines, "~", b"\n")?;
        return Ok(text);
    }
    let (status, lines) = reply.split_once(' ').ok_or("no status")?;
    text.extend(b"HTTP/1.1 ")?;
    text.extend(status.as_bytes())?;
    text.extend(b" X\r\nContent-Length: 6\r\n")?;
    push_lines(&mut text, lines, " & ", b"\r\n")?;
    text.extend(b"\r\n")?;
    text.extend(BODY)?;
    Ok(text)
}

/// A connection that gives this reply.
fn link_of(alloc: Global, reply: &str) -> Result<MemLink, Fail>
    ensures { IfOk result IsUnused }
{
    let text = reply_of(alloc, reply)?;
    let none = || Vec::<u32>::new(alloc);
    Ok(MemLink::new(alloc, text, none(), none(), none(), none(), 9)?)
}

fn links_of(alloc: Global, replies: &str) -> Result<Vec<MemLink>, Fail>
    ensures { IfOk result (λ links. All IsUnused links.items) }
{
    let mut links = Vec::new(alloc);
    for reply in replies.split(" > ") {
        links.push(link_of(alloc, reply)?)?;
    }
    Ok(links)
}

fn words_of(alloc: Global, line: &str) -> Result<Vec<String>, Fail> {
    let mut words = Vec::new(alloc);
    for word in line.split(' ') {
        words.push(String::from_str(alloc, word)?)?;
    }
    Ok(words)
}

/// Runs the program, where the dials of these numbers fail.
fn run(alloc: Global, words: &str, replies: &str, failing: Vec<u32>) -> Result<Ran, Fail> {
    let words = words_of(alloc, words)?;
    let mut dial = MemDial::new(alloc, links_of(alloc, replies)?, failing)?;
    let input = Octets::of(alloc, b"Circle of Life\n")?;
    let mut output = MemSink::new(alloc, Vec::new(alloc), Vec::new(alloc));
    let mut diag = MemSink::new(alloc, Vec::new(alloc), Vec::new(alloc));
    let status = fetch(
        alloc,
        &words,
        &mut dial,
        &mut MemSource::new(input, Vec::new(alloc), Vec::new(alloc)),
        &mut output,
        &mut diag,
        &mut MemClock::new(Vec::new(alloc)),
        &mut MemWords::new(Vec::new(alloc), Vec::new(alloc)),
    );
    let (output, told) = (
        Octets::of(alloc, output.written())?,
        Octets::of(alloc, diag.written())?,
    );
    Ok(Ran {
        status,
        output,
        told,
        dial,
    })
}

/// What is told in a row, and the bodies that are written for it.
fn wanted_of(alloc: Global, lines: &str) -> Result<(Octets, Octets), Fail> {
    let (mut told, mut output) = (Octets::new(alloc), Octets::new(alloc));
    for line in lines.split(" ; ") {
        if line != "-" {
            told.extend(line.as_bytes())?;
            told.push(b'\n')?;
        }
        if line.ends_with("mutual") || line.ends_with("one-way") {
            output.extend(BODY)?;
        }
    }
    Ok((told, output))
}

/// Whether a run goes as the row says.
fn goes_so(alloc: Global, row: &str) -> Result<bool, Fail> {
    let mut parts = row.split(" | ");
    let words = parts.next().ok_or("no words")?;
    let replies = parts.next().ok_or("no replies")?;
    let status = parts.next().ok_or("no status")?;
    let wanted = wanted_of(alloc, parts.next().ok_or("no lines")?)?;
    let ran = run(alloc, words, replies, Vec::new(alloc))?;
    let number = format!(in alloc; "{}", ran.status)?;
    Ok(
        number.as_str() == status
            && ran.told.bytes() == wanted.0.bytes()
            && ran.output.bytes() == wanted.1.bytes(),
    )
}

/// The number of the first row that goes otherwise, counted from 1, or 0.
fn first_wrong(alloc: Global, rows: &str) -> Result<usize, Fail> {
    for (at, row) in rows.lines().enumerate() {
        if !goes_so(alloc, row)? {
            return Ok(at.saturating_add(1));
        }
    }
    Ok(0)
}

#[test]
fn each_run_prints_its_lines_and_ends_with_its_status(rt: HostRuntime) -> Result<(), Fail> {
    assert_eq!(rt; first_wrong(rt.alloc(), ROWS)?, 0);
    Ok(())
}

/// A challenge for other URLs, so that it is made again at each request.
const STUBBORN: &str =
    r#"401 WWW-Authenticate: Digest realm="http-auth@example.org", domain="/other", nonce="AQAAAAAAAAAAAAAAAAAAAAAAAAAAAAAAAAAA", algorithm=SHA-256, qop="auth""#;

/// Nine of them.
fn nine_challenges(alloc: Global) -> Result<String, Fail> {
    let mut replies = String::from_str(alloc, STUBBORN)?;
    for _ in 0..8 {
        replies.push_str(" > ")?;
        replies.push_str(STUBBORN)?;
    }
    Ok(replies)
}

/// Runs the program over them, where the dials of these numbers fail.
fn run_stubborn(alloc: Global, failing: Vec<u32>) -> Result<Ran, Fail> {
    let replies = nine_challenges(alloc)?;
    run(
        alloc,
        "Mufasa http://example.org/",
        replies.as_str(),
        failing,
    )
}

#[test]
fn eight_requests_are_made(rt: HostRuntime) -> Result<(), Fail> {
    let alloc = rt.alloc();
    let ran = run_stubborn(alloc, Vec::new(alloc))?;
    assert_eq!(rt; ran.status, 2);
    assert_eq!(rt; ran.dial.ended().len(), 8);
    for (authority, failed) in ran.dial.dialled() {
        assert!(rt; authority.bytes() == b"example.org".as_slice() && !*failed);
    }
    Ok(())
}

#[test]
fn a_dial_that_fails_is_a_fault(rt: HostRuntime) -> Result<(), Fail> {
    let alloc = rt.alloc();
    let ran = run_stubborn(alloc, vec![in alloc; 2]?)?;
    assert_eq!(rt; ran.status, 6);
    assert_eq!(rt; ran.dial.ended().len(), 1);
    assert_eq!(rt; ran.output.len(), 0);
    Ok(())
}
