//! What no clause says: whole exchanges as rows of text. The responses and the server's values are those of sha256sum.
ghost use Rattle.std.specs.Prelude.{IfOk};
ghost use Rattle.auth_io.specs.Memory.{IsUnused};

use crate::{ProxySite, proxy_connection};
use auth_decide::Site;
use auth_grammar::Octets;
use auth_io::{MemClock, MemDial, MemLink, MemWords};
use connection_loop::{ServeError, Served};
use cred_store::Store;
use nonce_shard::{JournalTable, Sizes};
use spaces_map::Spaces;
use std::alloc::Global;
use std::process::Abort;
use std::test::Fail;

fn store_text() -> &'static [u8] {
    b"authstore 1\nMufasa:http-auth@example.org:sha-256:7987c64c30e25f1b74be53f966b49b90f2808aa92faf9a00262392d7b4794232\n"
}

fn site_of(rt: &impl Abort, alloc: Global) -> Result<ProxySite, Fail> {
    let site = Site {
        store: Store::read(alloc, store_text())?,
        spaces: Spaces::read(
            alloc,
            b"authspaces 1\n/ required SHA-256 http-auth@example.org\n",
        )?,
        root: Octets::new(alloc),
    };
    assert!(rt; site.spaces.proxy_ready());
    Ok(ProxySite::new(site))
}

const BARE: &[u8] = b"GET http://example.org/a HTTP/1.1\r\nHost: example.org\r\n\r\n";

const CHALLENGE: &[u8] =
    b"HTTP/1.1 407 Proxy Authentication Required\r\nDate: Thu, 01 Jan 1970 00:00:00 GMT\r\nProxy-Authenticate: Digest realm=\"http-auth@example.org\", nonce=\"AQAAAAAAAAAAAAAAAAAAAAAAAAAAAAAAAAAA\", algorithm=SHA-256, qop=\"auth\"\r\nContent-Length: 30\r\n\r\nProxy Authentication Required\n";

const GET_RESPONSE: &[u8] = b"cb337de486b7295a5ab13342b0260cb9c63e5563ff559439dedea5dbcc46ecdf";

const HEAD_RESPONSE: &[u8] = b"6ffe5a2bbe667ffaac0f36b44de136dfa2601d350762643e1720a34544a06ab6";

const INFO: &[u8] =
    b"Proxy-Authentication-Info: qop=auth, rspauth=\"ca58a377b283e4a0df52bd3c92e20dd5baf833a75d45b0f77bc71de8f10436a0\", cnonce=\"0a4f113b\", nc=00000001\r\n";

const OK: &[u8] = b"HTTP/1.1 200 OK\r\nContent-Length: 2\r\n\r\nok";

/// A response that ends inside its body.
const SHORT: &[u8] = b"HTTP/1.1 200 OK\r\nContent-Length: 3\r\n\r\nok";

fn joined(alloc: Global, parts: &[&[u8]]) -> Result<Octets, Fail> {
    let mut text = Octets::new(alloc);
    for part in parts {
        text.extend(part)?;
    }
    Ok(text)
}

/// A request with right credentials and these lines.
fn right_request(alloc: Global, method: &[u8], lines: &[u8]) -> Result<Octets, Fail> {
    let response = if method == b"HEAD".as_slice() {
        HEAD_RESPONSE
    } else {
        GET_RESPONSE
    };
    joined(
        alloc,
        &[
            method,
            b" http://example.org/a HTTP/1.1\r\nHost: example.org\r\n",
            lines,
            b"Proxy-Authorization: Digest username=\"Mufasa\", realm=\"http-auth@example.org\", uri=\"http://example.org/a\", algorithm=SHA-256, nonce=\"AQAAAAAAAAAAAAAAAAAAAAAAAAAAAAAAAAAA\", nc=00000001, cnonce=\"0a4f113b\", qop=auth, response=\"",
            response,
            b"\"\r\n\r\n",
        ],
    )
}

/// A reply of this status to an admitted request.
fn reply(alloc: Global, status: &[u8], lines: &[u8], body: &[u8]) -> Result<Octets, Fail> {
    joined(
        alloc,
        &[
            b"HTTP/1.1 ",
            status,
            b"\r\nDate: Thu, 01 Jan 1970 00:00:00 GMT\r\n",
            lines,
            INFO,
            body,
        ],
    )
}

fn bad_gateway(alloc: Global) -> Result<Octets, Fail> {
    reply(
        alloc,
        b"502 Bad Gateway",
        b"",
        b"Content-Length: 12\r\n\r\nBad Gateway\n",
    )
}

/// A connection that gives these bytes, cut behind so many of them, and of which these calls fail.
fn link_of(
    alloc: Global,
    input: &[u8],
    cut: u32,
    failing_read: u32,
    failing_write: u32,
) -> Result<MemLink, Fail>
    ensures { IfOk result IsUnused }
{
    Ok(MemLink::new(
        alloc,
        Octets::of(alloc, input)?,
        vec![in alloc; cut]?,
        vec![in alloc; 3]?,
        vec![in alloc; failing_read]?,
        vec![in alloc; failing_write]?,
        999,
    )?)
}

/// Serves a bare request and then this one, over a dial with this one connection, and checks the replies.
fn serve(
    rt: &impl Abort,
    alloc: Global,
    request: &[u8],
    cut: u32,
    mut dial: MemDial,
    wanted: &[u8],
) -> Result<MemDial, Fail> {
    let input = joined(alloc, &[BARE, request])?;
    let mut link = link_of(alloc, input.bytes(), cut, 0, 0)?;
    let mut table = JournalTable::open(alloc, 12, &Sizes::single())?;
    let site = site_of(rt, alloc)?;
    let served = proxy_connection(
        alloc,
        &mut link,
        &mut dial,
        &mut MemClock::new(vec![in alloc; 0]?),
        &mut MemWords::new(vec![in alloc; [0; 16]]?, vec![in alloc]?),
        &mut table,
        &site.site,
    );
    assert!(rt; served.is_ok());
    let wanted = joined(alloc, &[CHALLENGE, wanted])?;
    assert_eq!(rt; link.written(), wanted.bytes());
    Ok(dial)
}

fn dial_of(alloc: Global, link: MemLink) -> Result<MemDial, Fail>
    requires { IsUnused link }
{
    let mut links = Vec::new(alloc);
    links.push(link)?;
    Ok(MemDial::new(alloc, links, vec![in alloc]?)?)
}

/// Checks what goes up for an admitted request with these lines, and what comes back for this upstream.
fn check(
    rt: &impl Abort,
    alloc: Global,
    method: &[u8],
    lines: &[u8],
    upstream: &[u8],
    sent: &[u8],
    wanted: &[u8],
) -> Result<(), Fail> {
    let request = right_request(alloc, method, lines)?;
    let dial = dial_of(alloc, link_of(alloc, upstream, 5, 0, 0)?)?;
    let dial = serve(rt, alloc, request.bytes(), 9, dial, wanted)?;
    assert_eq!(rt; dial.dialled().len(), 1);
    assert_eq!(rt; dial.dialled()[0].0.bytes(), b"example.org".as_slice());
    assert_eq!(rt; dial.ended().len(), 1);
    assert_eq!(rt; dial.ended()[0].written(), sent);
    Ok(())
}

const SENT: &[u8] =
    b"GET /a HTTP/1.1\r\nHost: example.org\r\nvia: 1.1 authd\r\nConnection: close\r\n\r\n";

#[test]
fn an_admitted_request_is_passed_on(rt: HostRuntime) -> Result<(), Fail> {
    let alloc = rt.alloc();
    let wanted = reply(alloc, b"200 OK", b"", b"Content-Length: 2\r\n\r\nok")?;
    check(&rt, alloc, b"GET", b"", OK, SENT, wanted.bytes())
}

/// What goes up for these lines.
fn check_lines(rt: &impl Abort, alloc: Global, lines: &[u8], passed: &[u8]) -> Result<(), Fail> {
    let sent = joined(
        alloc,
        &[
            b"GET /a HTTP/1.1\r\nHost: example.org\r\n",
            passed,
            b"via: 1.1 authd\r\nConnection: close\r\n\r\n",
        ],
    )?;
    let wanted = reply(alloc, b"200 OK", b"", b"Content-Length: 2\r\n\r\nok")?;
    check(rt, alloc, b"GET", lines, OK, sent.bytes(), wanted.bytes())
}

#[test]
fn fields_of_one_connection_stay(rt: HostRuntime) -> Result<(), Fail> {
    let alloc = rt.alloc();
    check_lines(&rt, alloc, b"Accept: */*\r\n", b"accept: */*\r\n")?;
    check_lines(
        &rt,
        alloc,
        b"Authorization: Basic eA==\r\n",
        b"authorization: Basic eA==\r\n",
    )?;
    check_lines(
        &rt,
        alloc,
        b"TE: trailers\r\nKeep-Alive: 5\r\nUpgrade: x\r\n",
        b"",
    )?;
    check_lines(&rt, alloc, b"Proxy-Connection: keep-alive\r\n", b"")?;
    check_lines(
        &rt,
        alloc,
        b"Connection: X-One , x-two\r\nX-One: 1\r\nX-Two: 2\r\nX-Three: 3\r\n",
        b"x-three: 3\r\n",
    )
}

/// What comes back for this upstream.
fn check_reply(
    rt: &impl Abort,
    alloc: Global,
    upstream: &[u8],
    status: &[u8],
    lines: &[u8],
    body: &[u8],
) -> Result<(), Fail> {
    let wanted = reply(alloc, status, lines, body)?;
    check(rt, alloc, b"GET", b"", upstream, SENT, wanted.bytes())
}

#[test]
fn responses_are_passed_back(rt: HostRuntime) -> Result<(), Fail> {
    let alloc = rt.alloc();
    let body = b"Content-Length: 2\r\n\r\nok";
    let chunked = b"HTTP/1.1 200 OK\r\nTransfer-Encoding: chunked\r\n\r\n2\r\nok\r\n0\r\n\r\n";
    check_reply(&rt, alloc, chunked, b"200 OK", b"", body)?;
    check_reply(
        &rt,
        alloc,
        b"HTTP/1.0 200 OK\r\n\r\nok",
        b"200 OK",
        b"",
        body,
    )?;
    let interim =
        b"HTTP/1.1 100 Continue\r\n\r\nHTTP/1.1 200 OK\r\nDate: x\r\nX: y\r\nContent-Length: 2\r\n\r\nok";
    check_reply(&rt, alloc, interim, b"200 OK", b"x: y\r\n", body)?;
    let challenge =
        b"HTTP/1.1 407 No\r\nProxy-Authenticate: Basic realm=r\r\nContent-Length: 2\r\n\r\nok";
    check_reply(
        &rt,
        alloc,
        challenge,
        b"407 Proxy Authentication Required",
        b"proxy-authenticate: Basic realm=r\r\n",
        body,
    )?;
    check_reply(
        &rt,
        alloc,
        b"HTTP/1.1 304 Not Modified\r\n\r\n",
        b"304 ",
        b"",
        b"\r\n",
    )?;
    check_reply(
        &rt,
        alloc,
        b"HTTP/1.1 299 Fine\r\nContent-Length: 2\r\n\r\nok",
        b"299 ",
        b"",
        body,
    )
}

#[test]
fn a_gateway_without_a_response_is_a_bad_one(rt: HostRuntime) -> Result<(), Fail> {
    let alloc = rt.alloc();
    let wanted = bad_gateway(alloc)?;
    for upstream in [
        SHORT,
        b"HTTP/1.1 200 OK\r\nContent-Length: 2\r\nContent-Length: 2\r\n\r\nok",
        b"",
        b"SSH-2.0-x\r\n\r\n",
    ] {
        check(&rt, alloc, b"GET", b"", upstream, SENT, wanted.bytes())?;
    }
    Ok(())
}

#[test]
fn the_body_of_a_response_to_head_is_not_awaited(rt: HostRuntime) -> Result<(), Fail> {
    let alloc = rt.alloc();
    let sent =
        b"HEAD /a HTTP/1.1\r\nHost: example.org\r\nvia: 1.1 authd\r\nConnection: close\r\n\r\n";
    let wanted = reply(alloc, b"200 OK", b"", b"Content-Length: 0\r\n\r\n")?;
    let upstream = b"HTTP/1.1 200 OK\r\nContent-Length: 2\r\n\r\n";
    check(&rt, alloc, b"HEAD", b"", upstream, sent, wanted.bytes())
}

#[test]
fn a_dial_or_a_link_that_fails_is_a_bad_gateway(rt: HostRuntime) -> Result<(), Fail> {
    let alloc = rt.alloc();
    let wanted = bad_gateway(alloc)?;
    let request = right_request(alloc, b"GET", b"")?;
    let none = MemDial::new(alloc, Vec::new(alloc), vec![in alloc]?)?;
    let none = serve(&rt, alloc, request.bytes(), 9, none, wanted.bytes())?;
    assert_eq!(rt; none.dialled().len(), 1);
    assert!(rt; none.dialled()[0].1);
    for (read, write) in [(1, 0), (2, 0), (0, 1), (0, 2)] {
        let dial = dial_of(alloc, link_of(alloc, OK, 5, read, write)?)?;
        let dial = serve(&rt, alloc, request.bytes(), 9, dial, wanted.bytes())?;
        assert_eq!(rt; dial.ended().len(), 1);
    }
    Ok(())
}

/// Checks that a request for this target is refused, and nobody is dialled, where its bytes are cut behind so many of them.
fn check_refused(rt: &impl Abort, alloc: Global, target: &[u8], cut: u32) -> Result<(), Fail> {
    let refusal =
        b"HTTP/1.1 400 Bad Request\r\nDate: Thu, 01 Jan 1970 00:00:00 GMT\r\nContent-Length: 12\r\n\r\nBad Request\n";
    let parts: [&[u8]; 3] = [b"GET ", target, b" HTTP/1.1\r\nHost: example.org\r\n\r\n"];
    let request = joined(alloc, &parts)?;
    let none = MemDial::new(alloc, Vec::new(alloc), vec![in alloc]?)?;
    let dial = serve(rt, alloc, request.bytes(), cut, none, refusal)?;
    assert_eq!(rt; dial.dialled().len(), 0);
    Ok(())
}

#[test]
fn a_target_without_an_authority_is_refused_and_not_decided(rt: HostRuntime) -> Result<(), Fail> {
    for target in [
        b"/a".as_slice(),
        b"http:///a",
        b"https://example.org/",
        b"example.org:443",
    ] {
        check_refused(&rt, rt.alloc(), target, 9)?;
    }
    Ok(())
}

/// Checks the reply where the client's bytes and the upstream's are cut behind so many of each.
fn check_cut(
    rt: &impl Abort,
    alloc: Global,
    request: &[u8],
    upstream: &[u8],
    cuts: (u32, u32),
    wanted: &[u8],
) -> Result<(), Fail> {
    let dial = dial_of(alloc, link_of(alloc, upstream, cuts.1, 0, 0)?)?;
    let dial = serve(rt, alloc, request, cuts.0, dial, wanted)?;
    assert_eq!(rt; dial.ended().len(), 1);
    Ok(())
}

#[test]
fn the_replies_are_the_same_in_any_cutting(rt: HostRuntime) -> Result<(), Fail> {
    let alloc = rt.alloc();
    let passed = reply(alloc, b"200 OK", b"", b"Content-Length: 2\r\n\r\nok")?;
    let bad = bad_gateway(alloc)?;
    let request = right_request(alloc, b"GET", b"")?;
    for cut in 1..430 {
        let cuts = (cut, 1 + cut % 42);
        check_cut(&rt, alloc, request.bytes(), OK, cuts, passed.bytes())?;
        check_cut(&rt, alloc, request.bytes(), SHORT, cuts, bad.bytes())?;
        check_refused(&rt, alloc, b"/a", cut)?;
    }
    Ok(())
}
