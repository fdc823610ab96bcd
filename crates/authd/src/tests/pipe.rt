//! `pipe`. The secret, the response and the server's value are those of sha256sum.
use super::{Failing, NONE, Ran, check, link_of, run_over};
use auth_grammar::Octets;
use std::alloc::Global;
use std::test::Fail;

pub(super) fn store_text() -> &'static [u8] {
    b"authstore 1\nMufasa:http-auth@example.org:sha-256:7987c64c30e25f1b74be53f966b49b90f2808aa92faf9a00262392d7b4794232\n"
}

pub(super) fn spaces_text() -> &'static [u8] {
    b"authspaces 1\n/ required SHA-256 http-auth@example.org\n"
}

pub(super) fn bare_request() -> &'static [u8] {
    b"GET /dir/index.html HTTP/1.1\r\nHost: example.org\r\n\r\n"
}

fn right_request() -> &'static [u8] {
    b"GET /dir/index.html HTTP/1.1\r\nHost: example.org\r\nAuthorization: Digest username=\"Mufasa\", realm=\"http-auth@example.org\", uri=\"/dir/index.html\", algorithm=SHA-256, nonce=\"AQAAAAAAAAAAAAAAAAAAAAAAAAAAAAAAAAAA\", nc=00000001, cnonce=\"0a4f113b\", qop=auth, response=\"dd3586817418902404d6fed504c4bf69643a5f5b062cbf0c0fd0571a09a5bbc5\"\r\n\r\n"
}

fn challenge() -> &'static [u8] {
    b"HTTP/1.1 401 Unauthorized\r\nDate: Thu, 01 Jan 1970 00:00:00 GMT\r\nWWW-Authenticate: Digest realm=\"http-auth@example.org\", nonce=\"AQAAAAAAAAAAAAAAAAAAAAAAAAAAAAAAAAAA\", algorithm=SHA-256, qop=\"auth\"\r\nContent-Length: 13\r\n\r\nUnauthorized\n"
}

fn file_reply() -> &'static [u8] {
    b"HTTP/1.1 200 OK\r\nDate: Thu, 01 Jan 1970 00:00:00 GMT\r\nAuthentication-Info: qop=auth, rspauth=\"ceb5ce9c7c3fe2276ede765b72eeb2d579a981e78237e1fe680815e990cce089\", cnonce=\"0a4f113b\", nc=00000001\r\nContent-Length: 6\r\n\r\nhello\n"
}

fn stale_challenge() -> &'static [u8] {
    b"HTTP/1.1 401 Unauthorized\r\nDate: Thu, 01 Jan 1970 00:00:00 GMT\r\nWWW-Authenticate: Digest realm=\"http-auth@example.org\", nonce=\"AQAAAAAAAAAAAAEAAAAAAAAAAAAAAAAAAAAA\", stale=true, algorithm=SHA-256, qop=\"auth\"\r\nContent-Length: 13\r\n\r\nUnauthorized\n"
}

fn joined(alloc: Global, parts: &[&[u8]]) -> Result<Octets, Fail> {
    let mut text = Octets::new(alloc);
    for part in parts {
        text.extend(part)?;
    }
    Ok(text)
}

/// Files, by a name and the bytes of each.
pub(super) fn files_of(
    alloc: Global,
    files: &[(&[u8], &[u8])],
) -> Result<Vec<(Octets, Octets)>, Fail> {
    let mut contents = Vec::new(alloc);
    for (name, bytes) in files {
        let name = Octets::of(alloc, name)?;
        contents.push((name, Octets::of(alloc, bytes)?))?;
    }
    Ok(contents)
}

/// Serves an input over the files of a site.
fn served(alloc: Global, input: &[u8], failing: Failing) -> Result<Ran, Fail> {
    let contents = files_of(
        alloc,
        &[
            (b"store", store_text()),
            (b"spaces", spaces_text()),
            (b"www/dir/index.html", b"hello\n"),
        ],
    )?;
    let mut link = link_of(alloc, input, 7, failing)?;
    run_over(alloc, "pipe store spaces www", &mut link, contents, failing)
}

#[test]
fn pipe_serves_a_file_once_with_one_count(rt: HostRuntime) -> Result<(), Fail> {
    let alloc = rt.alloc();
    let input = joined(alloc, &[bare_request(), right_request(), right_request()])?;
    let wanted = joined(alloc, &[challenge(), file_reply(), stale_challenge()])?;
    let whole = served(alloc, input.bytes(), NONE)?;
    check(&rt, &whole, 0, wanted.bytes(), b"", b"an exchange");
    let nothing = served(alloc, b"", NONE)?;
    check(&rt, &nothing, 0, b"", b"", b"an empty input");
    Ok(())
}

#[test]
fn pipe_tells_where_its_input_is_cut_off(rt: HostRuntime) -> Result<(), Fail> {
    let alloc = rt.alloc();
    let start = b"GET / HTTP/1.1\r\nAuthoriz";
    let first = served(alloc, start, NONE)?;
    check(&rt, &first, 5, b"", b"truncated at 0\n", start);
    let input = joined(alloc, &[bare_request(), start])?;
    let second = served(alloc, input.bytes(), NONE)?;
    check(&rt, &second, 5, challenge(), b"truncated at 51\n", start);
    Ok(())
}

#[test]
fn a_fault_ends_pipe_with_status_4(rt: HostRuntime) -> Result<(), Fail> {
    let alloc = rt.alloc();
    let draw = served(alloc, bare_request(), Failing { draw: 1, ..NONE })?;
    check(&rt, &draw, 4, b"", b"", b"a failing draw");
    let read = served(alloc, bare_request(), Failing { read: 1, ..NONE })?;
    check(&rt, &read, 4, b"", b"", b"a failing read");
    let write = served(alloc, bare_request(), Failing { write: 2, ..NONE })?;
    check(&rt, &write, 4, b"HTT", b"", b"a failing write");
    for file in 1..=2 {
        let unread = served(alloc, bare_request(), Failing { file, ..NONE })?;
        check(&rt, &unread, 4, b"", b"", b"a failing file");
        assert_eq!(rt; (unread.reads, unread.asked), (0, file as usize));
    }
    Ok(())
}

#[test]
fn a_fault_of_a_served_file_is_answered(rt: HostRuntime) -> Result<(), Fail> {
    let alloc = rt.alloc();
    let input = joined(alloc, &[bare_request(), right_request()])?;
    let ran = served(alloc, input.bytes(), Failing { file: 3, ..NONE })?;
    assert_eq!(rt; ran.status, 0);
    let behind = ran.link.bytes().strip_prefix(challenge());
    assert!(rt; behind.is_some_and(|reply| reply.starts_with(b"HTTP/1.1 500 ")));
    Ok(())
}

/// Serves a request over these files alone.
fn refused(alloc: Global, files: &[(&[u8], &[u8])]) -> Result<Ran, Fail> {
    let contents = files_of(alloc, files)?;
    let mut link = link_of(alloc, bare_request(), 7, NONE)?;
    run_over(alloc, "pipe store spaces www", &mut link, contents, NONE)
}

#[test]
fn a_site_is_refused_before_anything_is_read(rt: HostRuntime) -> Result<(), Fail> {
    let alloc = rt.alloc();
    let (store, spaces) = (
        (b"store".as_slice(), store_text()),
        (b"spaces".as_slice(), spaces_text()),
    );
    let no_store = refused(alloc, &[spaces])?;
    check(&rt, &no_store, 3, b"", b"store absent\n", b"no store");
    let no_spaces = refused(alloc, &[store])?;
    check(&rt, &no_spaces, 3, b"", b"spaces absent\n", b"no spaces");
    // the store's text is refused before the file of the spaces is read
    let bad_store = refused(alloc, &[(b"store", b"authstore 3\n")])?;
    check(&rt, &bad_store, 3, b"", b"store line 1\n", b"another store");
    let bad_spaces = refused(alloc, &[store, (b"spaces", b"")])?;
    check(
        &rt,
        &bad_spaces,
        3,
        b"",
        b"spaces line 1\n",
        b"other spaces",
    );
    for (ran, asked) in [
        (no_store, 1),
        (no_spaces, 2),
        (bad_store, 1),
        (bad_spaces, 2),
    ] {
        assert_eq!(rt; (ran.reads, ran.asked), (0, asked));
    }
    Ok(())
}

#[test]
fn a_store_of_more_than_16777216_bytes_is_refused(rt: HostRuntime) -> Result<(), Fail> {
    let alloc = rt.alloc();
    let large = vec![in alloc; 0; 16_777_217]?;
    let ran = refused(alloc, &[(b"store", large.as_slice())])?;
    check(&rt, &ran, 3, b"", b"file too long\n", b"a large store");
    assert_eq!(rt; (ran.reads, ran.asked), (0, 1));
    Ok(())
}
