//! A whole exchange, and the names of files. The secret, the response and the server's value are those of sha256sum.
use crate::{file_name, serve_connection};
use auth_decide::Site;
use auth_grammar::Octets;
use auth_io::{MemClock, MemFiles, MemLink, MemWords};
use connection_loop::{End, Served};
use cred_store::Store;
use nonce_shard::{JournalTable, Sizes};
use spaces_map::Spaces;
use std::alloc::Global;
use std::process::Abort;
use std::test::Fail;

fn store_text() -> &'static [u8] {
    b"authstore 1\nMufasa:http-auth@example.org:sha-256:7987c64c30e25f1b74be53f966b49b90f2808aa92faf9a00262392d7b4794232\n"
}

fn spaces_text() -> &'static [u8] {
    b"authspaces 1\n/ required SHA-256 http-auth@example.org\n"
}

fn bare_request() -> &'static [u8] {
    b"GET /dir/index.html HTTP/1.1\r\nHost: example.org\r\n\r\n"
}

fn right_request() -> &'static [u8] {
    b"GET /dir/index.html HTTP/1.1\r\nHost: example.org\r\nAuthorization: Digest username=\"Mufasa\", realm=\"http-auth@example.org\", uri=\"/dir/index.html\", algorithm=SHA-256, nonce=\"AQAAAAAAAAAAAAAAAAAAAAAAAAAAAAAAAAAA\", nc=00000001, cnonce=\"0a4f113b\", qop=auth, response=\"dd3586817418902404d6fed504c4bf69643a5f5b062cbf0c0fd0571a09a5bbc5\"\r\n\r\n"
}

fn challenge() -> &'static [u8] {
    b"HTTP/1.1 401 Unauthorized\r\nDate: Thu, 01 Jan 1970 00:00:00 GMT\r\nWWW-Authenticate: Digest realm=\"http-auth@example.org\", nonce=\"AQAAAAAAAAAAAAAAAAAAAAAAAAAAAAAAAAAA\", algorithm=SHA-256, qop=\"auth\"\r\nContent-Length: 13\r\n\r\nUnauthorized\n"
}

fn file_reply() -> &'static [u8] {
    b"HTTP/1.1 200 OK\r\nDate: Thu, 01 Jan 1970 00:00:00 GMT\r\nAuthentication-Info: qop=auth, rspauth=\"ceb5ce9c7c3fe2276ede765b72eeb2d579a981e78237e1fe680815e990cce089\", cnonce=\"0a4f113b\", nc=00000001\r\nContent-Length: 6\r\n\r\nhello\n"
}

fn stale_challenge() -> &'static [u8] {
    b"HTTP/1.1 401 Unauthorized\r\nDate: Thu, 01 Jan 1970 00:00:00 GMT\r\nWWW-Authenticate: Digest realm=\"http-auth@example.org\", nonce=\"AQAAAAAAAAAAAAEAAAAAAAAAAAAAAAAAAAAA\", stale=true, algorithm=SHA-256, qop=\"auth\"\r\nContent-Length: 13\r\n\r\nUnauthorized\n"
}

fn joined(alloc: Global, parts: &[&[u8]]) -> Result<Octets, Fail> {
    let mut text = Octets::new(alloc);
    for part in parts {
        text.extend(part)?;
    }
    Ok(text)
}

/// A connection that gives these bytes in pieces of seven, and takes what is written in pieces of three.
fn link_of(alloc: Global, input: Octets) -> Result<MemLink, Fail> {
    let none = vec![in alloc]?;
    let none_too = vec![in alloc]?;
    Ok(MemLink::new(
        alloc,
        input,
        vec![in alloc; 7; 999]?,
        vec![in alloc; 3; 999]?,
        none,
        none_too,
        999,
    )?)
}

fn site_of(alloc: Global) -> Result<Site, Fail> {
    Ok(Site {
        store: Store::read(alloc, store_text())?,
        spaces: Spaces::read(alloc, spaces_text())?,
        root: Octets::of(alloc, b"www")?,
    })
}

fn files_of(alloc: Global) -> Result<MemFiles, Fail> {
    let mut contents = Vec::new(alloc);
    let name = Octets::of(alloc, b"www/dir/index.html")?;
    contents.push((name, Octets::of(alloc, b"hello\n")?))?;
    Ok(MemFiles::new(alloc, contents, vec![in alloc]?, vec![in alloc]?))
}

#[test]
fn a_file_is_had_once_with_one_count(rt: HostRuntime) -> Result<(), Fail> {
    let alloc = rt.alloc();
    let input = joined(alloc, &[bare_request(), right_request(), right_request()])?;
    let wanted = joined(alloc, &[challenge(), file_reply(), stale_challenge()])?;
    let mut link = link_of(alloc, input)?;
    let mut table = JournalTable::open(alloc, 12, &Sizes::single())?;
    let served = serve_connection(
        alloc,
        &mut link,
        &mut files_of(alloc)?,
        &mut MemClock::new(vec![in alloc; 0]?),
        &mut MemWords::new(vec![in alloc; [0; 16]]?, vec![in alloc]?),
        &mut table,
        &site_of(alloc)?,
    );
    assert_eq!(rt; link.written(), wanted.bytes());
    let wanted = Served {
        requests: 3,
        admitted: 1,
        end: End::Ended,
    };
    assert_eq!(rt; served, Ok(wanted));
    Ok(())
}

fn check_name(
    rt: &impl Abort,
    alloc: Global,
    reads: bool,
    path: &[u8],
    wanted: Option<&[u8]>,
) -> Result<(), Fail> {
    let name = file_name(alloc, b"www", reads, path)?;
    assert_eq!(rt; name.as_ref().map(|name| name.bytes()), wanted);
    Ok(())
}

#[test]
fn a_path_names_a_file_below_the_root(rt: HostRuntime) -> Result<(), Fail> {
    let alloc = rt.alloc();
    check_name(&rt, alloc, true, b"/a/b", Some(b"www/a/b"))?;
    check_name(&rt, alloc, true, b"/", Some(b"www/index.html"))?;
    check_name(&rt, alloc, true, b"/a/", Some(b"www/a/index.html"))?;
    check_name(&rt, alloc, false, b"/a/", None)?;
    check_name(&rt, alloc, true, b"/a//b", None)?;
    check_name(&rt, alloc, true, b"/../b", None)?;
    check_name(&rt, alloc, true, b"/a%2e", None)?;
    check_name(&rt, alloc, true, b"*", None)?;
    Ok(())
}
