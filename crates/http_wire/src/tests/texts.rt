//! Texts as they are written.
use crate::{Answer, Pair, PairList, continue_text, status_body, write_answer, write_request};
use auth_grammar::{Octets, OutOfMemory, Sequence};
use std::alloc::Global;
use std::test::Fail;

fn allow(alloc: Global) -> Result<PairList, OutOfMemory> {
    let mut lines = Sequence::new(alloc);
    lines.push(Pair {
        name: Octets::of(alloc, b"Allow")?,
        value: Octets::of(alloc, b"GET, HEAD, PUT")?,
    })?;
    Ok(lines)
}

fn answer(
    alloc: Global,
    status: u16,
    moment: u64,
    to_head: bool,
    close: bool,
) -> Result<Answer, OutOfMemory> {
    Ok(Answer {
        status,
        moment,
        lines: allow(alloc)?,
        body: status_body(alloc, status)?,
        to_head,
        close,
    })
}

/// A status, a moment, whether it is to HEAD, whether the connection closes, and the text. 784,111,777 is the moment of the
/// date in RFC 9110 section 5.6.7.
const REPLIES: [(u16, u64, bool, bool, &[u8]); 6] = [
    (
        405,
        784_111_777,
        false,
        true,
        b"HTTP/1.1 405 Method Not Allowed\r\nDate: Sun, 06 Nov 1994 08:49:37 GMT\r\nAllow: GET, HEAD, PUT\r\nContent-Length: 19\r\nConnection: close\r\n\r\nMethod Not Allowed\n",
    ),
    (
        405,
        0,
        true,
        false,
        b"HTTP/1.1 405 Method Not Allowed\r\nDate: Thu, 01 Jan 1970 00:00:00 GMT\r\nAllow: GET, HEAD, PUT\r\nContent-Length: 19\r\n\r\n",
    ),
    (
        204,
        253_402_300_799,
        true,
        false,
        b"HTTP/1.1 204 No Content\r\nDate: Fri, 31 Dec 9999 23:59:59 GMT\r\nAllow: GET, HEAD, PUT\r\n\r\n",
    ),
    (
        304,
        951_782_400,
        true,
        false,
        b"HTTP/1.1 304 \r\nDate: Tue, 29 Feb 2000 00:00:00 GMT\r\nAllow: GET, HEAD, PUT\r\n\r\n",
    ),
    (
        200,
        253_402_300_800,
        false,
        false,
        b"HTTP/1.1 200 OK\r\nAllow: GET, HEAD, PUT\r\nContent-Length: 3\r\n\r\nOK\n",
    ),
    (
        599,
        253_402_300_800,
        false,
        false,
        b"HTTP/1.1 599 \r\nAllow: GET, HEAD, PUT\r\nContent-Length: 1\r\n\r\n\n",
    ),
];

#[test]
fn replies_are_written(rt: HostRuntime) -> Result<(), Fail> {
    for (status, moment, to_head, close, want) in REPLIES {
        let answer = answer(rt.alloc(), status, moment, to_head, close)?;
        assert!(rt; answer.status >= 200);
        assert!(rt; answer.status <= 599);
        let text = write_answer(rt.alloc(), &answer)?;
        assert_eq!(rt; text.bytes(), want, "{status}");
    }
    assert_eq!(rt;
        continue_text(),
        b"HTTP/1.1 100 Continue\r\n\r\n".as_slice()
    );
    Ok(())
}

#[test]
fn requests_are_written(rt: HostRuntime) -> Result<(), Fail> {
    let rows: [(&[u8], &[u8], &[u8]); 3] = [
        (
            b"GET",
            b"",
            b"GET /a?b HTTP/1.1\r\nHost: h:80\r\nAllow: GET, HEAD, PUT\r\nConnection: close\r\n\r\n",
        ),
        (
            b"PUT",
            b"",
            b"PUT /a?b HTTP/1.1\r\nHost: h:80\r\nAllow: GET, HEAD, PUT\r\nContent-Length: 0\r\nConnection: close\r\n\r\n",
        ),
        (
            b"POST",
            b"ab",
            b"POST /a?b HTTP/1.1\r\nHost: h:80\r\nAllow: GET, HEAD, PUT\r\nContent-Length: 2\r\nConnection: close\r\n\r\nab",
        ),
    ];
    let lines = allow(rt.alloc())?;
    for (method, body, want) in rows.iter() {
        let text = write_request(rt.alloc(), method, b"/a?b", b"h:80", &lines, body)?;
        assert_eq!(rt; text.bytes(), *want);
    }
    Ok(())
}
