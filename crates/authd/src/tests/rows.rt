//! Whole exchanges by `pipe`, each whole and cut after every byte. The secrets, the responses and the server's values are
//! those of Python's `hashlib`.
use super::pipe::files_of;
use super::{NONE, check, link_of, run_over};
use auth_grammar::Octets;
use auth_io::MemLink;
use std::alloc::Global;
use std::process::Abort;
use std::test::Fail;

/// The texts of a site, what a client sends, and what it is to get.
#[derive(Clone, Copy)]
struct Exchange {
    spaces: &'static [u8],
    store: &'static [u8],
    input: &'static [u8],
    wanted: &'static [u8],
}

/// Serves an exchange over a new site, and checks what was written.
fn check_over(
    rt: &impl Abort,
    alloc: Global,
    exchange: &Exchange,
    mut link: MemLink,
    row: &[u8],
) -> Result<(), Fail> {
    let contents = files_of(
        alloc,
        &[
            (b"store", exchange.store),
            (b"spaces", exchange.spaces),
            (b"www/dir/index.html", b"hello\n"),
        ],
    )?;
    let ran = run_over(alloc, "pipe store spaces www", &mut link, contents, NONE)?;
    check(rt, &ran, 0, exchange.wanted, b"", row);
    Ok(())
}

/// A link that gives and takes one byte at a time.
fn slow_link_of(alloc: Global, input: &[u8]) -> Result<MemLink, Fail> {
    let none = vec![in alloc]?;
    let none_too = vec![in alloc]?;
    Ok(MemLink::new(
        alloc,
        Octets::of(alloc, input)?,
        vec![in alloc; 1; 2000]?,
        vec![in alloc; 1; 2000]?,
        none,
        none_too,
        3000,
    )?)
}

/// Serves an exchange that is cut after every byte in turn, and one that comes and goes byte by byte.
fn check_exchange(
    rt: &impl Abort,
    alloc: Global,
    exchange: &Exchange,
    row: &[u8],
) -> Result<(), Fail> {
    for cut in 1..=u32::try_from(exchange.input.len())? {
        let link = link_of(alloc, exchange.input, cut, NONE)?;
        check_over(rt, alloc, exchange, link, row)?;
    }
    let link = slow_link_of(alloc, exchange.input)?;
    check_over(rt, alloc, exchange, link, row)
}

/// A client that adds fields of its own.
fn everyday_client() -> Exchange {
    Exchange {
        spaces: b"authspaces 1\n/ required SHA-256 http-auth@example.org\n",
        store: b"authstore 1\nMufasa:http-auth@example.org:sha-256:7987c64c30e25f1b74be53f966b49b90f2808aa92faf9a00262392d7b4794232\n",
        input: b"GET /dir/index.html HTTP/1.1\r\nHost: example.org\r\n\r\nGET /dir/index.html HTTP/1.1\r\nHost: example.org\r\nAuthorization: Digest username=\"Mufasa\",realm=\"http-auth@example.org\",nonce=\"AQAAAAAAAAAAAAAAAAAAAAAAAAAAAAAAAAAA\",uri=\"/dir/index.html\",cnonce=\"MDAwMWI2YjQ=\",nc=00000001,qop=auth,algorithm=SHA-256,response=\"bc7b8b5f9ad9a1bc35131c29670e2e81f8f297b87f2ffa0c3f4d947fe961c272\"\r\nUser-Agent: curl/8.0\r\nAccept: */*\r\n\r\n",
        wanted: b"HTTP/1.1 401 Unauthorized\r\nDate: Thu, 01 Jan 1970 00:00:00 GMT\r\nWWW-Authenticate: Digest realm=\"http-auth@example.org\", nonce=\"AQAAAAAAAAAAAAAAAAAAAAAAAAAAAAAAAAAA\", algorithm=SHA-256, qop=\"auth\"\r\nContent-Length: 13\r\n\r\nUnauthorized\nHTTP/1.1 200 OK\r\nDate: Thu, 01 Jan 1970 00:00:00 GMT\r\nAuthentication-Info: qop=auth, rspauth=\"304948b2a95c6685896e5349464c2e32834163f87816f2ffe785a51ebaa92bda\", cnonce=\"MDAwMWI2YjQ=\", nc=00000001\r\nContent-Length: 6\r\n\r\nhello\n",
    }
}

/// The same requests, where the entry of the store is off.
fn switched_off() -> Exchange {
    Exchange {
        store: b"authstore 2\nMufasa:http-auth@example.org:sha-256:off:7987c64c30e25f1b74be53f966b49b90f2808aa92faf9a00262392d7b4794232\n",
        wanted: b"HTTP/1.1 401 Unauthorized\r\nDate: Thu, 01 Jan 1970 00:00:00 GMT\r\nWWW-Authenticate: Digest realm=\"http-auth@example.org\", nonce=\"AQAAAAAAAAAAAAAAAAAAAAAAAAAAAAAAAAAA\", algorithm=SHA-256, qop=\"auth\"\r\nContent-Length: 13\r\n\r\nUnauthorized\nHTTP/1.1 401 Unauthorized\r\nDate: Thu, 01 Jan 1970 00:00:00 GMT\r\nWWW-Authenticate: Digest realm=\"http-auth@example.org\", nonce=\"AQAAAAAAAAAAAAEAAAAAAAAAAAAAAAAAAAAA\", algorithm=SHA-256, qop=\"auth\"\r\nContent-Length: 13\r\n\r\nUnauthorized\n",
        ..everyday_client()
    }
}

/// A body that is waited for, without credentials.
fn continued_put() -> Exchange {
    Exchange {
        spaces: b"authspaces 1\n/ required SHA-256 http-auth@example.org\n",
        store: b"authstore 1\nMufasa:http-auth@example.org:sha-256:7987c64c30e25f1b74be53f966b49b90f2808aa92faf9a00262392d7b4794232\n",
        input: b"PUT /a HTTP/1.1\r\nHost: example.org\r\nExpect: 100-continue\r\nContent-Length: 3\r\n\r\nabc",
        wanted: b"HTTP/1.1 100 Continue\r\n\r\nHTTP/1.1 401 Unauthorized\r\nDate: Thu, 01 Jan 1970 00:00:00 GMT\r\nWWW-Authenticate: Digest realm=\"http-auth@example.org\", nonce=\"AQAAAAAAAAAAAAAAAAAAAAAAAAAAAAAAAAAA\", algorithm=SHA-256, qop=\"auth\"\r\nContent-Length: 13\r\n\r\nUnauthorized\n",
    }
}

/// A method that is not served, with credentials.
fn another_method() -> Exchange {
    Exchange {
        spaces: b"authspaces 1\n/ required SHA-256 http-auth@example.org\n",
        store: b"authstore 1\nMufasa:http-auth@example.org:sha-256:7987c64c30e25f1b74be53f966b49b90f2808aa92faf9a00262392d7b4794232\n",
        input: b"GET /dir/index.html HTTP/1.1\r\nHost: example.org\r\n\r\nDELETE /a HTTP/1.1\r\nHost: example.org\r\nAuthorization: Digest username=\"Mufasa\", realm=\"http-auth@example.org\", uri=\"/a\", algorithm=SHA-256, nonce=\"AQAAAAAAAAAAAAAAAAAAAAAAAAAAAAAAAAAA\", nc=00000001, cnonce=\"0a4f113b\", qop=auth, response=\"222772ec91d7fce19d2863eb4fd0ccd97fc63dd998ad6a1f6f2a22cae9398de8\"\r\n\r\n",
        wanted: b"HTTP/1.1 401 Unauthorized\r\nDate: Thu, 01 Jan 1970 00:00:00 GMT\r\nWWW-Authenticate: Digest realm=\"http-auth@example.org\", nonce=\"AQAAAAAAAAAAAAAAAAAAAAAAAAAAAAAAAAAA\", algorithm=SHA-256, qop=\"auth\"\r\nContent-Length: 13\r\n\r\nUnauthorized\nHTTP/1.1 405 Method Not Allowed\r\nDate: Thu, 01 Jan 1970 00:00:00 GMT\r\nAllow: GET, HEAD, PUT\r\nAuthentication-Info: qop=auth, rspauth=\"fe46496dcba1075f28daa8d757bdb82ac44070450e1df7dc069010fcd705eac6\", cnonce=\"0a4f113b\", nc=00000001\r\nContent-Length: 19\r\n\r\nMethod Not Allowed\n",
    }
}

/// The count zero, the greatest count, and a count far behind it.
fn counts() -> Exchange {
    Exchange {
        spaces: b"authspaces 1\n/ required SHA-256 http-auth@example.org\n",
        store: b"authstore 1\nMufasa:http-auth@example.org:sha-256:7987c64c30e25f1b74be53f966b49b90f2808aa92faf9a00262392d7b4794232\n",
        input: b"GET /dir/index.html HTTP/1.1\r\nHost: example.org\r\n\r\nGET /dir/index.html HTTP/1.1\r\nHost: example.org\r\nAuthorization: Digest username=\"Mufasa\", realm=\"http-auth@example.org\", uri=\"/dir/index.html\", algorithm=SHA-256, nonce=\"AQAAAAAAAAAAAAAAAAAAAAAAAAAAAAAAAAAA\", nc=00000000, cnonce=\"0a4f113b\", qop=auth, response=\"2676fde460b43e5db13bc5613dacfb06ad5b1b790ea66e7af70161db7ba14a70\"\r\n\r\nGET /dir/index.html HTTP/1.1\r\nHost: example.org\r\nAuthorization: Digest username=\"Mufasa\", realm=\"http-auth@example.org\", uri=\"/dir/index.html\", algorithm=SHA-256, nonce=\"AQAAAAAAAAAAAAAAAAAAAAAAAAAAAAAAAAAA\", nc=ffffffff, cnonce=\"0a4f113b\", qop=auth, response=\"34cc9944583bcd37367868dbcc784bbb148ba58a7bc5db603787ce5e2bdf8e35\"\r\n\r\nGET /dir/index.html HTTP/1.1\r\nHost: example.org\r\nAuthorization: Digest username=\"Mufasa\", realm=\"http-auth@example.org\", uri=\"/dir/index.html\", algorithm=SHA-256, nonce=\"AQAAAAAAAAAAAAAAAAAAAAAAAAAAAAAAAAAA\", nc=00000001, cnonce=\"0a4f113b\", qop=auth, response=\"dd3586817418902404d6fed504c4bf69643a5f5b062cbf0c0fd0571a09a5bbc5\"\r\n\r\n",
        wanted: b"HTTP/1.1 401 Unauthorized\r\nDate: Thu, 01 Jan 1970 00:00:00 GMT\r\nWWW-Authenticate: Digest realm=\"http-auth@example.org\", nonce=\"AQAAAAAAAAAAAAAAAAAAAAAAAAAAAAAAAAAA\", algorithm=SHA-256, qop=\"auth\"\r\nContent-Length: 13\r\n\r\nUnauthorized\nHTTP/1.1 400 Bad Request\r\nDate: Thu, 01 Jan 1970 00:00:00 GMT\r\nContent-Length: 12\r\n\r\nBad Request\nHTTP/1.1 200 OK\r\nDate: Thu, 01 Jan 1970 00:00:00 GMT\r\nAuthentication-Info: qop=auth, rspauth=\"ec3fc829ee85feff6ce6d38a0a0e0c40005a0b3307d0e6470c4a6e0fbe34f512\", cnonce=\"0a4f113b\", nc=ffffffff\r\nContent-Length: 6\r\n\r\nhello\nHTTP/1.1 401 Unauthorized\r\nDate: Thu, 01 Jan 1970 00:00:00 GMT\r\nWWW-Authenticate: Digest realm=\"http-auth@example.org\", nonce=\"AQAAAAAAAAAAAAEAAAAAAAAAAAAAAAAAAAAA\", stale=true, algorithm=SHA-256, qop=\"auth\"\r\nContent-Length: 13\r\n\r\nUnauthorized\n",
    }
}

/// Responses over bodies (`auth-int`): an empty one and one of three bytes, which is then read.
fn bodies() -> Exchange {
    Exchange {
        spaces: b"authspaces 1\n/ required SHA-256+int http-auth@example.org\n",
        store: b"authstore 1\nMufasa:http-auth@example.org:sha-256:7987c64c30e25f1b74be53f966b49b90f2808aa92faf9a00262392d7b4794232\n",
        input: b"PUT /a HTTP/1.1\r\nHost: example.org\r\n\r\nPUT /a HTTP/1.1\r\nHost: example.org\r\nAuthorization: Digest username=\"Mufasa\", realm=\"http-auth@example.org\", uri=\"/a\", algorithm=SHA-256, nonce=\"AQAAAAAAAAAAAAAAAAAAAAAAAAAAAAAAAAAA\", nc=00000001, cnonce=\"0a4f113b\", qop=auth-int, response=\"247ebb0cee6f5a9055d574a8818b6df0defa3e7d7f0d0436bc5c3d42e75431c3\"\r\n\r\nPUT /a HTTP/1.1\r\nHost: example.org\r\nAuthorization: Digest username=\"Mufasa\", realm=\"http-auth@example.org\", uri=\"/a\", algorithm=SHA-256, nonce=\"AQAAAAAAAAAAAAAAAAAAAAAAAAAAAAAAAAAA\", nc=00000002, cnonce=\"0a4f113b\", qop=auth-int, response=\"e08fe98f093c55c20a74b6f446b59cbc81202e3c2211ef599b025249c482dba4\"\r\nContent-Length: 3\r\n\r\nabcGET /a HTTP/1.1\r\nHost: example.org\r\nAuthorization: Digest username=\"Mufasa\", realm=\"http-auth@example.org\", uri=\"/a\", algorithm=SHA-256, nonce=\"AQAAAAAAAAAAAAAAAAAAAAAAAAAAAAAAAAAA\", nc=00000003, cnonce=\"0a4f113b\", qop=auth, response=\"0d00c95bb4212029d6204f2c627192e7e7d03d3f8d8d2ce3964be944b9d04c1e\"\r\n\r\n",
        wanted: b"HTTP/1.1 401 Unauthorized\r\nDate: Thu, 01 Jan 1970 00:00:00 GMT\r\nWWW-Authenticate: Digest realm=\"http-auth@example.org\", nonce=\"AQAAAAAAAAAAAAAAAAAAAAAAAAAAAAAAAAAA\", algorithm=SHA-256, qop=\"auth, auth-int\"\r\nContent-Length: 13\r\n\r\nUnauthorized\nHTTP/1.1 204 No Content\r\nDate: Thu, 01 Jan 1970 00:00:00 GMT\r\nAuthentication-Info: qop=auth-int, rspauth=\"e24d948739acd1e2f2af0ba3287be33ac8afdb2ed9c1c31e1974b25b75761ac7\", cnonce=\"0a4f113b\", nc=00000001\r\n\r\nHTTP/1.1 204 No Content\r\nDate: Thu, 01 Jan 1970 00:00:00 GMT\r\nAuthentication-Info: qop=auth-int, rspauth=\"d86e6903553d26e1ee992482db82f08656c29af46b0c335a8444be61c62e27f9\", cnonce=\"0a4f113b\", nc=00000002\r\n\r\nHTTP/1.1 200 OK\r\nDate: Thu, 01 Jan 1970 00:00:00 GMT\r\nAuthentication-Info: qop=auth, rspauth=\"9bff6d435620125be533fe5db9f9fd60e103b890238e9f851ec2fc5173ca1d53\", cnonce=\"0a4f113b\", nc=00000003\r\nContent-Length: 3\r\n\r\nabc",
    }
}

/// A session: its prime is the first cnonce.
fn sessions() -> Exchange {
    Exchange {
        spaces: b"authspaces 1\n/ required SHA-256-sess http-auth@example.org\n",
        store: b"authstore 1\nMufasa:http-auth@example.org:sha-256:7987c64c30e25f1b74be53f966b49b90f2808aa92faf9a00262392d7b4794232\n",
        input: b"GET /dir/index.html HTTP/1.1\r\nHost: example.org\r\n\r\nGET /dir/index.html HTTP/1.1\r\nHost: example.org\r\nAuthorization: Digest username=\"Mufasa\", realm=\"http-auth@example.org\", uri=\"/dir/index.html\", algorithm=SHA-256-sess, nonce=\"AQAAAAAAAAAAAAAAAAAAAAAAAAAAAAAAAAAA\", nc=00000001, cnonce=\"a\", qop=auth, response=\"479a523d027d3f8a8a5c59a446802026efe7a1cc0a2eeb09d6dae4f285ad4ea9\"\r\n\r\nGET /dir/index.html HTTP/1.1\r\nHost: example.org\r\nAuthorization: Digest username=\"Mufasa\", realm=\"http-auth@example.org\", uri=\"/dir/index.html\", algorithm=SHA-256-sess, nonce=\"AQAAAAAAAAAAAAAAAAAAAAAAAAAAAAAAAAAA\", nc=00000002, cnonce=\"b\", qop=auth, response=\"3d0b616537139fe74bb3d3d19174c271bacb0fff0469236c95b6014638b87229\"\r\n\r\nGET /dir/index.html HTTP/1.1\r\nHost: example.org\r\nAuthorization: Digest username=\"Mufasa\", realm=\"http-auth@example.org\", uri=\"/dir/index.html\", algorithm=SHA-256-sess, nonce=\"AQAAAAAAAAAAAAAAAAAAAAAAAAAAAAAAAAAA\", nc=00000003, cnonce=\"b\", qop=auth, response=\"fc91e2cf66ee9cb232206e6b5121ff0d2549e7b2e9cd5fba733f9375848cb099\"\r\n\r\n",
        wanted: b"HTTP/1.1 401 Unauthorized\r\nDate: Thu, 01 Jan 1970 00:00:00 GMT\r\nWWW-Authenticate: Digest realm=\"http-auth@example.org\", nonce=\"AQAAAAAAAAAAAAAAAAAAAAAAAAAAAAAAAAAA\", algorithm=SHA-256-sess, qop=\"auth\"\r\nContent-Length: 13\r\n\r\nUnauthorized\nHTTP/1.1 200 OK\r\nDate: Thu, 01 Jan 1970 00:00:00 GMT\r\nAuthentication-Info: qop=auth, rspauth=\"5c4f9c5e35b59cf24035795c55bd36ffca8b31c3e45bc799319ea905788363a5\", cnonce=\"a\", nc=00000001\r\nContent-Length: 6\r\n\r\nhello\nHTTP/1.1 200 OK\r\nDate: Thu, 01 Jan 1970 00:00:00 GMT\r\nAuthentication-Info: qop=auth, rspauth=\"f2f95bd47481c4308c40939b4d14c8fb1db9e4717fa099f6b0255e6d870bca84\", cnonce=\"b\", nc=00000002\r\nContent-Length: 6\r\n\r\nhello\nHTTP/1.1 401 Unauthorized\r\nDate: Thu, 01 Jan 1970 00:00:00 GMT\r\nWWW-Authenticate: Digest realm=\"http-auth@example.org\", nonce=\"AQAAAAAAAAAAAAEAAAAAAAAAAAAAAAAAAAAA\", algorithm=SHA-256-sess, qop=\"auth\"\r\nContent-Length: 13\r\n\r\nUnauthorized\n",
    }
}

/// Credentials are optional, and none come.
fn optional() -> Exchange {
    Exchange {
        spaces: b"authspaces 1\n/ optional SHA-256 r\n",
        store: b"authstore 1\nMufasa:http-auth@example.org:sha-256:7987c64c30e25f1b74be53f966b49b90f2808aa92faf9a00262392d7b4794232\n",
        input: b"GET /dir/index.html HTTP/1.1\r\nHost: example.org\r\n\r\n",
        wanted: b"HTTP/1.1 200 OK\r\nDate: Thu, 01 Jan 1970 00:00:00 GMT\r\nOptional-WWW-Authenticate: Digest realm=\"r\", nonce=\"AQAAAAAAAAAAAAAAAAAAAAAAAAAAAAAAAAAA\", algorithm=SHA-256, qop=\"auth\"\r\nContent-Length: 6\r\n\r\nhello\n",
    }
}

/// A nonce of one space does not serve in another.
fn spaces() -> Exchange {
    Exchange {
        spaces: b"authspaces 1\n/ required SHA-256 a\n/b required SHA-256 b\n",
        store: b"authstore 1\nMufasa:a:sha-256:749ecf386aae71d5492fd6cc7f270e22ef6e5bb9e2d1e4ebe7e515b69c35b7c4\nMufasa:b:sha-256:af2386c8a4b7108bbfa443369444114c62db514eb6da3c6b5f198d8cfd269523\n",
        input: b"GET /x HTTP/1.1\r\nHost: example.org\r\n\r\nGET /b/x HTTP/1.1\r\nHost: example.org\r\nAuthorization: Digest username=\"Mufasa\", realm=\"b\", uri=\"/b/x\", algorithm=SHA-256, nonce=\"AQAAAAAAAAAAAAAAAAAAAAAAAAAAAAAAAAAA\", nc=00000001, cnonce=\"0a4f113b\", qop=auth, response=\"ffb10607fb3ca80867a7d531d6e31b38cd3aba63f635b50be880712f6704e2b9\"\r\n\r\nGET /b/x HTTP/1.1\r\nHost: example.org\r\n\r\n",
        wanted: b"HTTP/1.1 401 Unauthorized\r\nDate: Thu, 01 Jan 1970 00:00:00 GMT\r\nWWW-Authenticate: Digest realm=\"a\", nonce=\"AQAAAAAAAAAAAAAAAAAAAAAAAAAAAAAAAAAA\", algorithm=SHA-256, qop=\"auth\"\r\nContent-Length: 13\r\n\r\nUnauthorized\nHTTP/1.1 401 Unauthorized\r\nDate: Thu, 01 Jan 1970 00:00:00 GMT\r\nWWW-Authenticate: Digest realm=\"b\", domain=\"/b\", nonce=\"AQAAAAAAAAAAAAEAAAAAAAAAAAAAAAAAAAAA\", stale=true, algorithm=SHA-256, qop=\"auth\"\r\nContent-Length: 13\r\n\r\nUnauthorized\nHTTP/1.1 401 Unauthorized\r\nDate: Thu, 01 Jan 1970 00:00:00 GMT\r\nWWW-Authenticate: Digest realm=\"b\", domain=\"/b\", nonce=\"AQAAAAAAAAAAAAIAAAAAAAAAAAAAAAAAAAAA\", algorithm=SHA-256, qop=\"auth\"\r\nContent-Length: 13\r\n\r\nUnauthorized\n",
    }
}

/// Nobody replaces a file without being admitted.
fn open_put() -> Exchange {
    Exchange {
        spaces: b"authspaces 1\n/ none\n",
        store: b"authstore 1\nMufasa:http-auth@example.org:sha-256:7987c64c30e25f1b74be53f966b49b90f2808aa92faf9a00262392d7b4794232\n",
        input: b"PUT /x HTTP/1.1\r\nHost: example.org\r\n\r\n",
        wanted: b"HTTP/1.1 403 Forbidden\r\nDate: Thu, 01 Jan 1970 00:00:00 GMT\r\nContent-Length: 10\r\n\r\nForbidden\n",
    }
}

/// Credentials out of grammar, on two lines, and of another scheme.
fn faulty_credentials() -> Exchange {
    Exchange {
        spaces: b"authspaces 1\n/ required SHA-256 http-auth@example.org\n",
        store: b"authstore 1\nMufasa:http-auth@example.org:sha-256:7987c64c30e25f1b74be53f966b49b90f2808aa92faf9a00262392d7b4794232\n",
        input: b"GET /dir/index.html HTTP/1.1\r\nHost: example.org\r\nAuthorization: Digest =x\r\n\r\nGET /dir/index.html HTTP/1.1\r\nHost: example.org\r\nAuthorization: Basic YTpi\r\nAuthorization: Basic YTpi\r\n\r\nGET /dir/index.html HTTP/1.1\r\nHost: example.org\r\nAuthorization: Basic YTpi\r\n\r\n",
        wanted: b"HTTP/1.1 400 Bad Request\r\nDate: Thu, 01 Jan 1970 00:00:00 GMT\r\nContent-Length: 12\r\n\r\nBad Request\nHTTP/1.1 400 Bad Request\r\nDate: Thu, 01 Jan 1970 00:00:00 GMT\r\nContent-Length: 12\r\n\r\nBad Request\nHTTP/1.1 401 Unauthorized\r\nDate: Thu, 01 Jan 1970 00:00:00 GMT\r\nWWW-Authenticate: Digest realm=\"http-auth@example.org\", nonce=\"AQAAAAAAAAAAAAAAAAAAAAAAAAAAAAAAAAAA\", algorithm=SHA-256, qop=\"auth\"\r\nContent-Length: 13\r\n\r\nUnauthorized\n",
    }
}

/// Two kinds are offered; names may come hashed; a HEAD has no body.
fn kinds() -> Exchange {
    Exchange {
        spaces: b"authspaces 1\n/ required MD5,SHA-512-256+hash http-auth@example.org\n",
        store: b"authstore 1\nMufasa:http-auth@example.org:md5:3d78807defe7de2157e2b0b6573a855f\nMufasa:http-auth@example.org:sha-512-256:fb174f5c3c7802721517cae13b98e2b8dae2e0118cb705d94ee29946319204ce\n",
        input: b"GET /dir/index.html HTTP/1.1\r\nHost: example.org\r\n\r\nGET /dir/index.html HTTP/1.1\r\nHost: example.org\r\nAuthorization: Digest username=\"Mufasa\", realm=\"http-auth@example.org\", uri=\"/dir/index.html\", algorithm=MD5, nonce=\"AQAAAAAAAAAAAAAAAAAAAAAAAAAAAAAAAAAA\", nc=00000001, cnonce=\"0a4f113b\", qop=auth, response=\"e929c604200df6bbce004f4e000fae23\"\r\n\r\nGET /dir/index.html HTTP/1.1\r\nHost: example.org\r\nAuthorization: Digest username=\"e2dfabd1a96ddf867710b653b6e6857d1f147086de7d7ef79dcd249859872570\", realm=\"http-auth@example.org\", uri=\"/dir/index.html\", algorithm=SHA-512-256, nonce=\"AQAAAAAAAAAAAAAAAAAAAAAAAAAAAAAAAAAA\", nc=00000002, cnonce=\"0a4f113b\", qop=auth, response=\"7b09090487c08fb14de448b20a23da5db526ba0c6190ecb328be9ebf77cb124a\", userhash=true\r\n\r\nHEAD /dir/index.html HTTP/1.1\r\nHost: example.org\r\nAuthorization: Digest username=\"Mufasa\", realm=\"http-auth@example.org\", uri=\"/dir/index.html\", algorithm=MD5, nonce=\"AQAAAAAAAAAAAAAAAAAAAAAAAAAAAAAAAAAA\", nc=00000003, cnonce=\"0a4f113b\", qop=auth, response=\"ad422127af795764fcc4c92b3bf0ad70\"\r\n\r\n",
        wanted: b"HTTP/1.1 401 Unauthorized\r\nDate: Thu, 01 Jan 1970 00:00:00 GMT\r\nWWW-Authenticate: Digest realm=\"http-auth@example.org\", nonce=\"AQAAAAAAAAAAAAAAAAAAAAAAAAAAAAAAAAAA\", algorithm=MD5, qop=\"auth\"\r\nWWW-Authenticate: Digest realm=\"http-auth@example.org\", nonce=\"AQAAAAAAAAAAAAAAAAAAAAAAAAAAAAAAAAAA\", algorithm=SHA-512-256, qop=\"auth\", userhash=true\r\nContent-Length: 13\r\n\r\nUnauthorized\nHTTP/1.1 200 OK\r\nDate: Thu, 01 Jan 1970 00:00:00 GMT\r\nAuthentication-Info: qop=auth, rspauth=\"24f8ca15dca5104e1bc9ee1005749d96\", cnonce=\"0a4f113b\", nc=00000001\r\nContent-Length: 6\r\n\r\nhello\nHTTP/1.1 200 OK\r\nDate: Thu, 01 Jan 1970 00:00:00 GMT\r\nAuthentication-Info: qop=auth, rspauth=\"7f2792f39f1ff0d4bc282be282d9a778dcb711ba5e2838b6ead0fd5a68d7b066\", cnonce=\"0a4f113b\", nc=00000002\r\nContent-Length: 6\r\n\r\nhello\nHTTP/1.1 200 OK\r\nDate: Thu, 01 Jan 1970 00:00:00 GMT\r\nAuthentication-Info: qop=auth, rspauth=\"7de17b775cfe566cece1fb92566bfd2d\", cnonce=\"0a4f113b\", nc=00000003\r\nContent-Length: 6\r\n\r\n",
    }
}

/// An encoded name, and one that is not printable.
fn encoded_name() -> Exchange {
    Exchange {
        spaces: b"authspaces 1\n/ required SHA-256 http-auth@example.org\n",
        store: b"authstore 1\nJ D:http-auth@example.org:sha-256:f8e04a16b36292cd0ffdacdabc0b6f3d541c1d8ec8fa10a568f7fa9e29c68d48\n",
        input: b"GET /dir/index.html HTTP/1.1\r\nHost: example.org\r\n\r\nGET /dir/index.html HTTP/1.1\r\nHost: example.org\r\nAuthorization: Digest username*=UTF-8''J%20D, realm=\"http-auth@example.org\", uri=\"/dir/index.html\", algorithm=SHA-256, nonce=\"AQAAAAAAAAAAAAAAAAAAAAAAAAAAAAAAAAAA\", nc=00000001, cnonce=\"0a4f113b\", qop=auth, response=\"c7c9660c3833a7fb61b5174390358a4dc343f8db633c1e4c0d154246036e0846\"\r\n\r\nGET /dir/index.html HTTP/1.1\r\nHost: example.org\r\nAuthorization: Digest username*=UTF-8''J%C3%A4, realm=\"http-auth@example.org\", uri=\"/dir/index.html\", algorithm=SHA-256, nonce=\"AQAAAAAAAAAAAAAAAAAAAAAAAAAAAAAAAAAA\", nc=00000002, cnonce=\"0a4f113b\", qop=auth, response=\"68042354cec820957a170ec333f1fda0975a4cca58b0599906f5c05525fa38c0\"\r\n\r\n",
        wanted: b"HTTP/1.1 401 Unauthorized\r\nDate: Thu, 01 Jan 1970 00:00:00 GMT\r\nWWW-Authenticate: Digest realm=\"http-auth@example.org\", nonce=\"AQAAAAAAAAAAAAAAAAAAAAAAAAAAAAAAAAAA\", algorithm=SHA-256, qop=\"auth\"\r\nContent-Length: 13\r\n\r\nUnauthorized\nHTTP/1.1 200 OK\r\nDate: Thu, 01 Jan 1970 00:00:00 GMT\r\nAuthentication-Info: qop=auth, rspauth=\"55f90054ec4241101a505dc8e4d311af6797e33f7b44a81cf4603acf0e8108fe\", cnonce=\"0a4f113b\", nc=00000001\r\nContent-Length: 6\r\n\r\nhello\nHTTP/1.1 400 Bad Request\r\nDate: Thu, 01 Jan 1970 00:00:00 GMT\r\nContent-Length: 12\r\n\r\nBad Request\n",
    }
}

/// Two offers make two challenges.
fn offers() -> Exchange {
    Exchange {
        spaces: b"authspaces 1\n/ required MD5,SHA-256-sess+int+hash r\n",
        store: b"authstore 1\nMufasa:http-auth@example.org:sha-256:7987c64c30e25f1b74be53f966b49b90f2808aa92faf9a00262392d7b4794232\n",
        input: b"GET /dir/index.html HTTP/1.1\r\nHost: example.org\r\n\r\n",
        wanted: b"HTTP/1.1 401 Unauthorized\r\nDate: Thu, 01 Jan 1970 00:00:00 GMT\r\nWWW-Authenticate: Digest realm=\"r\", nonce=\"AQAAAAAAAAAAAAAAAAAAAAAAAAAAAAAAAAAA\", algorithm=MD5, qop=\"auth\"\r\nWWW-Authenticate: Digest realm=\"r\", nonce=\"AQAAAAAAAAAAAAAAAAAAAAAAAAAAAAAAAAAA\", algorithm=SHA-256-sess, qop=\"auth, auth-int\", userhash=true\r\nContent-Length: 13\r\n\r\nUnauthorized\n",
    }
}

/// A hash that is no name's.
fn unknown_hash() -> Exchange {
    Exchange {
        spaces: b"authspaces 1\n/ required SHA-256 http-auth@example.org\n",
        store: b"authstore 1\nMufasa:http-auth@example.org:sha-256:7987c64c30e25f1b74be53f966b49b90f2808aa92faf9a00262392d7b4794232\n",
        input: b"GET /dir/index.html HTTP/1.1\r\nHost: example.org\r\n\r\nGET /dir/index.html HTTP/1.1\r\nHost: example.org\r\nAuthorization: Digest username=\"91eb92f9be579fe43d3a1204aef388796722cd10e214ebe93123005a3885452f\", realm=\"http-auth@example.org\", uri=\"/dir/index.html\", algorithm=SHA-256, nonce=\"AQAAAAAAAAAAAAAAAAAAAAAAAAAAAAAAAAAA\", nc=00000001, cnonce=\"0a4f113b\", qop=auth, response=\"dd3586817418902404d6fed504c4bf69643a5f5b062cbf0c0fd0571a09a5bbc5\", userhash=true\r\n\r\n",
        wanted: b"HTTP/1.1 401 Unauthorized\r\nDate: Thu, 01 Jan 1970 00:00:00 GMT\r\nWWW-Authenticate: Digest realm=\"http-auth@example.org\", nonce=\"AQAAAAAAAAAAAAAAAAAAAAAAAAAAAAAAAAAA\", algorithm=SHA-256, qop=\"auth\"\r\nContent-Length: 13\r\n\r\nUnauthorized\nHTTP/1.1 401 Unauthorized\r\nDate: Thu, 01 Jan 1970 00:00:00 GMT\r\nWWW-Authenticate: Digest realm=\"http-auth@example.org\", nonce=\"AQAAAAAAAAAAAAEAAAAAAAAAAAAAAAAAAAAA\", algorithm=SHA-256, qop=\"auth\"\r\nContent-Length: 13\r\n\r\nUnauthorized\n",
    }
}

/// A `uri` that is not the target makes no call of the table.
fn other_target() -> Exchange {
    Exchange {
        spaces: b"authspaces 1\n/ required SHA-256 http-auth@example.org\n",
        store: b"authstore 1\nMufasa:http-auth@example.org:sha-256:7987c64c30e25f1b74be53f966b49b90f2808aa92faf9a00262392d7b4794232\n",
        input: b"GET /dir/index.html HTTP/1.1\r\nHost: example.org\r\n\r\nGET /dir/index.html HTTP/1.1\r\nHost: example.org\r\nAuthorization: Digest username=\"Mufasa\", realm=\"http-auth@example.org\", uri=\"/b\", algorithm=SHA-256, nonce=\"AQAAAAAAAAAAAAAAAAAAAAAAAAAAAAAAAAAA\", nc=00000001, cnonce=\"0a4f113b\", qop=auth, response=\"ea4b8e7a17d48d7012d78d3a661a9124a9d803c28bf03a42164b3c6f6bdaa947\"\r\n\r\nGET /dir/index.html HTTP/1.1\r\nHost: example.org\r\n\r\n",
        wanted: b"HTTP/1.1 401 Unauthorized\r\nDate: Thu, 01 Jan 1970 00:00:00 GMT\r\nWWW-Authenticate: Digest realm=\"http-auth@example.org\", nonce=\"AQAAAAAAAAAAAAAAAAAAAAAAAAAAAAAAAAAA\", algorithm=SHA-256, qop=\"auth\"\r\nContent-Length: 13\r\n\r\nUnauthorized\nHTTP/1.1 400 Bad Request\r\nDate: Thu, 01 Jan 1970 00:00:00 GMT\r\nContent-Length: 12\r\n\r\nBad Request\nHTTP/1.1 401 Unauthorized\r\nDate: Thu, 01 Jan 1970 00:00:00 GMT\r\nWWW-Authenticate: Digest realm=\"http-auth@example.org\", nonce=\"AQAAAAAAAAAAAAEAAAAAAAAAAAAAAAAAAAAA\", algorithm=SHA-256, qop=\"auth\"\r\nContent-Length: 13\r\n\r\nUnauthorized\n",
    }
}

/// A challenge, the file, and the same request sent again.
fn one_count() -> Exchange {
    Exchange {
        spaces: b"authspaces 1\n/ required SHA-256 http-auth@example.org\n",
        store: b"authstore 1\nMufasa:http-auth@example.org:sha-256:7987c64c30e25f1b74be53f966b49b90f2808aa92faf9a00262392d7b4794232\n",
        input: b"GET /dir/index.html HTTP/1.1\r\nHost: example.org\r\n\r\nGET /dir/index.html HTTP/1.1\r\nHost: example.org\r\nAuthorization: Digest username=\"Mufasa\", realm=\"http-auth@example.org\", uri=\"/dir/index.html\", algorithm=SHA-256, nonce=\"AQAAAAAAAAAAAAAAAAAAAAAAAAAAAAAAAAAA\", nc=00000001, cnonce=\"0a4f113b\", qop=auth, response=\"dd3586817418902404d6fed504c4bf69643a5f5b062cbf0c0fd0571a09a5bbc5\"\r\n\r\nGET /dir/index.html HTTP/1.1\r\nHost: example.org\r\nAuthorization: Digest username=\"Mufasa\", realm=\"http-auth@example.org\", uri=\"/dir/index.html\", algorithm=SHA-256, nonce=\"AQAAAAAAAAAAAAAAAAAAAAAAAAAAAAAAAAAA\", nc=00000001, cnonce=\"0a4f113b\", qop=auth, response=\"dd3586817418902404d6fed504c4bf69643a5f5b062cbf0c0fd0571a09a5bbc5\"\r\n\r\n",
        wanted: b"HTTP/1.1 401 Unauthorized\r\nDate: Thu, 01 Jan 1970 00:00:00 GMT\r\nWWW-Authenticate: Digest realm=\"http-auth@example.org\", nonce=\"AQAAAAAAAAAAAAAAAAAAAAAAAAAAAAAAAAAA\", algorithm=SHA-256, qop=\"auth\"\r\nContent-Length: 13\r\n\r\nUnauthorized\nHTTP/1.1 200 OK\r\nDate: Thu, 01 Jan 1970 00:00:00 GMT\r\nAuthentication-Info: qop=auth, rspauth=\"ceb5ce9c7c3fe2276ede765b72eeb2d579a981e78237e1fe680815e990cce089\", cnonce=\"0a4f113b\", nc=00000001\r\nContent-Length: 6\r\n\r\nhello\nHTTP/1.1 401 Unauthorized\r\nDate: Thu, 01 Jan 1970 00:00:00 GMT\r\nWWW-Authenticate: Digest realm=\"http-auth@example.org\", nonce=\"AQAAAAAAAAAAAAEAAAAAAAAAAAAAAAAAAAAA\", stale=true, algorithm=SHA-256, qop=\"auth\"\r\nContent-Length: 13\r\n\r\nUnauthorized\n",
    }
}

/// A message with two hosts.
fn two_hosts() -> Exchange {
    Exchange {
        spaces: b"authspaces 1\n/ required SHA-256 http-auth@example.org\n",
        store: b"authstore 1\nMufasa:http-auth@example.org:sha-256:7987c64c30e25f1b74be53f966b49b90f2808aa92faf9a00262392d7b4794232\n",
        input: b"GET / HTTP/1.1\r\nHost: a\r\nHost: b\r\n\r\n",
        wanted: b"HTTP/1.1 400 Bad Request\r\nDate: Thu, 01 Jan 1970 00:00:00 GMT\r\nContent-Length: 12\r\nConnection: close\r\n\r\nBad Request\n",
    }
}

#[test]
fn the_decision_is_answered_by_its_reply(rt: HostRuntime) -> Result<(), Fail> {
    let alloc = rt.alloc();
    check_exchange(&rt, alloc, &everyday_client(), b"everyday client")?;
    check_exchange(&rt, alloc, &continued_put(), b"continued put")?;
    check_exchange(&rt, alloc, &another_method(), b"another method")?;
    check_exchange(&rt, alloc, &open_put(), b"open put")?;
    check_exchange(&rt, alloc, &two_hosts(), b"two hosts")?;
    Ok(())
}

#[test]
fn a_count_serves_once(rt: HostRuntime) -> Result<(), Fail> {
    let alloc = rt.alloc();
    check_exchange(&rt, alloc, &one_count(), b"one count")?;
    Ok(())
}

#[test]
fn counts_are_told_apart(rt: HostRuntime) -> Result<(), Fail> {
    let alloc = rt.alloc();
    check_exchange(&rt, alloc, &counts(), b"counts")?;
    Ok(())
}

#[test]
fn a_session_keeps_its_prime(rt: HostRuntime) -> Result<(), Fail> {
    let alloc = rt.alloc();
    check_exchange(&rt, alloc, &sessions(), b"sessions")?;
    Ok(())
}

#[test]
fn bodies_are_covered_by_their_responses(rt: HostRuntime) -> Result<(), Fail> {
    let alloc = rt.alloc();
    check_exchange(&rt, alloc, &bodies(), b"bodies")?;
    Ok(())
}

#[test]
fn spaces_are_kept_apart(rt: HostRuntime) -> Result<(), Fail> {
    let alloc = rt.alloc();
    check_exchange(&rt, alloc, &optional(), b"optional")?;
    check_exchange(&rt, alloc, &spaces(), b"spaces")?;
    Ok(())
}

#[test]
fn each_offer_is_taken(rt: HostRuntime) -> Result<(), Fail> {
    let alloc = rt.alloc();
    check_exchange(&rt, alloc, &kinds(), b"kinds")?;
    Ok(())
}

#[test]
fn faulty_credentials_end_no_connection(rt: HostRuntime) -> Result<(), Fail> {
    let alloc = rt.alloc();
    check_exchange(&rt, alloc, &faulty_credentials(), b"faulty credentials")?;
    check_exchange(&rt, alloc, &encoded_name(), b"encoded name")?;
    Ok(())
}

#[test]
fn no_credentials_serve_for_others(rt: HostRuntime) -> Result<(), Fail> {
    let alloc = rt.alloc();
    check_exchange(&rt, alloc, &offers(), b"offers")?;
    check_exchange(&rt, alloc, &unknown_hash(), b"unknown hash")?;
    check_exchange(&rt, alloc, &switched_off(), b"switched off")?;
    check_exchange(&rt, alloc, &other_target(), b"other target")?;
    Ok(())
}

/// The reply to a head that is too long.
fn too_long() -> &'static [u8] {
    b"HTTP/1.1 431 Request Header Fields Too Large\r\nDate: Thu, 01 Jan 1970 00:00:00 GMT\r\nContent-Length: 32\r\nConnection: close\r\n\r\nRequest Header Fields Too Large\n"
}

#[test]
fn a_head_of_16384_bytes_without_an_end_is_refused(rt: HostRuntime) -> Result<(), Fail> {
    let alloc = rt.alloc();
    let mut input = Octets::of(alloc, b"GET /")?;
    for _ in 0..16_379 {
        input.push(b'a')?;
    }
    let exchange = everyday_client();
    let contents = files_of(
        alloc,
        &[(b"store", exchange.store), (b"spaces", exchange.spaces)],
    )?;
    let mut link = link_of(alloc, input.bytes(), 7, NONE)?;
    let ran = run_over(alloc, "pipe store spaces www", &mut link, contents, NONE)?;
    check(&rt, &ran, 0, too_long(), b"", b"a long head");
    Ok(())
}
