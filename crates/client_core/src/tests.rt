//! Whole exchanges of a client. The responses and the server's values are those of Python's `hashlib`.
ghost use Rattle.std.specs.Prelude.{◌≤◌, IfOk, length};

use crate::client::Client;
use crate::outcome::{ClientError, Outcome};
use crate::request::{OutRequest, Sent};
use auth_grammar::{ItemList, Octets, Quoting, Role, write_items};
use http_wire::{NextResponse, Response, ResponseFeed};
use std::alloc::Global;
use std::test::Fail;

/// In a line: the target of a request, the credentials that go with it, and the status of the response, its lines with
/// an `&` between each two, and what it means. A line `new` begins another client.
const ROWS: &str = r#"new
/dir/index.html | - | 401 | WWW-Authenticate: Basic realm="x" | NoOffer { kinds: 1 }
/dir/index.html | - | 401 | WWW-Authenticate: Digest =x | Malformed { at: 7 }
/dir/index.html | - | 401 | WWW-Authenticate: Basic realm="x" & WWW-Authenticate: Digest realm="y", realm="z" | Malformed { at: 34 }
/dir/index.html | - | 407 | Proxy-Authenticate: Digest =x | OneWay
/dir/index.html | - | 401 | A: b | NoOffer { kinds: 0 }
/dir/index.html | - | 401 | WWW-Authenticate: Digest realm="http-auth@example.org", nonce="AQAAAAAAAAAAAAAAAAAAAAAAAAAAAAAAAAAA", algorithm=SHA-256, qop="auth" | Retry
/dir/index.html | Digest username="Mufasa", realm="http-auth@example.org", nonce="AQAAAAAAAAAAAAAAAAAAAAAAAAAAAAAAAAAA", uri="/dir/index.html", response="4a5ccab0739be9fe64c104a4bbbab8b110f3b3d490e37528902b66ad462b27e4", algorithm=SHA-256, cnonce="AAAAAAAAAAAAAAAAAAAAAA==", qop=auth, nc=00000001 | 200 | Authentication-Info: qop=auth, rspauth="e954bab100728af1746fb13401d7aaa535bd4002ede5f5ece0a75af159c73d28", cnonce="AAAAAAAAAAAAAAAAAAAAAA==", nc=00000001 | Mutual
/dir/index.html | Digest username="Mufasa", realm="http-auth@example.org", nonce="AQAAAAAAAAAAAAAAAAAAAAAAAAAAAAAAAAAA", uri="/dir/index.html", response="7b3fcf9b4fdd1c55c908bcb3b5cdb4353350f089f897958333acbdf07aa2395f", algorithm=SHA-256, cnonce="AAAAAAAAAAAAAAAAAAAAAA==", qop=auth, nc=00000002 | 200 | Authentication-Info: rspauth="5ae944b3e722bfcbccb76860616ffccb3923067668686ed4f0e55de4d0857149" | Mutual
/dir/index.html | Digest username="Mufasa", realm="http-auth@example.org", nonce="AQAAAAAAAAAAAAAAAAAAAAAAAAAAAAAAAAAA", uri="/dir/index.html", response="f3bce082ce2123414086eae7e23a36b6493c63dfc585a2a4806faa36ef173825", algorithm=SHA-256, cnonce="AAAAAAAAAAAAAAAAAAAAAA==", qop=auth, nc=00000003 | 404 | Authentication-Info: nextnonce="AQAAAAAAAAAAAAEAAAAAAAAAAAAAAAAAAAAA", qop=auth, rspauth="565fc9183fb766752c1f75187097eafda866c6e7f8d4ad47602a26b22887f6cb", cnonce="AAAAAAAAAAAAAAAAAAAAAA==", nc=00000003 | Mutual
/dir/index.html | Digest username="Mufasa", realm="http-auth@example.org", nonce="AQAAAAAAAAAAAAEAAAAAAAAAAAAAAAAAAAAA", uri="/dir/index.html", response="929c2c2030d3dd7ef4c1aa2da1f6bdc8176fa78f6c3431477755529390f7ddb9", algorithm=SHA-256, cnonce="AAAAAAAAAAAAAAAAAAAAAA==", qop=auth, nc=00000001 | 200 | A: b | OneWay
/dir/index.html | Digest username="Mufasa", realm="http-auth@example.org", nonce="AQAAAAAAAAAAAAEAAAAAAAAAAAAAAAAAAAAA", uri="/dir/index.html", response="941eff97d93f81aba391776993ffaaea1d57a74ed64e179203eff3ba0367cf09", algorithm=SHA-256, cnonce="AAAAAAAAAAAAAAAAAAAAAA==", qop=auth, nc=00000002 | 200 | Authentication-Info: qop=auth | OneWay
/dir/index.html | Digest username="Mufasa", realm="http-auth@example.org", nonce="AQAAAAAAAAAAAAEAAAAAAAAAAAAAAAAAAAAA", uri="/dir/index.html", response="4ca88d217f311b592005a4ddcc10c3e8e7534d58432c4dbcb9dc4d806e87a10b", algorithm=SHA-256, cnonce="AAAAAAAAAAAAAAAAAAAAAA==", qop=auth, nc=00000003 | 200 | Authentication-Info: qop=x | Malformed { at: 0 }
/dir/index.html | Digest username="Mufasa", realm="http-auth@example.org", nonce="AQAAAAAAAAAAAAEAAAAAAAAAAAAAAAAAAAAA", uri="/dir/index.html", response="d0125565616d9453911ddb5001ca10c173bd48d8000c035e1b7b632fd0d16228", algorithm=SHA-256, cnonce="AAAAAAAAAAAAAAAAAAAAAA==", qop=auth, nc=00000004 | 200 | Authentication-Info: =x | Malformed { at: 0 }
/dir/index.html | Digest username="Mufasa", realm="http-auth@example.org", nonce="AQAAAAAAAAAAAAEAAAAAAAAAAAAAAAAAAAAA", uri="/dir/index.html", response="63803ba3edaea5caf54773a177a82b33b5699ce4d0647510f1a3cc4bef764357", algorithm=SHA-256, cnonce="AAAAAAAAAAAAAAAAAAAAAA==", qop=auth, nc=00000005 | 200 | Authentication-Info: nextnonce="AQAAAAAAAAAAAAAAAAAAAAAAAAAAAAAAAAAA", qop=auth, rspauth="bfeb7bd8a67ddf6f21ad248aa206a6f4764b254957d8cade0c088979bb26ed94", cnonce="AAAAAAAAAAAAAAAAAAAAAA==", nc=00000005 | Mutual
/dir/index.html | Digest username="Mufasa", realm="http-auth@example.org", nonce="AQAAAAAAAAAAAAAAAAAAAAAAAAAAAAAAAAAA", uri="/dir/index.html", response="c71e86ddf7ab5091582e48b256c98c0be793084de6049567b875c550c1e38986", algorithm=SHA-256, cnonce="AAAAAAAAAAAAAAAAAAAAAA==", qop=auth, nc=00000004 | 200 | Authentication-Info: qop=auth, rspauth="de495be0a3edf071e07d3af5c33309f5147c97865bf473b7640b881c9e62d6d0", cnonce="AAAAAAAAAAAAAAAAAAAAAA==", nc=00000004 | WrongProof
/dir/index.html | - | 200 | Authentication-Info: qop=auth, rspauth="de495be0a3edf071e07d3af5c33309f5147c97865bf473b7640b881c9e62d6d2", cnonce="AAAAAAAAAAAAAAAAAAAAAA==", nc=00000004 | OneWay
/dir/index.html | - | 401 | WWW-Authenticate: Digest realm="http-auth@example.org", nonce="AQAAAAAAAAAAAAAAAAAAAAAAAAAAAAAAAAAA", algorithm=SHA-256, qop="auth" | Retry
/dir/index.html | Digest username="Mufasa", realm="http-auth@example.org", nonce="AQAAAAAAAAAAAAAAAAAAAAAAAAAAAAAAAAAA", uri="/dir/index.html", response="b8e1beab3ea8c5ceb563745331de371b0839fcc7e7920adf0255108fbee76e64", algorithm=SHA-256, cnonce="AAAAAAAAAAAAAAAAAAAAAA==", qop=auth, nc=00000005 | 200 | Authentication-Info: qop=auth, rspauth="de495be0a3edf071e07d3af5c33309f5147c97865bf473b7640b881c9e62d6d2", cnonce="AAAAAAAAAAAAAAAAAAAAAA==", nc=00000004 | WrongProof
new
/dir/index.html | - | 401 | WWW-Authenticate: Digest realm="http-auth@example.org", nonce="m", algorithm=MD5, qop="auth" & WWW-Authenticate: Digest realm="r", nonce="n" & WWW-Authenticate: Digest realm="http-auth@example.org", nonce="a", algorithm=SHA-512-256, qop="auth" & WWW-Authenticate: Digest realm="http-auth@example.org", nonce="b", algorithm=SHA-512-256-sess, qop="auth" & WWW-Authenticate: Digest realm="http-auth@example.org", nonce="c", algorithm=SHA-256, qop="auth" | Retry
/dir/index.html | Digest username="Mufasa", realm="http-auth@example.org", nonce="a", uri="/dir/index.html", response="2937cf2a33cb9fa487c3392b73546b25ee50791925adaa8cefdc69a8d6635982", algorithm=SHA-512-256, cnonce="AAAAAAAAAAAAAAAAAAAAAA==", qop=auth, nc=00000001 | 200 | Authentication-Info: qop=auth, rspauth="9ee854f9c8b84b4865c06945eb06a952a8a99fde490a6c69567de7ce21617eb3", cnonce="AAAAAAAAAAAAAAAAAAAAAA==", nc=00000001 | Mutual
new
/dir/index.html | - | 401 | WWW-Authenticate: Digest realm="http-auth@example.org", nonce="AQAAAAAAAAAAAAAAAAAAAAAAAAAAAAAAAAAA", algorithm=SHA-256, qop="auth" | Retry
/dir/index.html | Digest username="Mufasa", realm="http-auth@example.org", nonce="AQAAAAAAAAAAAAAAAAAAAAAAAAAAAAAAAAAA", uri="/dir/index.html", response="4a5ccab0739be9fe64c104a4bbbab8b110f3b3d490e37528902b66ad462b27e4", algorithm=SHA-256, cnonce="AAAAAAAAAAAAAAAAAAAAAA==", qop=auth, nc=00000001 | 401 | WWW-Authenticate: Digest realm="http-auth@example.org", nonce="s1", stale=true, algorithm=SHA-256, qop="auth" | Retry
/dir/index.html | Digest username="Mufasa", realm="http-auth@example.org", nonce="s1", uri="/dir/index.html", response="5e6bcb3c2bf2eddfda5b3b0a4d826a229fec18c92378c82abaf68ccce6a08d03", algorithm=SHA-256, cnonce="AAAAAAAAAAAAAAAAAAAAAA==", qop=auth, nc=00000001 | 401 | WWW-Authenticate: Digest realm="http-auth@example.org", nonce="x", stale=true, algorithm=MD5, qop="auth" & WWW-Authenticate: Digest realm="http-auth@example.org", nonce="s2", stale=true, algorithm=SHA-256, qop="auth" | Retry
/dir/index.html | Digest username="Mufasa", realm="http-auth@example.org", nonce="s2", uri="/dir/index.html", response="e9394bc93661678a6b8e81e836a823bb408dda42e7d1a2bca8d967e09f7d225f", algorithm=SHA-256, cnonce="AAAAAAAAAAAAAAAAAAAAAA==", qop=auth, nc=00000001 | 401 | WWW-Authenticate: Digest realm="http-auth@example.org", nonce="s3", stale=true, algorithm=SHA-256, qop="auth" | Refused
/dir/index.html | - | 401 | WWW-Authenticate: Digest realm="http-auth@example.org", nonce="s3", stale=true, algorithm=SHA-256, qop="auth" | Retry
/dir/index.html | Digest username="Mufasa", realm="http-auth@example.org", nonce="s3", uri="/dir/index.html", response="cb51361391b2351a4577f99cc508d061faf4056bd946508ff2c27fadace3a6b1", algorithm=SHA-256, cnonce="AAAAAAAAAAAAAAAAAAAAAA==", qop=auth, nc=00000001 | 500 | A: b | OneWay
/dir/index.html | Digest username="Mufasa", realm="http-auth@example.org", nonce="s3", uri="/dir/index.html", response="73de748d379e84f2580d44621033cacb660063fae2c878892e426b335a0e3196", algorithm=SHA-256, cnonce="AAAAAAAAAAAAAAAAAAAAAA==", qop=auth, nc=00000002 | 401 | WWW-Authenticate: Digest realm="http-auth@example.org", nonce="s4", stale=true, algorithm=SHA-256, qop="auth" | Retry
/dir/index.html | Digest username="Mufasa", realm="http-auth@example.org", nonce="s4", uri="/dir/index.html", response="37f6c41f71b9b1b573878344f016d1cce38e4782ac3c176ff6b893c8969455d2", algorithm=SHA-256, cnonce="AAAAAAAAAAAAAAAAAAAAAA==", qop=auth, nc=00000001 | 401 | WWW-Authenticate: Digest realm="other", nonce="s5", stale=true, algorithm=SHA-256, qop="auth" | Refused
new
/dir/index.html | - | 401 | WWW-Authenticate: Digest realm="http-auth@example.org", nonce="AQAAAAAAAAAAAAAAAAAAAAAAAAAAAAAAAAAA", algorithm=SHA-256, qop="auth" | Retry
/dir/index.html | Digest username="Mufasa", realm="http-auth@example.org", nonce="AQAAAAAAAAAAAAAAAAAAAAAAAAAAAAAAAAAA", uri="/dir/index.html", response="4a5ccab0739be9fe64c104a4bbbab8b110f3b3d490e37528902b66ad462b27e4", algorithm=SHA-256, cnonce="AAAAAAAAAAAAAAAAAAAAAA==", qop=auth, nc=00000001 | 401 | WWW-Authenticate: Digest realm="http-auth@example.org", nonce="s1", algorithm=SHA-256, qop="auth" | Refused
new
/dir/index.html | - | 401 | WWW-Authenticate: Digest realm="http-auth@example.org", nonce="AQAAAAAAAAAAAAAAAAAAAAAAAAAAAAAAAAAA", opaque="o", algorithm=SHA-256-sess, qop="auth-int", userhash=true | Retry
/dir/index.html | Digest username="a947aad205e80e429958a387394944c6b496301e79f89d35a4cc23b6ee12b5b6", realm="http-auth@example.org", nonce="AQAAAAAAAAAAAAAAAAAAAAAAAAAAAAAAAAAA", uri="/dir/index.html", response="26887f8330fe322fa936e3a7f1dd3646a1f831e55301c30b0950200e83308870", algorithm=SHA-256-sess, cnonce="AAAAAAAAAAAAAAAAAAAAAA==", opaque="o", qop=auth-int, nc=00000001, userhash=true | 200 | Authentication-Info: nextnonce="n", qop=auth-int, rspauth="cce3b1bf1efb2df5623be925c343f0a431d90d8b5caafa766598d7d564e3372c", cnonce="AAAAAAAAAAAAAAAAAAAAAA==", nc=00000001 | Mutual
/dir/index.html | Digest username="a947aad205e80e429958a387394944c6b496301e79f89d35a4cc23b6ee12b5b6", realm="http-auth@example.org", nonce="n", uri="/dir/index.html", response="67bf3e536cc1dbd00979679b7b7b1cdbd09aa45daf9a4e9244908ffafac0858a", algorithm=SHA-256-sess, cnonce="AAAAAAAAAAAAAAAAAAAAAA==", opaque="o", qop=auth-int, nc=00000001, userhash=true | 200 | Authentication-Info: qop=auth-int, rspauth="b46e71b7c5c582413e9464987b4cfdbc07f22b4ddb7d155d358e8bb9a7af5874", cnonce="AAAAAAAAAAAAAAAAAAAAAA==", nc=00000001 | Mutual
new
/a/x | - | 401 | WWW-Authenticate: Digest realm="http-auth@example.org", domain="/a http://example.org/b", nonce="AQAAAAAAAAAAAAAAAAAAAAAAAAAAAAAAAAAA", algorithm=SHA-256, qop="auth" | Retry
/a/x | Digest username="Mufasa", realm="http-auth@example.org", nonce="AQAAAAAAAAAAAAAAAAAAAAAAAAAAAAAAAAAA", uri="/a/x", response="182cd371a1db962b485d4855d08a963222032ab031628419e03a7a2d7c5123ed", algorithm=SHA-256, cnonce="AAAAAAAAAAAAAAAAAAAAAA==", qop=auth, nc=00000001 | 200 | Authentication-Info: qop=auth, rspauth="26d90a776f4a96cfaacc9f4c4fff25e21df15b85564cef45b3e3045532f3aec0", cnonce="AAAAAAAAAAAAAAAAAAAAAA==", nc=00000001 | Mutual
/c | - | 200 | A: b | OneWay
/b | Digest username="Mufasa", realm="http-auth@example.org", nonce="AQAAAAAAAAAAAAAAAAAAAAAAAAAAAAAAAAAA", uri="/b", response="d68cb2bd4c8c6cbe525c5facf52a54ba21f1d2020e40806f99107179ad9f97b2", algorithm=SHA-256, cnonce="AAAAAAAAAAAAAAAAAAAAAA==", qop=auth, nc=00000002 | 200 | Authentication-Info: qop=auth, rspauth="ff43d0c707e2e38ce4521efa6afda16fbca911ecd72fe904c61de34189696772", cnonce="AAAAAAAAAAAAAAAAAAAAAA==", nc=00000002 | Mutual
new
/dir/index.html | - | 401 | WWW-Authenticate: Digest realm="http-auth@example.org", nonce="AQAAAAAAAAAAAAAAAAAAAAAAAAAAAAAAAAAA", algorithm=SHA-256, qop="auth" & WWW-Authenticate: SCRAM-SHA-256 realm="r", sr="AQAAAAAAAAAAAAAAAAAAAAAAAAAAAAAAAAAA", ttl=300 | Retry
/dir/index.html | SCRAM-SHA-256 realm="r", data="biwsbj1NdWZhc2Escj1BQUFBQUFBQUFBQUFBQUFBQUFBQUFBPT0=" | 401 | WWW-Authenticate: SCRAM-SHA-256 sid="S", data="cj14QUFBQUFBQUFBQUFBQUFBQUFBQUFBQT09JWh2WURwV1VhMlJhVENBZnV4RklsailoTmxGJGswLHM9VzIyWmFKMFNOWTdzb0VzVUVqYjZnUT09LGk9NDA5Ng==" | Malformed { at: 0 }
/dir/index.html | SCRAM-SHA-256 realm="r", data="biwsbj1NdWZhc2Escj1BQUFBQUFBQUFBQUFBQUFBQUFBQUFBPT0=" | 401 | WWW-Authenticate: SCRAM-SHA-256 sid="S", data="cj1BQUFBQUFBQUFBQUFBQUFBQUFBQUFBPT0scz1XMjJaYUowU05ZN3NvRXNVRWpiNmdRPT0saT00MDk2" | Malformed { at: 0 }
/dir/index.html | SCRAM-SHA-256 realm="r", data="biwsbj1NdWZhc2Escj1BQUFBQUFBQUFBQUFBQUFBQUFBQUFBPT0=" | 401 | WWW-Authenticate: SCRAM-SHA-256 sid="S", data="cj1BQUFBQUFBQUFBQUFBQUFBQUFBQUFBPT0laHZZRHBXVWEyUmFUQ0FmdXhGSWxqKWhObEYkazAscz1XMjJaYUowU05ZN3NvRXNVRWpiNmdRPT0saT00MDk1" | Malformed { at: 0 }
/dir/index.html | SCRAM-SHA-256 realm="r", data="biwsbj1NdWZhc2Escj1BQUFBQUFBQUFBQUFBQUFBQUFBQUFBPT0=" | 401 | WWW-Authenticate: SCRAM-SHA-256 sid="S", data="cj1BQUFBQUFBQUFBQUFBQUFBQUFBQUFBPT0laHZZRHBXVWEyUmFUQ0FmdXhGSWxqKWhObEYkazAscz1XMjJaYUowU05ZN3NvRXNVRWpiNmdRPT0saT0xMDAwMDAx" | Malformed { at: 0 }
/dir/index.html | SCRAM-SHA-256 realm="r", data="biwsbj1NdWZhc2Escj1BQUFBQUFBQUFBQUFBQUFBQUFBQUFBPT0=" | 401 | WWW-Authenticate: SCRAM-SHA-256 sid="S", data="==" | Malformed { at: 0 }
/dir/index.html | SCRAM-SHA-256 realm="r", data="biwsbj1NdWZhc2Escj1BQUFBQUFBQUFBQUFBQUFBQUFBQUFBPT0=" | 401 | WWW-Authenticate: SCRAM-SHA-256 realm="r", sr="AQAAAAAAAAAAAAAAAAAAAAAAAAAAAAAAAAAA", ttl=300 | Refused
/dir/index.html | SCRAM-SHA-256 realm="r", data="biwsbj1NdWZhc2Escj1BQUFBQUFBQUFBQUFBQUFBQUFBQUFBPT0=" | 200 | A: b | OneWay
/dir/index.html | SCRAM-SHA-256 realm="r", data="biwsbj1NdWZhc2Escj1BQUFBQUFBQUFBQUFBQUFBQUFBQUFBPT0=" | 401 | WWW-Authenticate: Basic a="b" & WWW-Authenticate: SCRAM-SHA-256 sid="S", data="cj1BQUFBQUFBQUFBQUFBQUFBQUFBQUFBPT0laHZZRHBXVWEyUmFUQ0FmdXhGSWxqKWhObEYkazAscz1XMjJaYUowU05ZN3NvRXNVRWpiNmdRPT0saT00MDk2" | Retry
/dir/index.html | SCRAM-SHA-256 sid="S", data="Yz1iaXdzLHI9QUFBQUFBQUFBQUFBQUFBQUFBQUFBQT09JWh2WURwV1VhMlJhVENBZnV4RklsailoTmxGJGswLHA9dWpjNk10eW9WUG9QQWJNcVNVR3U3M0txSDJidHZRbzkvWUs5TkVYaVQrWT0=" | 200 | Authentication-Info: sid="S", data="dj1Wa0pEbDc0Rk1ZZkRhTmlPNFZGbkM3alBEeDZxQmhKTnBuajFTR2xvMnVZPQ==" | Mutual
/dir/index.html | SCRAM-SHA-256 sid="S", data="Yz1iaXdzLHI9QUFBQUFBQUFBQUFBQUFBQUFBQUFBQT09MUFRQUFBQUFBQUFBQUFBQUFBQUFBQUFBQUFBQUFBQUFBQUFBQSxwPUNhWWNqODh1Y3RaQXRHNDh0NlBaNU1LZXUzZEdEVlhsbGsrb285eVBQdTA9" | 200 | Authentication-Info: sid="S", data="dj1ndHViZXJvSVdSYzdFSlZ2MzZWdmx4Q3JXU1ExdTN5ZzVIa2dRWkg4N0JBPQ==" | Mutual
/dir/index.html | SCRAM-SHA-256 sid="S", data="Yz1iaXdzLHI9QUFBQUFBQUFBQUFBQUFBQUFBQUFBQT09MkFRQUFBQUFBQUFBQUFBQUFBQUFBQUFBQUFBQUFBQUFBQUFBQSxwPVpEcGpjYlk2RzJ0aExIU2xFR2ZETkZzRXQyUHdGb0ZiV0l4U1A2OHpTR289" | 200 | A: b | OneWay
/dir/index.html | SCRAM-SHA-256 sid="S", data="Yz1iaXdzLHI9QUFBQUFBQUFBQUFBQUFBQUFBQUFBQT09M0FRQUFBQUFBQUFBQUFBQUFBQUFBQUFBQUFBQUFBQUFBQUFBQSxwPVlRWU43WHV2c3F0N2tBTGt3OEJBa0FCS0FqbTZQSlpGQzU5Z2V4MHNwaVU9" | 401 | WWW-Authenticate: SCRAM-SHA-256 realm="r", sr="AQAAAAAAAAAAAAEAAAAAAAAAAAAAAAAAAAAA", ttl=000000009, stale=true | Retry
/dir/index.html | SCRAM-SHA-256 realm="r", data="biwsbj1NdWZhc2Escj1BQUFBQUFBQUFBQUFBQUFBQUFBQUFBPT0=" | 401 | WWW-Authenticate: SCRAM-SHA-256 sid="T", data="cj1BQUFBQUFBQUFBQUFBQUFBQUFBQUFBPT0laHZZRHBXVWEyUmFUQ0FmdXhGSWxqKWhObEYkazAscz1XMjJaYUowU05ZN3NvRXNVRWpiNmdRPT0saT00MDk2" | Retry
/dir/index.html | SCRAM-SHA-256 sid="T", data="Yz1iaXdzLHI9QUFBQUFBQUFBQUFBQUFBQUFBQUFBQT09JWh2WURwV1VhMlJhVENBZnV4RklsailoTmxGJGswLHA9dWpjNk10eW9WUG9QQWJNcVNVR3U3M0txSDJidHZRbzkvWUs5TkVYaVQrWT0=" | 200 | Authentication-Info: sid="T", data="dj1Wa0pEbDc0Rk1ZZkRhTmlPNFZGbkM3alBEeDZxQmhKTnBuajFTR2xvMnVZPQ==" | Mutual
/dir/index.html | SCRAM-SHA-256 sid="T", data="Yz1iaXdzLHI9QUFBQUFBQUFBQUFBQUFBQUFBQUFBQT09MUFRQUFBQUFBQUFBQUFBRUFBQUFBQUFBQUFBQUFBQUFBQUFBQSxwPVVSenZSMTU4QUlSTGoxNDJMZEdFMVRLMlNOL2JzRUI4L25qeGtzVnM0a289" | 200 | Authentication-Info: sid="T", data="dj15NUpKdVJGa3M0MEhYRTJnZzBmMitVWTh4dDR4cW1EL0xreExUZWJCeGFrPQ==" | Mutual
/dir/index.html | SCRAM-SHA-256 sid="T", data="Yz1iaXdzLHI9QUFBQUFBQUFBQUFBQUFBQUFBQUFBQT09MkFRQUFBQUFBQUFBQUFBRUFBQUFBQUFBQUFBQUFBQUFBQUFBQSxwPU5uMm9GVDVnQ01XUHJ6T2NLTlU0a2VnOUtrWk1mNUErTDBzWTN0cWJCWGM9" | 200 | Authentication-Info: sid="S", data="dj15NUpKdVJGa3M0MEhYRTJnZzBmMitVWTh4dDR4cW1EL0xreExUZWJCeGFrPQ==" | WrongProof
/dir/index.html | SCRAM-SHA-256 realm="r", data="biwsbj1NdWZhc2Escj1BQUFBQUFBQUFBQUFBQUFBQUFBQUFBPT0=" | 401 | WWW-Authenticate: SCRAM-SHA-256 sid="S", data="cj1BQUFBQUFBQUFBQUFBQUFBQUFBQUFBPT0laHZZRHBXVWEyUmFUQ0FmdXhGSWxqKWhObEYkazAscz1XMjJaYUowU05ZN3NvRXNVRWpiNmdRPT0saT00MDk2" | Retry
/dir/index.html | SCRAM-SHA-256 sid="S", data="Yz1iaXdzLHI9QUFBQUFBQUFBQUFBQUFBQUFBQUFBQT09JWh2WURwV1VhMlJhVENBZnV4RklsailoTmxGJGswLHA9dWpjNk10eW9WUG9QQWJNcVNVR3U3M0txSDJidHZRbzkvWUs5TkVYaVQrWT0=" | 200 | Authentication-Info: sid="S", data="dj1Wa0pEbDc0Rk1ZZkRhTmlPNFZGbkM3alBEeDZxQmhKTnBuajFTR2xvMnVjPQ==" | WrongProof
/dir/index.html | SCRAM-SHA-256 realm="r", data="biwsbj1NdWZhc2Escj1BQUFBQUFBQUFBQUFBQUFBQUFBQUFBPT0=" | 401 | WWW-Authenticate: SCRAM-SHA-256 sid="S", data="cj1BQUFBQUFBQUFBQUFBQUFBQUFBQUFBPT0laHZZRHBXVWEyUmFUQ0FmdXhGSWxqKWhObEYkazAscz1XMjJaYUowU05ZN3NvRXNVRWpiNmdRPT0saT00MDk2" | Retry
/dir/index.html | SCRAM-SHA-256 sid="S", data="Yz1iaXdzLHI9QUFBQUFBQUFBQUFBQUFBQUFBQUFBQT09JWh2WURwV1VhMlJhVENBZnV4RklsailoTmxGJGswLHA9dWpjNk10eW9WUG9QQWJNcVNVR3U3M0txSDJidHZRbzkvWUs5TkVYaVQrWT0=" | 200 | Authentication-Info: data="ZT1vdGhlci1lcnJvcg==" | WrongProof
/dir/index.html | SCRAM-SHA-256 realm="r", data="biwsbj1NdWZhc2Escj1BQUFBQUFBQUFBQUFBQUFBQUFBQUFBPT0=" | 401 | WWW-Authenticate: SCRAM-SHA-256 sid="S", data="cj1BQUFBQUFBQUFBQUFBQUFBQUFBQUFBPT0laHZZRHBXVWEyUmFUQ0FmdXhGSWxqKWhObEYkazAscz1XMjJaYUowU05ZN3NvRXNVRWpiNmdRPT0saT00MDk2" | Retry
/dir/index.html | SCRAM-SHA-256 sid="S", data="Yz1iaXdzLHI9QUFBQUFBQUFBQUFBQUFBQUFBQUFBQT09JWh2WURwV1VhMlJhVENBZnV4RklsailoTmxGJGswLHA9dWpjNk10eW9WUG9QQWJNcVNVR3U3M0txSDJidHZRbzkvWUs5TkVYaVQrWT0=" | 401 | WWW-Authenticate: SCRAM-SHA-256 realm="r", sr="AQAAAAAAAAAAAAAAAAAAAAAAAAAAAAAAAAAA", ttl=300 | Refused
new
/dir/index.html | - | 401 | WWW-Authenticate: SCRAM-SHA-256 realm="r", sr="AQAAAAAAAAAAAAAAAAAAAAAAAAAAAAAAAAAA", ttl=0 | Retry
/dir/index.html | SCRAM-SHA-256 realm="r", data="biwsbj1NdWZhc2Escj1BQUFBQUFBQUFBQUFBQUFBQUFBQUFBPT0=" | 401 | WWW-Authenticate: SCRAM-SHA-256 sid="S", data="cj1BQUFBQUFBQUFBQUFBQUFBQUFBQUFBPT0laHZZRHBXVWEyUmFUQ0FmdXhGSWxqKWhObEYkazAscz1XMjJaYUowU05ZN3NvRXNVRWpiNmdRPT0saT00MDk2" | Retry
/dir/index.html | SCRAM-SHA-256 sid="S", data="Yz1iaXdzLHI9QUFBQUFBQUFBQUFBQUFBQUFBQUFBQT09JWh2WURwV1VhMlJhVENBZnV4RklsailoTmxGJGswLHA9dWpjNk10eW9WUG9QQWJNcVNVR3U3M0txSDJidHZRbzkvWUs5TkVYaVQrWT0=" | 200 | Authentication-Info: sid="S", data="dj1Wa0pEbDc0Rk1ZZkRhTmlPNFZGbkM3alBEeDZxQmhKTnBuajFTR2xvMnVZPQ==" | Mutual
/dir/index.html | SCRAM-SHA-256 realm="r", data="biwsbj1NdWZhc2Escj1BQUFBQUFBQUFBQUFBQUFBQUFBQUFBPT0=" | 401 | WWW-Authenticate: SCRAM-SHA-256 sid="S" | Refused"#;

/// A challenge.
const FIRST: &str =
    r#"/dir/index.html | - | 401 | WWW-Authenticate: Digest realm="http-auth@example.org", nonce="AQAAAAAAAAAAAAAAAAAAAAAAAAAAAAAAAAAA", algorithm=SHA-256, qop="auth" | Retry"#;

/// The answer to the 512th request with one nonce, and the credentials behind it.
const LATE: (&str, &str) = (
    r#"Authentication-Info: nextnonce="AQAAAAAAAAAAAAEAAAAAAAAAAAAAAAAAAAAA", qop=auth, rspauth="09fe45377c5553836b4b618a72c8596082a6d0f633d8c868ef177a89ccaeb3b3", cnonce="AAAAAAAAAAAAAAAAAAAAAA==", nc=00000200"#,
    r#"Digest username="Mufasa", realm="http-auth@example.org", nonce="AQAAAAAAAAAAAAEAAAAAAAAAAAAAAAAAAAAA", uri="/dir/index.html", response="929c2c2030d3dd7ef4c1aa2da1f6bdc8176fa78f6c3431477755529390f7ddb9", algorithm=SHA-256, cnonce="AAAAAAAAAAAAAAAAAAAAAA==", qop=auth, nc=00000001"#,
);

fn mufasa(alloc: Global) -> Result<Client, ClientError> {
    Client::new(alloc, Role::Origin, b"Mufasa", b"Circle of Life")
}

fn request_of(alloc: Global, target: &str) -> Result<OutRequest, Fail>
    ensures { IfOk result (λ request. 1 ≤ length request.target) }
{
    if target.len() < 1 {
        return Err("no target")?;
    }
    Ok(OutRequest {
        method: Octets::of(alloc, b"GET")?,
        authority: Octets::of(alloc, b"example.org")?,
        target: Octets::of(alloc, target.as_bytes())?,
        body: Octets::new(alloc),
    })
}

fn response_of(alloc: Global, status: &str, lines: &str) -> Result<Response, Fail> {
    let mut text = Octets::of(alloc, b"HTTP/1.1 ")?;
    text.extend(status.as_bytes())?;
    text.extend(b" X\r\nContent-Length: 6\r\n")?;
    for line in lines.split(" & ") {
        text.extend(line.as_bytes())?;
        text.extend(b"\r\n")?;
    }
    text.extend(b"\r\nhello\n")?;
    let mut feed = ResponseFeed::new(alloc, false);
    if !feed.has_room(text.len()) {
        return Err("room")?;
    }
    feed.push(text.bytes())?;
    match feed.next() {
        NextResponse::Message(response) => Ok(response),
        _ => Err("no response")?,
    }
}

/// The credentials as they are written, or `-`.
fn text_of(alloc: Global, sent: &Sent) -> Result<Octets, Fail> {
    let item = match sent {
        Sent::Nothing => return Ok(Octets::of(alloc, b"-")?),
        Sent::Digest(item)
        | Sent::ScramFirst(item)
        | Sent::ScramFinal(item)
        | Sent::ScramAgain(item) => item,
    };
    let mut items = ItemList::new(alloc);
    items.push(item.clone()?)?;
    Ok(write_items(alloc, &items, Quoting::Credentials)?)
}

/// A line of the table.
#[derive(Drop)]
struct Row<'r> {
    target: &'r str,
    sent: &'r str,
    status: &'r str,
    lines: &'r str,
    outcome: &'r str,
}

fn row_of(line: &str) -> Result<Row<'_>, Fail> {
    let mut parts = line.split(" | ");
    Ok(Row {
        target: parts.next().ok_or("no target")?,
        sent: parts.next().ok_or("no credentials")?,
        status: parts.next().ok_or("no status")?,
        lines: parts.next().ok_or("no lines")?,
        outcome: parts.next().ok_or("no outcome")?,
    })
}

/// Hands in the response of a row.
fn hand_in(
    alloc: Global,
    client: &mut Client,
    request: &OutRequest,
    sent: &Sent,
    row: &Row<'_>,
) -> Result<Outcome, Fail> {
    let response = response_of(alloc, row.status, row.lines)?;
    Ok(client.on_response(request, sent, &response, 0)?)
}

/// Whether the credentials are written so.
fn is_text(alloc: Global, sent: &Sent, wanted: &str) -> Result<bool, Fail> {
    let text = text_of(alloc, sent)?;
    Ok(text.bytes() == wanted.as_bytes())
}

/// Whether the outcome is told so.
fn is_outcome(alloc: Global, outcome: Outcome, wanted: &str) -> Result<bool, Fail> {
    let text = format!(in alloc; "{outcome:?}")?;
    Ok(text.as_str() == wanted)
}

/// Whether a request and its response go as the line says.
fn goes_so(alloc: Global, client: &mut Client, line: &str) -> Result<bool, Fail> {
    let row = row_of(line)?;
    let request = request_of(alloc, row.target)?;
    let sent = client.credentials_for(&request, 0, &[0; 16])?;
    if !is_text(alloc, &sent, row.sent)? {
        return Ok(false);
    }
    let outcome = hand_in(alloc, client, &request, &sent, &row)?;
    is_outcome(alloc, outcome, row.outcome)
}

/// The number of the first line that goes otherwise, counted from 1, or 0.
fn first_wrong(alloc: Global, rows: &str) -> Result<usize, Fail> {
    let mut client = mufasa(alloc)?;
    for (at, row) in rows.lines().enumerate() {
        if row == "new" {
            client = mufasa(alloc)?;
        } else if !goes_so(alloc, &mut client, row)? {
            return Ok(at.saturating_add(1));
        }
    }
    Ok(0)
}

#[test]
fn each_request_has_its_credentials_and_its_outcome(rt: HostRuntime) -> Result<(), Fail> {
    assert_eq!(rt; first_wrong(rt.alloc(), ROWS)?, 0);
    Ok(())
}

#[test]
fn what_is_forgotten_is_not_sent(rt: HostRuntime) -> Result<(), Fail> {
    let alloc = rt.alloc();
    let mut client = mufasa(alloc)?;
    assert!(rt; goes_so(alloc, &mut client, FIRST)?);
    client.forget();
    assert!(rt; goes_so(alloc, &mut client, "/b | - | 200 | A: b | OneWay")?);
    Ok(())
}

#[test]
fn names_with_a_colon_are_refused(rt: HostRuntime) {
    let refused = Client::new(rt.alloc(), Role::Proxy, b"a:b", b"p").err();
    assert_eq!(rt; refused, Some(ClientError::BadName));
}

/// Gives credentials so often.
fn use_often(client: &mut Client, request: &OutRequest, times: u32) -> Result<(), Fail>
    requires { 1 ≤ length request.now.target }
{
    for _ in 0..times {
        let _ = client.credentials_for(request, 0, &[0; 16])?;
    }
    Ok(())
}

/// Whether the next credentials are written so.
fn is_next(
    alloc: Global,
    client: &mut Client,
    request: &OutRequest,
    wanted: &str,
) -> Result<bool, Fail>
    requires { 1 ≤ length request.now.target }
{
    let sent = client.credentials_for(request, 0, &[0; 16])?;
    is_text(alloc, &sent, wanted)
}

/// What it means that the 512th request is answered so.
fn late_outcome(alloc: Global, client: &mut Client, request: &OutRequest) -> Result<Outcome, Fail>
    requires { 1 ≤ length request.now.target }
{
    let sent = client.credentials_for(request, 0, &[0; 16])?;
    let response = response_of(alloc, "200", LATE.0)?;
    Ok(client.on_response(request, &sent, &response, 0)?)
}

/// What the 512th request after a challenge means, and whether the next one has the next nonce.
fn late(alloc: Global, client: &mut Client) -> Result<(Outcome, bool), Fail> {
    let request = request_of(alloc, "/dir/index.html")?;
    use_often(client, &request, 511)?;
    let outcome = late_outcome(alloc, client, &request)?;
    Ok((outcome, is_next(alloc, client, &request, LATE.1)?))
}

#[test]
fn the_next_nonce_is_taken(rt: HostRuntime) -> Result<(), Fail> {
    let alloc = rt.alloc();
    let mut client = mufasa(alloc)?;
    assert!(rt; goes_so(alloc, &mut client, FIRST)?);
    let (outcome, is_next) = late(alloc, &mut client)?;
    assert_eq!(rt; outcome, Outcome::Mutual);
    assert!(rt; is_next);
    Ok(())
}
