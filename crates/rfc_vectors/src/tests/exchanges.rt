//! Exchanges of SCRAM-SHA-256 over connections (RFC 7804 section 5), with a server that draws zeros alone. The keys, proofs and
//! signatures are those of Python's `hmac` and `hashlib`, for RFC 7677's user, password and salt.
use auth_decide::Site;
use auth_grammar::Octets;
use auth_io::{MemClock, MemFiles, MemLink, MemWords};
use cred_store::Store;
use nonce_shard::{JournalTable, Sizes};
use origin_core::serve_connection;
use spaces_map::Spaces;
use std::alloc::Global;
use std::test::Fail;

fn store_text() -> &'static [u8] {
    b"authstore 1\nuser:r:scram-sha-256:4096,W22ZaJ0SNY7soEsUEjb6gQ==,WG5d8oPm3OtcPnkdi4Uo7BkeZkBFzpcXkuLmtbsT4qY=,wfPLwcE6nTWhTAmQ7tl2KeoiWGPlZqQxSrmfPwDl2dU=\nuser:r:sha-256:07d18de888193845e54b250c15cb4f6c64e09942735fe14a065914eca3946476\n"
}

fn spaces_text() -> &'static [u8] {
    b"authspaces 1\n/ required SCRAM-SHA-256 r\n/both required SHA-256,SCRAM-SHA-256 r\n/digest required SHA-256 r\n"
}

/// What a connection shows, what is sent on it, and the status with the authentication of each answer. In a line of what is sent:
/// when, the target, and the credentials.
const TALKS: [(&str, &str, &str); 8] = [
    (
        "an exchange, its try again, and its session again",
        r#"now | / | -
now | / | SCRAM-SHA-256 data="biwsbj11c2VyLHI9ck9wck5HZndFYmVSV2diTkVrcU8="
now | / | SCRAM-SHA-256 sid="AgAAAAAAAAAAAAAAAAAAAAAAAAAAAAAAAAAA", data="Yz1iaXdzLHI9ck9wck5HZndFYmVSV2diTkVrcU9BZ0FBQUFBQUFBQUFBQUFBQUFBQUFBQUFBQUFBQUFBQUFBQUEscD1qYmdJYmtna1VXS09BQ1MyaU42TGRKZmh1Vi9iekZKblIwTHNwcjFNeXNFPQ=="
now | / | SCRAM-SHA-256 sid="AgAAAAAAAAAAAAAAAAAAAAAAAAAAAAAAAAAA", data="Yz1iaXdzLHI9ck9wck5HZndFYmVSV2diTkVrcU9BZ0FBQUFBQUFBQUFBQUFBQUFBQUFBQUFBQUFBQUFBQUFBQUEscD1qYmdJYmtna1VXS09BQ1MyaU42TGRKZmh1Vi9iekZKblIwTHNwcjFNeXNFPQ=="
now | / | SCRAM-SHA-256 sid="AgAAAAAAAAAAAAAAAAAAAAAAAAAAAAAAAAAA", data="Yz1iaXdzLHI9YWJjPT0xQVFBQUFBQUFBQUFBQUFBQUFBQUFBQUFBQUFBQUFBQUFBQUFBLHA9Q3dqbWZzd2lONmNUa2JvK1hjMm9mMVRnWTJIL01RSklrWVl6bVE1eTNPQT0="
now | / | SCRAM-SHA-256 sid="AgAAAAAAAAAAAAAAAAAAAAAAAAAAAAAAAAAA", data="Yz1iaXdzLHI9YWJjPT0xQVFBQUFBQUFBQUFBQUFBQUFBQUFBQUFBQUFBQUFBQUFBQUFBLHA9Q3dqbWZzd2lONmNUa2JvK1hjMm9mMVRnWTJIL01RSklrWVl6bVE1eTNPQT0="
now | / | SCRAM-SHA-256 sid="AgAAAAAAAAAAAAAAAAAAAAAAAAAAAAAAAAAA", data="Yz1iaXdzLHI9YWJjPT0yQVFBQUFBQUFBQUFBQUFBQUFBQUFBQUFBQUFBQUFBQUFBQUFBLHA9MlRuQ2JDL08xZTgvL1NjMlR0RWE1cVZOdzR4dXJJTEUxTHgzRmMrYnpZWT0="
now | / | SCRAM-SHA-256 sid="AgAAAAAAAAAAAAAAAAAAAAAAAAAAAAAAAAAA", data="Yz1iaXdzLHI9eDlBUUFBQUFBQUFBQUFBQUFBQUFBQUFBQUFBQUFBQUFBQUFBQUEscD1OQUwrNXNXcjNYYkZURnZoYXFuNDlmWGlDMXVkT1RUY0JOTi9URlkrM1hBPQ==""#,
        r#"401
SCRAM-SHA-256 realm="r", sr="AQAAAAAAAAAAAAAAAAAAAAAAAAAAAAAAAAAA", ttl=300
401
SCRAM-SHA-256 sid="AgAAAAAAAAAAAAAAAAAAAAAAAAAAAAAAAAAA", data="cj1yT3ByTkdmd0ViZVJXZ2JORWtxT0FnQUFBQUFBQUFBQUFBQUFBQUFBQUFBQUFBQUFBQUFBQUFBQSxzPVcyMlphSjBTTlk3c29Fc1VFamI2Z1E9PSxpPTQwOTY="
200
sid="AgAAAAAAAAAAAAAAAAAAAAAAAAAAAAAAAAAA", data="dj1UaTJRVlhyd1RNRWZjVWhJOGNiZUs1WGlGUENrTVdTRlR0NU9HVVBMcmlNPQ=="
401
SCRAM-SHA-256 realm="r", sr="AQAAAAAAAAAAAAEAAAAAAAAAAAAAAAAAAAAA", ttl=300
200
sid="AgAAAAAAAAAAAAAAAAAAAAAAAAAAAAAAAAAA", data="dj1UQmpEOVo5eHBpUTcvOVFMYWw5S1hiOERTTlA1SHhjT2M2Mlk2Wm1IaFNjPQ=="
401
SCRAM-SHA-256 realm="r", sr="AQAAAAAAAAAAAAIAAAAAAAAAAAAAAAAAAAAA", ttl=300, stale=true
200
sid="AgAAAAAAAAAAAAAAAAAAAAAAAAAAAAAAAAAA", data="dj1ZdlFmN3NxVDBYdHBHR09TdEgwaG8vTCsycjNQR2NWYldnMDB4TTVhbVgwPQ=="
401
SCRAM-SHA-256 realm="r", sr="AQAAAAAAAAAAAAMAAAAAAAAAAAAAAAAAAAAA", ttl=300"#,
    ),
    (
        "a wrong proof uses the try up",
        r#"now | / | SCRAM-SHA-256 data="biwsbj11c2VyLHI9ck9wck5HZndFYmVSV2diTkVrcU8="
now | / | SCRAM-SHA-256 sid="AgAAAAAAAAAAAAAAAAAAAAAAAAAAAAAAAAAA", data="Yz1iaXdzLHI9ck9wck5HZndFYmVSV2diTkVrcU9BZ0FBQUFBQUFBQUFBQUFBQUFBQUFBQUFBQUFBQUFBQUFBQUEscD1qYmdJYmtna1VXS09BQ1MyaU42TGRKZmh1Vi9iekZKblIwTHNwcjFNeXNBPQ=="
now | / | SCRAM-SHA-256 sid="AgAAAAAAAAAAAAAAAAAAAAAAAAAAAAAAAAAA", data="Yz1iaXdzLHI9ck9wck5HZndFYmVSV2diTkVrcU9BZ0FBQUFBQUFBQUFBQUFBQUFBQUFBQUFBQUFBQUFBQUFBQUEscD1qYmdJYmtna1VXS09BQ1MyaU42TGRKZmh1Vi9iekZKblIwTHNwcjFNeXNFPQ==""#,
        r#"401
SCRAM-SHA-256 sid="AgAAAAAAAAAAAAAAAAAAAAAAAAAAAAAAAAAA", data="cj1yT3ByTkdmd0ViZVJXZ2JORWtxT0FnQUFBQUFBQUFBQUFBQUFBQUFBQUFBQUFBQUFBQUFBQUFBQSxzPVcyMlphSjBTTlk3c29Fc1VFamI2Z1E9PSxpPTQwOTY="
401
SCRAM-SHA-256 realm="r", sr="AQAAAAAAAAAAAAAAAAAAAAAAAAAAAAAAAAAA", ttl=300
401
SCRAM-SHA-256 realm="r", sr="AQAAAAAAAAAAAAEAAAAAAAAAAAAAAAAAAAAA", ttl=300"#,
    ),
    (
        "an exchange that is too old",
        r#"now | / | SCRAM-SHA-256 data="biwsbj11c2VyLHI9ck9wck5HZndFYmVSV2diTkVrcU8="
later | / | SCRAM-SHA-256 sid="AgAAAAAAAAAAAAAAAAAAAAAAAAAAAAAAAAAA", data="Yz1iaXdzLHI9ck9wck5HZndFYmVSV2diTkVrcU9BZ0FBQUFBQUFBQUFBQUFBQUFBQUFBQUFBQUFBQUFBQUFBQUEscD1qYmdJYmtna1VXS09BQ1MyaU42TGRKZmh1Vi9iekZKblIwTHNwcjFNeXNFPQ==""#,
        r#"401
SCRAM-SHA-256 sid="AgAAAAAAAAAAAAAAAAAAAAAAAAAAAAAAAAAA", data="cj1yT3ByTkdmd0ViZVJXZ2JORWtxT0FnQUFBQUFBQUFBQUFBQUFBQUFBQUFBQUFBQUFBQUFBQUFBQSxzPVcyMlphSjBTTlk3c29Fc1VFamI2Z1E9PSxpPTQwOTY="
401
SCRAM-SHA-256 realm="r", sr="AQAAAAAAAAAAAAAAAAAAAAAAAAAAAAAAAAAA", ttl=300"#,
    ),
    (
        "another flag than the one that began it",
        r#"now | / | SCRAM-SHA-256 data="eSwsbj11c2VyLHI9ck9wck5HZndFYmVSV2diTkVrcU8="
now | / | SCRAM-SHA-256 sid="AgAAAAAAAAAAAAAAAAAAAAAAAAAAAAAAAAAA", data="Yz1iaXdzLHI9ck9wck5HZndFYmVSV2diTkVrcU9BZ0FBQUFBQUFBQUFBQUFBQUFBQUFBQUFBQUFBQUFBQUFBQUEscD1qYmdJYmtna1VXS09BQ1MyaU42TGRKZmh1Vi9iekZKblIwTHNwcjFNeXNFPQ==""#,
        r#"401
SCRAM-SHA-256 sid="AgAAAAAAAAAAAAAAAAAAAAAAAAAAAAAAAAAA", data="cj1yT3ByTkdmd0ViZVJXZ2JORWtxT0FnQUFBQUFBQUFBQUFBQUFBQUFBQUFBQUFBQUFBQUFBQUFBQSxzPVcyMlphSjBTTlk3c29Fc1VFamI2Z1E9PSxpPTQwOTY="
401
SCRAM-SHA-256 realm="r", sr="AQAAAAAAAAAAAAAAAAAAAAAAAAAAAAAAAAAA", ttl=300"#,
    ),
    (
        "a nonce that is the name of the exchange",
        r#"now | / | SCRAM-SHA-256 data="biwsbj11c2VyLHI9ck9wck5HZndFYmVSV2diTkVrcU8="
now | / | SCRAM-SHA-256 sid="AgAAAAAAAAAAAAAAAAAAAAAAAAAAAAAAAAAA", data="Yz1iaXdzLHI9QWdBQUFBQUFBQUFBQUFBQUFBQUFBQUFBQUFBQUFBQUFBQUFBLHA9NEZqbDhQaFhWL0JCYkRqekJITk1qU0JjejZTaDJkam9FVmRUcU41WDhsVT0="
now | / | SCRAM-SHA-256 sid="AgAAAAAAAAAAAAAAAAAAAAAAAAAAAAAAAAAA", data="Yz1iaXdzLHI9ck9wck5HZndFYmVSV2diTkVrcU9BZ0FBQUFBQUFBQUFBQUFBQUFBQUFBQUFBQUFBQUFBQUFBQUEscD1qYmdJYmtna1VXS09BQ1MyaU42TGRKZmh1Vi9iekZKblIwTHNwcjFNeXNFPQ==""#,
        r#"401
SCRAM-SHA-256 sid="AgAAAAAAAAAAAAAAAAAAAAAAAAAAAAAAAAAA", data="cj1yT3ByTkdmd0ViZVJXZ2JORWtxT0FnQUFBQUFBQUFBQUFBQUFBQUFBQUFBQUFBQUFBQUFBQUFBQSxzPVcyMlphSjBTTlk3c29Fc1VFamI2Z1E9PSxpPTQwOTY="
401
SCRAM-SHA-256 realm="r", sr="AQAAAAAAAAAAAAAAAAAAAAAAAAAAAAAAAAAA", ttl=300
401
SCRAM-SHA-256 realm="r", sr="AQAAAAAAAAAAAAEAAAAAAAAAAAAAAAAAAAAA", ttl=300"#,
    ),
    (
        "an exchange that is not finished isn't used again",
        r#"now | / | -
now | / | SCRAM-SHA-256 data="biwsbj11c2VyLHI9ck9wck5HZndFYmVSV2diTkVrcU8="
now | / | SCRAM-SHA-256 sid="AgAAAAAAAAAAAAAAAAAAAAAAAAAAAAAAAAAA", data="Yz1iaXdzLHI9YWJjPT0xQVFBQUFBQUFBQUFBQUFBQUFBQUFBQUFBQUFBQUFBQUFBQUFBLHA9Q3dqbWZzd2lONmNUa2JvK1hjMm9mMVRnWTJIL01RSklrWVl6bVE1eTNPQT0="
now | / | SCRAM-SHA-256 sid="AgAAAAAAAAAAAAAAAAAAAAAAAAAAAAAAAAAA", data="Yz1iaXdzLHI9ck9wck5HZndFYmVSV2diTkVrcU9BZ0FBQUFBQUFBQUFBQUFBQUFBQUFBQUFBQUFBQUFBQUFBQUEscD1qYmdJYmtna1VXS09BQ1MyaU42TGRKZmh1Vi9iekZKblIwTHNwcjFNeXNFPQ==""#,
        r#"401
SCRAM-SHA-256 realm="r", sr="AQAAAAAAAAAAAAAAAAAAAAAAAAAAAAAAAAAA", ttl=300
401
SCRAM-SHA-256 sid="AgAAAAAAAAAAAAAAAAAAAAAAAAAAAAAAAAAA", data="cj1yT3ByTkdmd0ViZVJXZ2JORWtxT0FnQUFBQUFBQUFBQUFBQUFBQUFBQUFBQUFBQUFBQUFBQUFBQSxzPVcyMlphSjBTTlk3c29Fc1VFamI2Z1E9PSxpPTQwOTY="
401
SCRAM-SHA-256 realm="r", sr="AQAAAAAAAAAAAAEAAAAAAAAAAAAAAAAAAAAA", ttl=300
200
sid="AgAAAAAAAAAAAAAAAAAAAAAAAAAAAAAAAAAA", data="dj1UaTJRVlhyd1RNRWZjVWhJOGNiZUs1WGlGUENrTVdTRlR0NU9HVVBMcmlNPQ==""#,
    ),
    (
        "what begins no exchange",
        r#"now | / | SCRAM-SHA-256 data="Yz1iaXdz"
now | / | SCRAM-SHA-256 data="biwsbj1ub2JvZHkscj1hYmM="
now | / | SCRAM-SHA-256 realm="s", data="biwsbj11c2VyLHI9ck9wck5HZndFYmVSV2diTkVrcU8="
now | / | SCRAM-SHA-256 sid="x", data="Yz1iaXdzLHI9ck9wck5HZndFYmVSV2diTkVrcU9BZ0FBQUFBQUFBQUFBQUFBQUFBQUFBQUFBQUFBQUFBQUFBQUEscD1qYmdJYmtna1VXS09BQ1MyaU42TGRKZmh1Vi9iekZKblIwTHNwcjFNeXNFPQ=="
now | / | SCRAM-SHA-256 sid="AQAAAAAAAAAAAAAAAAAAAAAAAAAAAAAAAAAA", data="Yz1iaXdzLHI9ck9wck5HZndFYmVSV2diTkVrcU9BZ0FBQUFBQUFBQUFBQUFBQUFBQUFBQUFBQUFBQUFBQUFBQUEscD1qYmdJYmtna1VXS09BQ1MyaU42TGRKZmh1Vi9iekZKblIwTHNwcjFNeXNFPQ=="
now | / | SCRAM-SHA-256 realm="r"
now | / | SCRAM-SHA-256 data="biws"
now | / | SCRAM-SHA-256 data="biw"
now | / | SCRAM-SHA-256 sid="AgAAAAAAAAAAAAAAAAAAAAAAAAAAAAAAAAAA", data="biws"
now | / | Basic YTpi
now | / | SCRAM-SHA-256 realm="r", data="biwsbj11c2VyLHI9ck9wck5HZndFYmVSV2diTkVrcU8="
now | /digest | SCRAM-SHA-256 data="biwsbj11c2VyLHI9ck9wck5HZndFYmVSV2diTkVrcU8=""#,
        r#"401
SCRAM-SHA-256 realm="r", sr="AQAAAAAAAAAAAAAAAAAAAAAAAAAAAAAAAAAA", ttl=300
401
SCRAM-SHA-256 realm="r", sr="AQAAAAAAAAAAAAEAAAAAAAAAAAAAAAAAAAAA", ttl=300
401
SCRAM-SHA-256 realm="r", sr="AQAAAAAAAAAAAAIAAAAAAAAAAAAAAAAAAAAA", ttl=300
401
SCRAM-SHA-256 realm="r", sr="AQAAAAAAAAAAAAMAAAAAAAAAAAAAAAAAAAAA", ttl=300
401
SCRAM-SHA-256 realm="r", sr="AQAAAAAAAAAAAAQAAAAAAAAAAAAAAAAAAAAA", ttl=300
400
400
400
400
401
SCRAM-SHA-256 realm="r", sr="AQAAAAAAAAAAAAUAAAAAAAAAAAAAAAAAAAAA", ttl=300
401
SCRAM-SHA-256 sid="AgAAAAAAAAAAAAAAAAAAAAAAAAAAAAAAAAAA", data="cj1yT3ByTkdmd0ViZVJXZ2JORWtxT0FnQUFBQUFBQUFBQUFBQUFBQUFBQUFBQUFBQUFBQUFBQUFBQSxzPVcyMlphSjBTTlk3c29Fc1VFamI2Z1E9PSxpPTQwOTY="
401
Digest realm="r", domain="/digest", nonce="AQAAAAAAAAAAAAYAAAAAAAAAAAAAAAAAAAAA", algorithm=SHA-256, qop="auth""#,
    ),
    (
        "Digest and SCRAM by one nonce",
        r#"now | /both | -
now | /both | SCRAM-SHA-256 data="biwsbj11c2VyLHI9ck9wck5HZndFYmVSV2diTkVrcU8="
now | /both | SCRAM-SHA-256 sid="AgAAAAAAAAAAAAAAAAAAAAAAAAAAAAAAAAAA", data="Yz1iaXdzLHI9ck9wck5HZndFYmVSV2diTkVrcU9BZ0FBQUFBQUFBQUFBQUFBQUFBQUFBQUFBQUFBQUFBQUFBQUEscD1qYmdJYmtna1VXS09BQ1MyaU42TGRKZmh1Vi9iekZKblIwTHNwcjFNeXNFPQ=="
now | /both | SCRAM-SHA-256 sid="AgAAAAAAAAAAAAAAAAAAAAAAAAAAAAAAAAAA", data="Yz1iaXdzLHI9YWJjPT0xQVFBQUFBQUFBQUFBQUFBQUFBQUFBQUFBQUFBQUFBQUFBQUFBLHA9Q3dqbWZzd2lONmNUa2JvK1hjMm9mMVRnWTJIL01RSklrWVl6bVE1eTNPQT0="
now | /both | Digest username="user", realm="r", nonce="AQAAAAAAAAAAAAAAAAAAAAAAAAAAAAAAAAAA", uri="/both", response="5947c2797d545d28641af670d822c1bf55c33cb9262217101f87ab21646fc534", algorithm=SHA-256, cnonce="0a4f113b", qop=auth, nc=00000001
now | /both | Digest username="user", realm="r", nonce="AQAAAAAAAAAAAAAAAAAAAAAAAAAAAAAAAAAA", uri="/both", response="08092397383e180d3346e43055c682a1a20f6bf9b50f539773d28489f2de9c36", algorithm=SHA-256, cnonce="0a4f113b", qop=auth, nc=00000002
now | /both | SCRAM-SHA-256 sid="AgAAAAAAAAAAAAAAAAAAAAAAAAAAAAAAAAAA", data="Yz1iaXdzLHI9YWJjPT0yQVFBQUFBQUFBQUFBQUFBQUFBQUFBQUFBQUFBQUFBQUFBQUFBLHA9MlRuQ2JDL08xZTgvL1NjMlR0RWE1cVZOdzR4dXJJTEUxTHgzRmMrYnpZWT0=""#,
        r#"401
Digest realm="r", domain="/both", nonce="AQAAAAAAAAAAAAAAAAAAAAAAAAAAAAAAAAAA", algorithm=SHA-256, qop="auth"
SCRAM-SHA-256 realm="r", sr="AQAAAAAAAAAAAAAAAAAAAAAAAAAAAAAAAAAA", ttl=300
401
SCRAM-SHA-256 sid="AgAAAAAAAAAAAAAAAAAAAAAAAAAAAAAAAAAA", data="cj1yT3ByTkdmd0ViZVJXZ2JORWtxT0FnQUFBQUFBQUFBQUFBQUFBQUFBQUFBQUFBQUFBQUFBQUFBQSxzPVcyMlphSjBTTlk3c29Fc1VFamI2Z1E9PSxpPTQwOTY="
404
sid="AgAAAAAAAAAAAAAAAAAAAAAAAAAAAAAAAAAA", data="dj1UaTJRVlhyd1RNRWZjVWhJOGNiZUs1WGlGUENrTVdTRlR0NU9HVVBMcmlNPQ=="
404
sid="AgAAAAAAAAAAAAAAAAAAAAAAAAAAAAAAAAAA", data="dj1UQmpEOVo5eHBpUTcvOVFMYWw5S1hiOERTTlA1SHhjT2M2Mlk2Wm1IaFNjPQ=="
401
Digest realm="r", domain="/both", nonce="AQAAAAAAAAAAAAEAAAAAAAAAAAAAAAAAAAAA", stale=true, algorithm=SHA-256, qop="auth"
SCRAM-SHA-256 realm="r", sr="AQAAAAAAAAAAAAEAAAAAAAAAAAAAAAAAAAAA", ttl=300
404
qop=auth, rspauth="8ec8f3c785ddc5f27b709ae30642539ad6d0cd4ed8f3857f70a5252b7c705ab4", cnonce="0a4f113b", nc=00000002
401
Digest realm="r", domain="/both", nonce="AQAAAAAAAAAAAAIAAAAAAAAAAAAAAAAAAAAA", algorithm=SHA-256, qop="auth"
SCRAM-SHA-256 realm="r", sr="AQAAAAAAAAAAAAIAAAAAAAAAAAAAAAAAAAAA", ttl=300, stale=true"#,
    ),
];

pub(super) fn site_of(alloc: Global) -> Result<Site, Fail> {
    Ok(Site {
        store: Store::read(alloc, store_text())?,
        spaces: Spaces::read(alloc, spaces_text())?,
        root: Octets::of(alloc, b"www")?,
    })
}

pub(super) fn files_of(alloc: Global) -> Result<MemFiles, Fail> {
    let mut contents = Vec::new(alloc);
    let name = Octets::of(alloc, b"www/index.html")?;
    contents.push((name, Octets::of(alloc, b"hello\n")?))?;
    Ok(MemFiles::new(alloc, contents, vec![in alloc]?, vec![in alloc]?))
}

/// Adds the request of a line, and gives its moment.
fn push_request(input: &mut Octets, line: &str) -> Result<u64, Fail> {
    let mut parts = line.split(" | ");
    let moment = parts.next().ok_or("no moment")?;
    let target = parts.next().ok_or("no target")?;
    let credentials = parts.next().ok_or("no credentials")?;
    input.extend(b"GET ")?;
    input.extend(target.as_bytes())?;
    input.extend(b" HTTP/1.1\r\nHost: example.org\r\n")?;
    if credentials != "-" {
        input.extend(b"Authorization: ")?;
        input.extend(credentials.as_bytes())?;
        input.extend(b"\r\n")?;
    }
    input.extend(b"\r\n")?;
    Ok(if moment == "later" { 61 } else { 0 })
}

/// The status and the authentication of each answer, each in a line.
fn told_of(alloc: Global, written: &[u8]) -> Result<String, Fail> {
    let mut told = String::new(alloc);
    for line in str::from_utf8(written)?.lines() {
        let kept = if let Some(status) = line.strip_prefix("HTTP/1.1 ") {
            status.split(" ").next()
        } else if let Some(items) = line.strip_prefix("WWW-Authenticate: ") {
            Some(items)
        } else {
            line.strip_prefix("Authentication-Info: ")
        };
        if let Some(kept) = kept {
            told.push_str(kept)?;
            told.push_str("\n")?;
        }
    }
    Ok(told)
}

/// What is answered to these lines, where the link gives its bytes in pieces of this size.
fn talk(alloc: Global, sends: &str, piece: u32) -> Result<String, Fail> {
    let mut input = Octets::new(alloc);
    let mut moments = Vec::new(alloc);
    for line in sends.lines() {
        moments.push(push_request(&mut input, line)?)?;
    }
    let pieces = vec![in alloc; piece; 4096]?;
    let mut link = MemLink::new(
        alloc,
        input,
        pieces,
        vec![in alloc; 3]?,
        vec![in alloc]?,
        vec![in alloc]?,
        9999,
    )?;
    let mut table = JournalTable::open(alloc, 64, &Sizes::single())?;
    let mut words = MemWords::new(vec![in alloc; [0; 16]]?, vec![in alloc]?);
    let mut clock = MemClock::new(moments);
    serve_connection(
        alloc,
        &mut link,
        &mut files_of(alloc)?,
        &mut clock,
        &mut words,
        &mut table,
        &site_of(alloc)?,
    )?;
    told_of(alloc, link.written())
}

#[test]
fn exchanges_go_as_the_standard_says(rt: HostRuntime) -> Result<(), Fail> {
    for (name, sends, answers) in TALKS {
        for piece in [1, 4096] {
            let told = talk(rt.alloc(), sends, piece)?;
            assert_eq!(rt; told.as_str().trim_end(), answers, "for {name}");
        }
    }
    Ok(())
}
