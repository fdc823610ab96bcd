//! Credentials of the standards, whose `response` is that of the password.
mod decisions;
mod exchanges;
mod joined;
mod messages;
mod targets;

use auth_grammar::{Octets, OctetsList, read_challenges, read_credentials};
use auth_hash::Algorithm;
use digest_fields::{DigestChallenge, DigestCredentials, UserName};
use digest_formulas::{ha1, response, user_hash};
use std::alloc::Global;
use std::process::Abort;
use std::test::Fail;

/// The credentials of RFC 7616 section 3.9.1 with SHA-256.
fn sha256_credentials() -> &'static [u8] {
    br#"Digest username="Mufasa", realm="http-auth@example.org", uri="/dir/index.html", algorithm=SHA-256, nonce="7ypf/xlj9XXwfDPEoM4URrv/xwf94BcCAzFZH4GiTo0v", nc=00000001, cnonce="f2/wE4q74E6zIJEtWaHKaf5wv/H5QzzpXusqGemxURZJ", qop=auth, response="753927fa0e85d155564e2e272a28d1802ca10daf4496794697cf8db5856cb6c1""#
}

/// The same with MD5, which is what no `algorithm` means.
fn md5_credentials() -> &'static [u8] {
    br#"Digest username="Mufasa", realm="http-auth@example.org", uri="/dir/index.html", nonce="7ypf/xlj9XXwfDPEoM4URrv/xwf94BcCAzFZH4GiTo0v", nc=00000001, cnonce="f2/wE4q74E6zIJEtWaHKaf5wv/H5QzzpXusqGemxURZJ", qop=auth, response="8ca523f5e9506fed4657c9700eebdbec""#
}

/// The credentials of RFC 2617 section 3.5.
fn older_credentials() -> &'static [u8] {
    br#"Digest username="Mufasa", realm="testrealm@host.com", nonce="dcd98b7102dd2f0e8b11d0f600bfb0c093", uri="/dir/index.html", qop=auth, nc=00000001, cnonce="0a4f113b", response="6629fae49393a05397450978507c4ef1""#
}

/// The credentials that a text spells.
fn credentials_in(alloc: Global, text: &[u8]) -> Result<DigestCredentials, Fail> {
    let item = read_credentials(alloc, text)?;
    Ok(DigestCredentials::from_item(alloc, &item)?)
}

/// Checks that a GET with these credentials has the response of the password, and of no other.
fn check_response(
    rt: &impl Abort,
    alloc: Global,
    text: &[u8],
    password: &[u8],
) -> Result<(), Fail> {
    let sent = credentials_in(alloc, text)?;
    let name = match &sent.user {
        UserName::Plain(name) | UserName::Hashed(name) => name.bytes(),
    };
    for (password, right) in [(password, true), (b"Circle of life", false)] {
        let secret = ha1(sent.kind.alg, name, sent.realm.bytes(), password);
        let value = response(
            sent.kind.alg,
            &secret,
            sent.nonce.bytes(),
            &sent.nc.text,
            sent.cnonce.bytes(),
            sent.qop,
            b"GET",
            sent.uri.bytes(),
            b"",
        );
        assert_eq!(rt; sent.response.bytes() == value.bytes(), right);
    }
    Ok(())
}

#[test]
fn credentials_of_the_standards_are_right(rt: HostRuntime) -> Result<(), Fail> {
    let alloc = rt.alloc();
    check_response(&rt, alloc, sha256_credentials(), b"Circle of Life")?;
    check_response(&rt, alloc, md5_credentials(), b"Circle of Life")?;
    check_response(&rt, alloc, older_credentials(), b"Circle Of Life")
}

#[test]
fn names_are_decoded_once(rt: HostRuntime) -> Result<(), Fail> {
    let alloc = rt.alloc();
    let rest = br#", realm=r, nonce=n, uri="/", response=v, cnonce=c, qop=auth, nc=00000001"#;
    for (name, wanted) in [
        (b"UTF-8''J%20D".as_slice(), b"J D".as_slice()),
        (b"utf-8'en'J%2520D", b"J%20D"),
        (b"UTF-8''50%", b"50%"),
    ] {
        let mut text = Octets::of(alloc, b"Digest username*=\"")?;
        text.extend(name)?;
        text.extend(b"\"")?;
        text.extend(rest)?;
        let sent = credentials_in(alloc, text.bytes())?;
        assert!(rt; matches!(&sent.user, UserName::Plain(name) if name.bytes() == wanted));
    }
    Ok(())
}

/// The hash of a name is that of `printf %s Mufasa:http-auth@example.org | sha256sum`.
#[test]
fn a_name_is_hashed_with_its_realm(rt: HostRuntime) {
    let hash = user_hash(Algorithm::Sha256, b"Mufasa", b"http-auth@example.org");
    assert_eq!(rt;
        hash.bytes(),
        b"a947aad205e80e429958a387394944c6b496301e79f89d35a4cc23b6ee12b5b6".as_slice()
    );
}

/// Two challenges on two lines, as a server sends them that offers two hashes (RFC 7616 section 3.7).
#[test]
fn challenges_on_two_lines_are_read(rt: HostRuntime) -> Result<(), Fail> {
    let alloc = rt.alloc();
    let mut lines = OctetsList::new(alloc);
    for algorithm in ["SHA-256", "MD5"] {
        let mut line = Octets::of(
            alloc,
            br#"Digest realm="http-auth@example.org", qop="auth, auth-int", algorithm="#,
        )?;
        line.extend(algorithm.as_bytes())?;
        line.extend(br#", nonce="7ypf/xlj9XXwfDPEoM4URrv/xwf94BcCAzFZH4GiTo0v""#)?;
        lines.push(line)?;
    }
    let items = read_challenges(alloc, &lines)?;
    let mut algorithms = Vec::new(alloc);
    for item in items.as_slice() {
        let challenge = DigestChallenge::from_item(alloc, item)?;
        assert!(rt; challenge.auth && challenge.auth_int && !challenge.stale);
        algorithms.push(challenge.kind.alg)?;
    }
    assert_eq!(rt;
        algorithms.as_slice(),
        [Algorithm::Sha256, Algorithm::Md5].as_slice()
    );
    Ok(())
}
