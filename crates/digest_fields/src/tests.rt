//! Whole fields, read from texts and written.
use crate::{DigestChallenge, DigestCredentials, DigestInfo, UserName};
use auth_grammar::{Octets, OctetsList, read_credentials, read_params};
use std::alloc::Global;
use std::test::Fail;

/// A line has a refusal and credentials that bring it: all before the parameter at fault is well, and
/// what comes after it in the order of demands is missing.
const REFUSED_CREDENTIALS: &str = r#"neither username nor username* | Digest realm=r
both username and username* | Digest username=a, username*=UTF-8''a
Username is out of form | Digest username=""
Username is out of form | Digest username="a:b"
Username has more than 64 bytes | Digest username=01234567890123456789012345678901234567890123456789012345678901234
UsernameStar is out of form | Digest username*=UTF-8''
UsernameStar is out of form | Digest username*=UTF-8''J%C3%A4
UsernameStar is out of form | Digest username*=UTF-8''a%3Ab
UsernameStar is out of form | Digest username*=ISO-8859-1''a
UsernameStar is out of form | Digest username*=UTF-8'a
UsernameStar is out of form | Digest username*="UTF-8'e n'a"
UsernameStar has more than 64 bytes | Digest username*=UTF-8''01234567890123456789012345678901234567890123456789012345678901234
Realm is missing | Digest username=a, nonce=n
Realm has more than 64 bytes | Digest username=a, realm=01234567890123456789012345678901234567890123456789012345678901234
Realm is out of form | Digest username=a, realm="é"
Nonce is missing | Digest username=a, realm=r
Uri is missing | Digest username=a, realm=r, nonce=n
Uri is out of form | Digest username=a, realm=r, nonce=n, uri=""
Response is missing | Digest username=a, realm=r, nonce=n, uri="/"
Algorithm is out of form | Digest username=a, realm=r, nonce=n, uri="/", response=v, algorithm=SHA-1
Cnonce is missing | Digest username=a, realm=r, nonce=n, uri="/", response=v
Cnonce has more than 128 bytes | Digest username=a, realm=r, nonce=n, uri="/", response=v, cnonce=012345678901234567890123456789012345678901234567890123456789012345678901234567890123456789012345678901234567890123456789012345678
Cnonce is out of form | Digest username=a, realm=r, nonce=n, uri="/", response=v, cnonce=""
Qop is missing | Digest username=a, realm=r, nonce=n, uri="/", response=v, cnonce=c
Qop is out of form | Digest username=a, realm=r, nonce=n, uri="/", response=v, cnonce=c, qop=auth-conf
Nc is missing | Digest username=a, realm=r, nonce=n, uri="/", response=v, cnonce=c, qop=auth
Nc is out of form | Digest username=a, realm=r, nonce=n, uri="/", response=v, cnonce=c, qop=auth, nc=0000001
Nc is out of form | Digest username=a, realm=r, nonce=n, uri="/", response=v, cnonce=c, qop=auth, nc=0000000g
nc is zero | Digest username=a, realm=r, nonce=n, uri="/", response=v, cnonce=c, qop=auth, nc=00000000
Userhash is out of form | Digest username=a, realm=r, nonce=n, uri="/", response=v, cnonce=c, qop=auth, nc=00000001, userhash=yes
Userhash is out of form | Digest username*=UTF-8''a, realm=r, nonce=n, uri="/", response=v, cnonce=c, qop=auth, nc=00000001, userhash=true"#;

const REFUSED_CHALLENGES: &str = r#"Realm is missing | Digest nonce=n
Realm has more than 64 bytes | Digest realm=01234567890123456789012345678901234567890123456789012345678901234
Realm is out of form | Digest realm="é"
Nonce is missing | Digest realm=r
Nonce is out of form | Digest realm=r, nonce=""
Algorithm is out of form | Digest realm=r, nonce=n, algorithm=SHA-1
Qop is missing | Digest realm=r, nonce=n
Qop is out of form | Digest realm=r, nonce=n, qop="AUTH, x""#;

const REFUSED_INFOS: &str = r#"Nextnonce is out of form | nextnonce="", qop=x, nc=0
Qop is out of form | qop=x, nc=0
Nc is out of form | nc=0
nc is zero | nc=00000000"#;

#[test]
fn credentials_are_refused_in_order(rt: HostRuntime) -> Result<(), Fail> {
    let alloc = rt.alloc();
    for line in REFUSED_CREDENTIALS.lines() {
        let (wanted, text) = line.split_once(" | ").ok_or("no refusal")?;
        let item = read_credentials(alloc, text.as_bytes())?;
        let refusal = DigestCredentials::from_item(alloc, &item)
            .err()
            .ok_or("taken")?;
        assert_eq!(rt; format!(in alloc; "{refusal}")?.as_str(), wanted);
    }
    Ok(())
}

#[test]
fn challenges_are_refused_in_order(rt: HostRuntime) -> Result<(), Fail> {
    let alloc = rt.alloc();
    for line in REFUSED_CHALLENGES.lines() {
        let (wanted, text) = line.split_once(" | ").ok_or("no refusal")?;
        let item = read_credentials(alloc, text.as_bytes())?;
        assert!(rt; !DigestChallenge::accepts(&item));
        let refusal = DigestChallenge::from_item(alloc, &item)
            .err()
            .ok_or("taken")?;
        assert_eq!(rt; format!(in alloc; "{refusal}")?.as_str(), wanted);
    }
    Ok(())
}

#[test]
fn infos_are_refused_in_order(rt: HostRuntime) -> Result<(), Fail> {
    let alloc = rt.alloc();
    for line in REFUSED_INFOS.lines() {
        let (wanted, text) = line.split_once(" | ").ok_or("no refusal")?;
        let params = read_params(alloc, &one_line(alloc, text)?)?;
        let refusal = DigestInfo::from_params(alloc, &params)
            .err()
            .ok_or("taken")?;
        assert_eq!(rt; format!(in alloc; "{refusal}")?.as_str(), wanted);
    }
    Ok(())
}

fn one_line(alloc: Global, text: &str) -> Result<OctetsList, Fail> {
    let mut lines = OctetsList::new(alloc);
    lines.push(Octets::of(alloc, text.as_bytes())?)?;
    Ok(lines)
}

#[test]
fn credentials_are_written_as_they_were_read(rt: HostRuntime) -> Result<(), Fail> {
    let alloc = rt.alloc();
    let sent = read_credentials(
        alloc,
        br#"Digest username="4", realm="r", nonce="n", uri="/", response="v", algorithm=SHA-256-sess, cnonce="c", opaque="", qop=auth-int, nc=0000001A, userhash=true"#,
    )?;
    let read = DigestCredentials::from_item(alloc, &sent)?;
    assert_eq!(rt; read.nc.number(), 26);
    assert!(rt; read.to_item(alloc)?.rest.params() == sent.rest.params());
    Ok(())
}

#[test]
fn challenges_are_written_as_they_were_read(rt: HostRuntime) -> Result<(), Fail> {
    let alloc = rt.alloc();
    let sent = read_credentials(
        alloc,
        br#"Digest realm="r", domain="/a /b", nonce="n", opaque="", stale=true, algorithm=SHA-512-256, qop="auth, auth-int", userhash=true"#,
    )?;
    assert!(rt; DigestChallenge::accepts(&sent));
    let read = DigestChallenge::from_item(alloc, &sent)?;
    assert!(rt; read.to_item(alloc)?.rest.params() == sent.rest.params());
    Ok(())
}

#[test]
fn infos_are_written_as_they_were_read(rt: HostRuntime) -> Result<(), Fail> {
    let alloc = rt.alloc();
    let text = r#"nextnonce="n", qop=auth, rspauth="v", cnonce="c", nc=00000001"#;
    let sent = read_params(alloc, &one_line(alloc, text)?)?;
    let read = DigestInfo::from_params(alloc, &sent)?;
    assert!(rt; read.to_params(alloc)?.as_slice() == sent.as_slice());
    Ok(())
}

#[test]
fn escaped_names_are_decoded_once(rt: HostRuntime) -> Result<(), Fail> {
    let alloc = rt.alloc();
    let sent = read_credentials(
        alloc,
        br#"Digest username*=utf-8'en'J%20D%2541%, realm=r, nonce=n, uri="/", response=v, cnonce=c, qop=AUTH, nc=00000001, userhash=FALSE"#,
    )?;
    let read = DigestCredentials::from_item(alloc, &sent)?;
    match &read.user {
        UserName::Plain(name) => assert_eq!(rt; name.bytes(), b"J D%41%".as_slice()),
        UserName::Hashed(_) => panic!(rt; "hashed"),
    }
    Ok(())
}
