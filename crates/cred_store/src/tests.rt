//! What no clause says: that each call succeeds with ample memory, and that the definitions fit worked texts. The
//! secret of `TEXT` is SHA-256 of `Mufasa:http-auth@example.org:Circle of Life`, the hash that of
//! `Mufasa:http-auth@example.org`, by sha256sum; that of `MUFASA` is RFC 2617's, by md5sum. The keys of `KEYS` are
//! those of the password `pencil`, by python's hashlib and hmac.
use crate::{LineFault, Secret, Store, StoreError, reads_what_is_written};
use arrayvec::ArrayVec;
use auth_grammar::Octets;
use auth_hash::Algorithm;
use std::alloc::Global;
use std::process::Abort;
use std::test::Fail;

const REALM: &[u8] = b"http-auth@example.org";

const SECRET: &[u8] = b"7987c64c30e25f1b74be53f966b49b90f2808aa92faf9a00262392d7b4794232";

const NAME_HASH: &[u8] = b"a947aad205e80e429958a387394944c6b496301e79f89d35a4cc23b6ee12b5b6";

const MUFASA: &[u8] = b"939e7578ed9e3c518a452acee763bce9";

const ZEROS: &[u8] = b"00000000000000000000000000000000";

fn several() -> &'static [u8] {
    b"authstore 1\n\
      Mufasa:http-auth@example.org:md5:00000000000000000000000000000000\n\
      Mufasa:http-auth@example.org:sha-256:7987c64c30e25f1b74be53f966b49b90f2808aa92faf9a00262392d7b4794232\n\
      Mufasa:testrealm@host.com:md5:939e7578ed9e3c518a452acee763bce9\n\
      Nala:http-auth@example.org:sha-512-256:ffffffffffffffffffffffffffffffffffffffffffffffffffffffffffffffff\n"
}

/// The text of `several` in the second version, with one entry that is off and one with keys.
fn flagged() -> &'static [u8] {
    b"authstore 2\n\
      Mufasa:http-auth@example.org:md5:off:00000000000000000000000000000000\n\
      Mufasa:http-auth@example.org:sha-256:on:7987c64c30e25f1b74be53f966b49b90f2808aa92faf9a00262392d7b4794232\n\
      Mufasa:testrealm@host.com:md5:on:939e7578ed9e3c518a452acee763bce9\n\
      Nala:http-auth@example.org:scram-sha-256:on:4096,AAAAAAAAAAAAAAAAAAAAAA==,cYb24178IFPJfwkjIWWOe5UyMYsPha0jpvVheOzD7fM=,VwyhxkJCO8QGAizhocQO03bRswvgJ9KCi+BMFMz6uvY=\n\
      Nala:http-auth@example.org:sha-512-256:on:ffffffffffffffffffffffffffffffffffffffffffffffffffffffffffffffff\n"
}

/// Keys, and the first part of a line for them.
const KEYS: &[u8] =
    b"4096,AAAAAAAAAAAAAAAAAAAAAA==,cYb24178IFPJfwkjIWWOe5UyMYsPha0jpvVheOzD7fM=,VwyhxkJCO8QGAizhocQO03bRswvgJ9KCi+BMFMz6uvY=";

fn one() -> &'static [u8] {
    b"authstore 1\nMufasa:testrealm@host.com:md5:939e7578ed9e3c518a452acee763bce9\n"
}

fn one_written() -> &'static [u8] {
    b"authstore 2\nMufasa:testrealm@host.com:md5:on:939e7578ed9e3c518a452acee763bce9\n"
}

/// Whether the store has this MD5 secret of the name in the realm `r`.
fn has_md5(store: &Store, name: &[u8], value: &[u8]) -> bool {
    let found = store.secret(name, b"r", Algorithm::Md5);
    found.is_some_and(|secret| secret.bytes() == value)
}

fn fault_of(alloc: Global, text: &[u8]) -> Option<StoreError> {
    Store::read(alloc, text).err()
}

#[test]
fn a_secret_is_found_by_name_realm_and_algorithm(rt: HostRuntime) -> Result<(), Fail> {
    let store = Store::read(rt.alloc(), several())?;
    assert_eq!(rt; store.entries(), 4);
    let found = store.secret(b"Mufasa", REALM, Algorithm::Sha256);
    assert!(rt; found.is_some_and(|secret| secret.bytes() == SECRET));
    let found = store.secret(b"Mufasa", b"testrealm@host.com", Algorithm::Md5);
    assert!(rt; found.is_some_and(|secret| secret.bytes() == MUFASA));
    assert!(rt;
        store
            .secret(b"Mufasa", REALM, Algorithm::Sha512t256)
            .is_none()
    );
    assert!(rt;
        store
            .secret(b"Mufasa", b"elsewhere", Algorithm::Sha256)
            .is_none()
    );
    assert!(rt; store.secret(b"Simba", REALM, Algorithm::Sha256).is_none());
    assert!(rt;
        store
            .secret(b"Nala", REALM, Algorithm::Sha512t256)
            .is_some()
    );
    Ok(())
}

#[test]
fn a_name_is_found_by_its_hash(rt: HostRuntime) -> Result<(), Fail> {
    let store = Store::read(rt.alloc(), several())?;
    let found = store.by_userhash(Algorithm::Sha256, REALM, NAME_HASH);
    assert!(rt; found.is_some_and(|name| name.bytes() == b"Mufasa".as_slice()));
    assert!(rt;
        store
            .by_userhash(Algorithm::Sha256, REALM, SECRET)
            .is_none()
    );
    Ok(())
}

#[test]
fn a_store_is_written_in_the_second_version(rt: HostRuntime) -> Result<(), Fail> {
    let store = Store::read(rt.alloc(), flagged())?;
    assert!(rt; store.write(rt.alloc())?.bytes() == flagged());
    assert_eq!(rt; reads_what_is_written(rt.alloc(), &store)?.entries(), 5);
    let store = Store::read(rt.alloc(), one())?;
    assert!(rt; store.write(rt.alloc())?.bytes() == one_written());
    assert!(rt; Store::new(rt.alloc()).write(rt.alloc())?.bytes() == b"authstore 2\n".as_slice());
    Ok(())
}

#[test]
fn an_entry_that_is_off_is_not_found(rt: HostRuntime) -> Result<(), Fail> {
    let mut store = Store::read(rt.alloc(), flagged())?;
    assert_eq!(rt; store.entries(), 5);
    assert!(rt; store.secret(b"Mufasa", REALM, Algorithm::Md5).is_none());
    assert!(rt;
        store
            .scram(b"Nala", REALM)
            .is_some_and(|keys| keys.i == 4096)
    );
    assert!(rt; store.scram(b"Mufasa", REALM).is_none());
    assert_eq!(rt; store.set_enabled(b"Nala", REALM, false), 2);
    assert!(rt; store.scram(b"Nala", REALM).is_none());
    assert_eq!(rt; store.set_enabled(b"Mufasa", REALM, true), 2);
    let found = store.secret(b"Mufasa", REALM, Algorithm::Md5);
    assert!(rt; found.is_some_and(|secret| secret.bytes() == ZEROS));
    assert_eq!(rt; store.set_enabled(b"Mufasa", REALM, false), 2);
    assert!(rt;
        store
            .by_userhash(Algorithm::Sha256, REALM, NAME_HASH)
            .is_none()
    );
    assert_eq!(rt; store.set_enabled(b"Simba", REALM, false), 0);
    assert_eq!(rt; store.entries(), 5);
    Ok(())
}

/// A line of which the name has 65 bytes.
const LONG_NAME: &[u8] =
    b"nnnnnnnnnnnnnnnnnnnnnnnnnnnnnnnnnnnnnnnnnnnnnnnnnnnnnnnnnnnnnnnnn:r:md5:0";

/// Asserts that the line has the fault, behind a good one of this text.
fn check_line(
    rt: &impl Abort,
    alloc: Global,
    before: &[u8],
    line: &[u8],
    why: LineFault,
) -> Result<(), Fail> {
    let mut text = Octets::of(alloc, before)?;
    text.extend(line)?;
    text.extend(b"\n")?;
    let fault = fault_of(alloc, text.bytes());
    assert_eq!(rt; fault, Some(StoreError::BadLine { line: 3, why }));
    Ok(())
}

#[test]
fn the_fault_of_a_line_is_named(rt: HostRuntime) -> Result<(), Fail> {
    for (line, why) in [
        (b"".as_slice(), LineFault::Form),
        (b"Nala:r:md5", LineFault::Form),
        (b":r:md5:00000000000000000000000000000000:", LineFault::Form),
        (b":r:md5:00000000000000000000000000000000", LineFault::Name),
        (b"N\tala::scram:0", LineFault::Name),
        (LONG_NAME, LineFault::Name),
        (
            b"Nala::md5:00000000000000000000000000000000",
            LineFault::Realm,
        ),
        (b"Nala:\x7f:scram:0", LineFault::Realm),
        (
            b"Nala:r:MD5:00000000000000000000000000000000",
            LineFault::Kind,
        ),
        (b"Nala:r:scram-sha-1:4096,", LineFault::Kind),
        (b"Nala:r:md5:on:", LineFault::Form),
        (b"Nala:r:scram-sha-256:4096,", LineFault::Value),
        (b"Nala:r:md5:", LineFault::Value),
        (
            b"Nala:r:md5:0000000000000000000000000000000A",
            LineFault::Value,
        ),
        (
            b"Nala:r:sha-256:00000000000000000000000000000000",
            LineFault::Value,
        ),
    ] {
        check_line(&rt, rt.alloc(), one(), line, why)?;
    }
    Ok(())
}

#[test]
fn the_fault_of_a_line_with_a_flag_is_named(rt: HostRuntime) -> Result<(), Fail> {
    for (line, why) in [
        (
            b"Nala:r:md5:00000000000000000000000000000000".as_slice(),
            LineFault::Form,
        ),
        (
            b"Nala:r:md5:on:00000000000000000000000000000000:",
            LineFault::Form,
        ),
        (b"Nala:r:md6:yes:0", LineFault::Kind),
        (
            b"Nala:r:md5:yes:00000000000000000000000000000000",
            LineFault::Flag,
        ),
        (b"Nala:r:md5::0", LineFault::Flag),
        (b"Nala:r:md5:off:0", LineFault::Value),
        (b"Nala:r:scram-sha-256:on:4096,AA==", LineFault::Value),
        (
            b"Nala:r:scram-sha-256:on:04096,AAAAAAAAAAAAAAAAAAAAAA==,cYb24178IFPJfwkjIWWOe5UyMYsPha0jpvVheOzD7fM=,VwyhxkJCO8QGAizhocQO03bRswvgJ9KCi+BMFMz6uvY=",
            LineFault::Value,
        ),
        (
            b"Nala:r:scram-sha-256:on:4294967296,AAAAAAAAAAAAAAAAAAAAAA==,cYb24178IFPJfwkjIWWOe5UyMYsPha0jpvVheOzD7fM=,VwyhxkJCO8QGAizhocQO03bRswvgJ9KCi+BMFMz6uvY=",
            LineFault::Value,
        ),
        (
            b"Nala:r:scram-sha-256:on:4096,,cYb24178IFPJfwkjIWWOe5UyMYsPha0jpvVheOzD7fM=,VwyhxkJCO8QGAizhocQO03bRswvgJ9KCi+BMFMz6uvY=",
            LineFault::Value,
        ),
        (
            b"Nala:r:scram-sha-256:on:4096,AB==,cYb24178IFPJfwkjIWWOe5UyMYsPha0jpvVheOzD7fM=,VwyhxkJCO8QGAizhocQO03bRswvgJ9KCi+BMFMz6uvY=",
            LineFault::Value,
        ),
        (
            b"Nala:r:scram-sha-256:on:4096,AAAA,cYb24178IFPJfwkjIWWOe5UyMYsPha0jpvVheOzD7fM,VwyhxkJCO8QGAizhocQO03bRswvgJ9KCi+BMFMz6uvY=",
            LineFault::Value,
        ),
    ] {
        check_line(&rt, rt.alloc(), one_written(), line, why)?;
    }
    Ok(())
}

#[test]
fn keys_of_a_password_are_set(rt: HostRuntime) -> Result<(), Fail> {
    let mut salt = ArrayVec::new();
    assert!(rt; salt.try_extend_from_slice(&[0; 16]).is_ok() && !salt.is_empty());
    let secret = Secret::of_salted(b"pencil", &salt, 4096);
    let mut store = Store::new(rt.alloc());
    assert!(rt; store.entries() < 10);
    store.set(rt.alloc(), b"user", b"r", &secret)?;
    let mut text = Octets::of(rt.alloc(), b"authstore 2\nuser:r:scram-sha-256:on:")?;
    text.extend(KEYS)?;
    text.push(b'\n')?;
    assert!(rt; store.write(rt.alloc())?.bytes() == text.bytes());
    assert!(rt;
        store
            .scram(b"user", b"r")
            .is_some_and(|keys| keys.salt.len() == 16)
    );
    Ok(())
}

#[test]
fn the_fault_of_the_first_or_last_line_is_named(rt: HostRuntime) -> Result<(), Fail> {
    for text in [
        b"".as_slice(),
        b"\n",
        b"authstore 3\n",
        b" authstore 1\n",
        b"authstore 1\r\n",
    ] {
        let fault = fault_of(rt.alloc(), text);
        assert_eq!(rt;
            fault,
            Some(StoreError::BadLine {
                line: 1,
                why: LineFault::Header
            })
        );
    }
    for text in [b"authstore 1".as_slice(), b"authstore 2"] {
        let fault = fault_of(rt.alloc(), text);
        assert_eq!(rt;
            fault,
            Some(StoreError::BadLine {
                line: 1,
                why: LineFault::Form
            })
        );
    }
    let fault = fault_of(
        rt.alloc(),
        b"authstore 1\nMufasa:r:md5:00000000000000000000000000000000",
    );
    assert_eq!(rt;
        fault,
        Some(StoreError::BadLine {
            line: 2,
            why: LineFault::Form
        })
    );
    let fault = fault_of(rt.alloc(), b"authstore 1\n:r:md5:0\nMufasa:r:md5");
    assert_eq!(rt;
        fault,
        Some(StoreError::BadLine {
            line: 2,
            why: LineFault::Name
        })
    );
    Ok(())
}

#[test]
fn lines_out_of_order_are_named(rt: HostRuntime) -> Result<(), Fail> {
    let mut doubled = Octets::of(rt.alloc(), one())?;
    doubled.extend(b"Mufasa:testrealm@host.com:md5:00000000000000000000000000000000\n")?;
    let fault = fault_of(rt.alloc(), doubled.bytes());
    assert_eq!(rt; fault, Some(StoreError::Repeated { line: 3 }));
    let fault = fault_of(
        rt.alloc(),
        b"authstore 1\nb:r:md5:00000000000000000000000000000000\na:r:md5:00000000000000000000000000000000\n",
    );
    assert_eq!(rt; fault, Some(StoreError::Unsorted { line: 3 }));
    Ok(())
}

/// Sets the secret `MUFASA` in a store that has room for it.
fn set_mufasa(
    rt: &impl Abort,
    alloc: Global,
    store: &mut Store,
    name: &[u8],
    realm: &[u8],
) -> Result<(), StoreError> {
    assert!(rt; store.entries() < 10);
    let secret = Secret::of_password(
        Algorithm::Md5,
        b"Mufasa",
        b"testrealm@host.com",
        b"Circle Of Life",
    );
    store.set(alloc, name, realm, &secret)
}

#[test]
fn a_secret_is_set_and_removed(rt: HostRuntime) -> Result<(), Fail> {
    let mut store = Store::read(rt.alloc(), flagged())?;
    for (name, realm) in [(b"a:b".as_slice(), b"r".as_slice()), (b"a", b"")] {
        let refused = set_mufasa(&rt, rt.alloc(), &mut store, name, realm);
        assert_eq!(rt; refused, Err(StoreError::BadName));
    }
    assert!(rt; store.write(rt.alloc())?.bytes() == flagged());
    set_mufasa(&rt, rt.alloc(), &mut store, b"Mufasa", REALM)?;
    assert_eq!(rt; store.entries(), 5);
    assert!(rt; store.secret(b"Mufasa", REALM, Algorithm::Md5).is_some());
    set_mufasa(&rt, rt.alloc(), &mut store, b"Lion", b"r")?;
    assert_eq!(rt; store.entries(), 6);
    assert!(rt; has_md5(&store, b"Lion", MUFASA));
    assert!(rt; store.remove(b"Mufasa", REALM));
    assert_eq!(rt; store.entries(), 4);
    assert!(rt; !store.remove(b"Mufasa", REALM));
    let kept = store.secret(b"Mufasa", b"testrealm@host.com", Algorithm::Md5);
    assert!(rt; kept.is_some());
    Ok(())
}

/// Imports a short text into a store that has room for it.
fn import(
    rt: &impl Abort,
    alloc: Global,
    store: &mut Store,
    text: &[u8],
) -> Result<u32, StoreError> {
    assert!(rt; store.entries() < 10 && text.len() < 1000);
    store.import_htdigest(alloc, text)
}

#[test]
fn a_text_of_htdigest_is_imported(rt: HostRuntime) -> Result<(), Fail> {
    let mut store = Store::new(rt.alloc());
    let text = b"Mufasa:testrealm@host.com:939e7578ed9e3c518a452acee763bce9";
    assert_eq!(rt; import(&rt, rt.alloc(), &mut store, text)?, 1);
    assert!(rt; store.write(rt.alloc())?.bytes() == one_written());
    Ok(())
}

fn htdigest() -> &'static [u8] {
    b"b:r:939E7578ED9E3C518A452ACEE763BCE9\r\n\
      \n\
      a:r:00000000000000000000000000000000\n\
      b:r:ffffffffffffffffffffffffffffffff\n\
      \r\n\
      b:s:00000000000000000000000000000000"
}

#[test]
fn of_two_lines_the_first_counts(rt: HostRuntime) -> Result<(), Fail> {
    let mut store = Store::read(
        rt.alloc(),
        b"authstore 1\na:r:md5:11111111111111111111111111111111\nc:r:md5:22222222222222222222222222222222\n",
    )?;
    assert_eq!(rt; import(&rt, rt.alloc(), &mut store, htdigest())?, 3);
    assert_eq!(rt; store.entries(), 4);
    assert!(rt; has_md5(&store, b"a", ZEROS));
    assert!(rt; has_md5(&store, b"b", MUFASA));
    assert!(rt; has_md5(&store, b"c", b"22222222222222222222222222222222"));
    Ok(())
}

#[test]
fn a_faulty_import_changes_nothing(rt: HostRuntime) -> Result<(), Fail> {
    let mut store = Store::new(rt.alloc());
    for (text, line, why) in [
        (b"a:r".as_slice(), 1, LineFault::Form),
        (
            b"\na:r:00000000000000000000000000000000:\n",
            2,
            LineFault::Form,
        ),
        (b":r:0\n", 1, LineFault::Name),
        (b"a::0\n", 1, LineFault::Realm),
        (
            b"a:r:00000000000000000000000000000000\na:r:0\n",
            2,
            LineFault::Value,
        ),
        (
            b"a:r:0000000000000000000000000000000g\n",
            1,
            LineFault::Value,
        ),
        (
            b"a:r:00000000000000000000000000000000\r",
            1,
            LineFault::Value,
        ),
    ] {
        let refused = import(&rt, rt.alloc(), &mut store, text);
        assert_eq!(rt; refused, Err(StoreError::BadLine { line, why }));
    }
    assert_eq!(rt; store.entries(), 0);
    Ok(())
}
