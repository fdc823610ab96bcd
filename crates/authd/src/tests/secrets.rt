//! The commands about secrets. The digest is that of md5sum, and the keys are those of python's hashlib.
use super::pipe::files_of;
use super::{Failing, NONE, Ran, check, link_of, run_over};
use auth_grammar::Octets;
use std::alloc::Global;
use std::process::Abort;
use std::test::Fail;

fn store_text() -> &'static [u8] {
    b"authstore 2\nMufasa:testrealm@host.com:md5:on:939e7578ed9e3c518a452acee763bce9\n"
}

/// The same in the first version.
fn old_text() -> &'static [u8] {
    b"authstore 1\nMufasa:testrealm@host.com:md5:939e7578ed9e3c518a452acee763bce9\n"
}

/// The same with the entry off.
fn off_text() -> &'static [u8] {
    b"authstore 2\nMufasa:testrealm@host.com:md5:off:939e7578ed9e3c518a452acee763bce9\n"
}

fn spaces_text() -> &'static [u8] {
    b"authspaces 1\n/ required MD5 testrealm@host.com\n"
}

/// Entries of `b` and of `a`, in this order.
fn unsorted_text() -> &'static [u8] {
    b"authstore 1\nb:r:md5:939e7578ed9e3c518a452acee763bce9\na:r:md5:939e7578ed9e3c518a452acee763bce9\n"
}

/// Runs a command with an input over these files.
fn ran(
    alloc: Global,
    words: &str,
    input: &[u8],
    files: &[(&[u8], &[u8])],
    failing: Failing,
) -> Result<Ran, Fail> {
    let contents = files_of(alloc, files)?;
    let mut link = link_of(alloc, input, 7, failing)?;
    run_over(alloc, words, &mut link, contents, failing)
}

#[test]
fn check_counts_what_is_there(rt: HostRuntime) -> Result<(), Fail> {
    let alloc = rt.alloc();
    let files: [(&[u8], &[u8]); 2] = [(b"s", store_text()), (b"p", spaces_text())];
    let whole = ran(alloc, "check s p", b"", &files, NONE)?;
    check(&rt, &whole, 0, b"store 1 spaces 1\n", b"", b"a site");
    let empty: [(&[u8], &[u8]); 2] = [(b"s", b"authstore 1\n"), (b"p", b"authspaces 1\n")];
    let none = ran(alloc, "check s p", b"", &empty, NONE)?;
    check(&rt, &none, 0, b"store 0 spaces 0\n", b"", b"an empty site");
    Ok(())
}

#[test]
fn check_names_the_first_fault(rt: HostRuntime) -> Result<(), Fail> {
    let alloc = rt.alloc();
    let words = "check s p";
    let (store, spaces): ((&[u8], &[u8]), (&[u8], &[u8])) = (
        (b"s", store_text()),
        (b"p", spaces_text()),
    );
    let no_store = ran(alloc, words, b"", &[spaces], NONE)?;
    check(&rt, &no_store, 3, b"", b"store absent\n", b"no store");
    let no_spaces = ran(alloc, words, b"", &[store], NONE)?;
    check(&rt, &no_spaces, 3, b"", b"spaces absent\n", b"no spaces");
    // the store's text is refused before the file of the spaces is read
    let unsorted = ran(alloc, words, b"", &[(b"s", unsorted_text())], NONE)?;
    check(&rt, &unsorted, 3, b"", b"store line 3\n", b"`b` before `a`");
    let flag: (&[u8], &[u8]) = (
        b"s",
        b"authstore 2\nMufasa:testrealm@host.com:md5:yes:939e7578ed9e3c518a452acee763bce9\n",
    );
    let no_flag = ran(alloc, words, b"", &[flag], NONE)?;
    check(&rt, &no_flag, 3, b"", b"store line 2\n", b"another flag");
    let bad = ran(
        alloc,
        words,
        b"",
        &[store, (b"p", b"authspaces 1\n/\n")],
        NONE,
    )?;
    check(&rt, &bad, 3, b"", b"spaces line 2\n", b"a bad space");
    for (ran, asked) in [(no_store, 1), (no_spaces, 2), (unsorted, 1), (bad, 2)] {
        assert_eq!(rt; (ran.reads, ran.asked), (0, asked));
    }
    Ok(())
}

#[test]
fn a_fault_ends_check_with_status_4(rt: HostRuntime) -> Result<(), Fail> {
    let alloc = rt.alloc();
    let files: [(&[u8], &[u8]); 2] = [(b"s", store_text()), (b"p", spaces_text())];
    for file in 1..=2 {
        let unread = ran(alloc, "check s p", b"", &files, Failing { file, ..NONE })?;
        check(&rt, &unread, 4, b"", b"", b"a failing file");
    }
    let unwritten = ran(
        alloc,
        "check s p",
        b"",
        &files,
        Failing { write: 2, ..NONE },
    )?;
    check(&rt, &unwritten, 4, b"sto", b"", b"a failing write");
    Ok(())
}

fn htdigest_text() -> &'static [u8] {
    b"Mufasa:testrealm@host.com:939e7578ed9e3c518a452acee763bce9"
}

/// What the file of the store holds, or nothing.
fn stored(ran: &Ran) -> &[u8] {
    match &ran.store {
        Some(text) => text.bytes(),
        None => b"",
    }
}

/// A run that left no file of a store.
fn check_absent(rt: &impl Abort, ran: &Ran, row: &[u8]) {
    assert!(rt; ran.store.is_none(), "store of {row:?}");
}

#[test]
fn import_makes_a_store(rt: HostRuntime) -> Result<(), Fail> {
    let alloc = rt.alloc();
    let fresh = ran(alloc, "import s h", b"", &[(b"h", htdigest_text())], NONE)?;
    check(&rt, &fresh, 0, b"imported 1\n", b"", b"no store");
    assert_eq!(rt; stored(&fresh), store_text());
    let files: [(&[u8], &[u8]); 2] = [(b"s", store_text()), (b"h", b"\n")];
    let same = ran(alloc, "import s h", b"", &files, NONE)?;
    check(&rt, &same, 0, b"imported 0\n", b"", b"no pair");
    assert_eq!(rt; stored(&same), store_text());
    Ok(())
}

#[test]
fn import_refuses_the_store_first(rt: HostRuntime) -> Result<(), Fail> {
    let alloc = rt.alloc();
    let words = "import s h";
    let unsorted = ran(alloc, words, b"", &[(b"s", unsorted_text())], NONE)?;
    check(&rt, &unsorted, 3, b"", b"store line 3\n", b"`b` before `a`");
    assert_eq!(rt; (stored(&unsorted), unsorted.asked), (unsorted_text(), 1));
    let absent = ran(alloc, words, b"", &[], NONE)?;
    check(&rt, &absent, 3, b"", b"htdigest absent\n", b"no files");
    check_absent(&rt, &absent, b"no files");
    let bad = ran(alloc, words, b"", &[(b"h", b"Mufasa\n")], NONE)?;
    check(&rt, &bad, 3, b"", b"htdigest line 1\n", b"no pair");
    check_absent(&rt, &bad, b"no pair");
    let large = vec![in alloc; 0; 16_777_217]?;
    let long = ran(alloc, words, b"", &[(b"h", large.as_slice())], NONE)?;
    check(&rt, &long, 3, b"", b"file too long\n", b"a large text");
    check_absent(&rt, &long, b"a large text");
    Ok(())
}

#[test]
fn a_fault_ends_import_with_status_4(rt: HostRuntime) -> Result<(), Fail> {
    let alloc = rt.alloc();
    let files: [(&[u8], &[u8]); 1] = [(b"h", htdigest_text())];
    // the third call of the files is the replace
    for file in 1..=3 {
        let failed = ran(alloc, "import s h", b"", &files, Failing { file, ..NONE })?;
        check(&rt, &failed, 4, b"", b"", b"a failing file");
        check_absent(&rt, &failed, b"a failing file");
    }
    let unwritten = ran(
        alloc,
        "import s h",
        b"",
        &files,
        Failing { write: 2, ..NONE },
    )?;
    check(&rt, &unwritten, 4, b"imp", b"", b"a failing write");
    assert_eq!(rt; stored(&unwritten), store_text());
    Ok(())
}

fn passwd_words() -> &'static str {
    "passwd s Mufasa testrealm@host.com md5"
}

/// A password of so many letters, with an end.
fn letters(alloc: Global, count: usize, end: &[u8]) -> Result<Octets, Fail> {
    let mut line = Octets::from_vec(vec![in alloc; b'a'; count]?);
    line.extend(end)?;
    Ok(line)
}

#[test]
fn passwd_sets_the_secret_of_the_first_line(rt: HostRuntime) -> Result<(), Fail> {
    let alloc = rt.alloc();
    for input in [
        b"Circle Of Life\n".as_slice(),
        b"Circle Of Life\r\n",
        b"Circle Of Life",
        b"Circle Of Life\nHakuna Matata\n",
    ] {
        let set = ran(alloc, passwd_words(), input, &[], NONE)?;
        let line = b"set Mufasa testrealm@host.com md5\n";
        check(&rt, &set, 0, line, b"", input);
        assert_eq!(rt; stored(&set), store_text());
    }
    Ok(())
}

#[test]
fn passwd_takes_1_to_128_printable_bytes(rt: HostRuntime) -> Result<(), Fail> {
    let alloc = rt.alloc();
    for end in [b"".as_slice(), b"\n", b"\r\n"] {
        let most = letters(alloc, 128, end)?;
        let set = ran(alloc, passwd_words(), most.bytes(), &[], NONE)?;
        assert_eq!(rt; set.status, 0);
        for count in [0, 129, 130, 200] {
            let line = letters(alloc, count, end)?;
            let refused = ran(alloc, passwd_words(), line.bytes(), &[], NONE)?;
            check(
                &rt,
                &refused,
                2,
                b"",
                b"usage: authd COMMAND WORDS\n",
                line.bytes(),
            );
            check_absent(&rt, &refused, line.bytes());
            assert_eq!(rt; refused.asked, 0);
        }
    }
    for line in [b"a\tb\n".as_slice(), b"a\r", b"a\r\r\n", b"\xC3\xA4\n"] {
        let refused = ran(alloc, passwd_words(), line, &[], NONE)?;
        assert_eq!(rt; (refused.status, refused.asked), (2, 0), "{line:?}");
    }
    Ok(())
}

#[test]
fn passwd_leaves_a_store_that_is_refused(rt: HostRuntime) -> Result<(), Fail> {
    let alloc = rt.alloc();
    let refused = ran(
        alloc,
        passwd_words(),
        b"a\n",
        &[(b"s", unsorted_text())],
        NONE,
    )?;
    check(&rt, &refused, 3, b"", b"store line 3\n", b"`b` before `a`");
    assert_eq!(rt; stored(&refused), unsorted_text());
    Ok(())
}

#[test]
fn a_fault_ends_passwd_with_status_4(rt: HostRuntime) -> Result<(), Fail> {
    let alloc = rt.alloc();
    // the second call of the files is the replace
    for failing in [
        Failing { read: 2, ..NONE },
        Failing { file: 1, ..NONE },
        Failing { file: 2, ..NONE },
    ] {
        let failed = ran(alloc, passwd_words(), b"ab\n", &[], failing)?;
        check(&rt, &failed, 4, b"", b"", b"a fault");
        check_absent(&rt, &failed, b"a fault");
    }
    let failing = Failing { write: 2, ..NONE };
    let unwritten = ran(alloc, passwd_words(), b"Circle Of Life\n", &[], failing)?;
    check(&rt, &unwritten, 4, b"set", b"", b"a failing write");
    assert_eq!(rt; stored(&unwritten), store_text());
    Ok(())
}

#[test]
fn passwd_draws_a_salt_for_keys(rt: HostRuntime) -> Result<(), Fail> {
    let alloc = rt.alloc();
    let usual =
        b"authstore 2\nuser:r:scram-sha-256:on:4096,AAAAAAAAAAAAAAAAAAAAAA==,cYb24178IFPJfwkjIWWOe5UyMYsPha0jpvVheOzD7fM=,VwyhxkJCO8QGAizhocQO03bRswvgJ9KCi+BMFMz6uvY=\n".as_slice();
    let more =
        b"authstore 2\nuser:r:scram-sha-256:on:5000,AAAAAAAAAAAAAAAAAAAAAA==,PDP6YymVcvAyiyPECI7OXfKqa/5t9rOF7jZd5uIYZQQ=,lsXxOO5mfItU6OUbO1ryz/NlQ9fF1kKS8mC5w1IO8+I=\n".as_slice();
    for (words, wanted) in [
        ("passwd s user r scram-sha-256", usual),
        ("passwd s user r scram-sha-256 --rounds=4096", usual),
        ("passwd s user r scram-sha-256 --rounds=5000", more),
        ("passwd --rounds=5000 s user r scram-sha-256", more),
        ("passwd s user --rounds=5000 r scram-sha-256", more),
    ] {
        let set = ran(alloc, words, b"pencil\n", &[], NONE)?;
        check(
            &rt,
            &set,
            0,
            b"set user r scram-sha-256\n",
            b"",
            words.as_bytes(),
        );
        assert_eq!(rt; stored(&set), wanted, "{words}");
    }
    let failing = Failing { draw: 1, ..NONE };
    let failed = ran(
        alloc,
        "passwd s user r scram-sha-256",
        b"pencil\n",
        &[],
        failing,
    )?;
    check(&rt, &failed, 4, b"", b"", b"a failing draw");
    assert_eq!(rt; failed.asked, 1);
    check_absent(&rt, &failed, b"a failing draw");
    Ok(())
}

/// A text of the store that `switch` and `migrate` find or leave.
#[derive(Clone, Copy)]
enum StoreText {
    Old,
    Off,
    On,
}

impl StoreText {
    fn bytes(self) -> &'static [u8] {
        match self {
            StoreText::Old => old_text(),
            StoreText::Off => off_text(),
            StoreText::On => store_text(),
        }
    }
}

/// Words, the store that they find, what is printed, the store that they leave, and how often files are asked for: once
/// for the store, and once more where it is replaced.
const SWITCHES: [(&str, StoreText, &[u8], StoreText, usize); 6] = [
    (
        "disable s Mufasa testrealm@host.com",
        StoreText::Old,
        b"disabled 1\n",
        StoreText::Off,
        2,
    ),
    (
        "enable s Mufasa testrealm@host.com",
        StoreText::Off,
        b"enabled 1\n",
        StoreText::On,
        2,
    ),
    (
        "disable s Nobody testrealm@host.com",
        StoreText::Old,
        b"disabled 0\n",
        StoreText::Old,
        1,
    ),
    (
        "enable s a:b testrealm@host.com",
        StoreText::Off,
        b"enabled 0\n",
        StoreText::Off,
        1,
    ),
    (
        "migrate s",
        StoreText::Old,
        b"migrated 1\n",
        StoreText::On,
        2,
    ),
    (
        "migrate s",
        StoreText::Off,
        b"migrated 1\n",
        StoreText::Off,
        2,
    ),
];

#[test]
fn a_name_is_switched_off_and_on(rt: HostRuntime) -> Result<(), Fail> {
    let alloc = rt.alloc();
    for (words, before, link, after, asked) in SWITCHES {
        let switched = ran(alloc, words, b"", &[(b"s", before.bytes())], NONE)?;
        check(&rt, &switched, 0, link, b"", words.as_bytes());
        assert_eq!(rt;
            (stored(&switched), switched.asked),
            (after.bytes(), asked),
            "{words}"
        );
    }
    Ok(())
}

#[test]
fn what_keeps_from_switching_leaves_the_store(rt: HostRuntime) -> Result<(), Fail> {
    let alloc = rt.alloc();
    for words in [
        "disable s Mufasa testrealm@host.com",
        "enable s Mufasa testrealm@host.com",
        "migrate s",
    ] {
        let absent = ran(alloc, words, b"", &[], NONE)?;
        check(&rt, &absent, 3, b"", b"store absent\n", words.as_bytes());
        check_absent(&rt, &absent, words.as_bytes());
        let unsorted = ran(alloc, words, b"", &[(b"s", unsorted_text())], NONE)?;
        check(&rt, &unsorted, 3, b"", b"store line 3\n", words.as_bytes());
        for file in 1..=2 {
            let failing = Failing { file, ..NONE };
            let failed = ran(alloc, words, b"", &[(b"s", old_text())], failing)?;
            check(&rt, &failed, 4, b"", b"", words.as_bytes());
            assert_eq!(rt; stored(&failed), old_text(), "{words}");
        }
    }
    Ok(())
}
