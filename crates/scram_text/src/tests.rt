//! Texts and what their readers say.
use crate::{ClientFinal, ClientFirst, Flag, ReauthNonce, ScramError, ServerFinal, ServerFirst};
use auth_grammar::Octets;
use std::alloc::{AllocError, Global};
use std::process::Abort;
use std::test::Fail;

/// Client-first texts: RFC 5802 section 7's form, with each refusal.
const CLIENT_FIRST: [(&str, &str); 20] = [
    ("n,,n=user,r=rOprNGfwEbeRWgbNEkqO", "read"),
    ("y,,n=a=2Cb,r=x,e=2,z=,=", "no message at 21"),
    ("n,,n=us=er,r=abc", "no message at 8"),
    ("p=tls-unique,,n=user,r=abc", "channel binding asked for"),
    ("n,a=bob,n=user,r=abc", "authorization identity given"),
    ("n,,m=x,n=user,r=abc", "mandatory extension"),
    ("n,,n=user,m=x", "no message at 10"),
    ("x,,m=x", "no message at 0"),
    ("n,n=user,r=abc", "no message at 2"),
    ("n,,n=,r=abc", "no message at 5"),
    ("n,,n=us=2cer,r=abc", "no message at 9"),
    ("n,,n=us=2", "no message at 9"),
    ("n,,n=user,r=", "no message at 12"),
    ("n,,n=user,r=a b", "no message at 13"),
    ("n,,n=user,r=abc,", "no message at 16"),
    ("n,,n=user,r=abc,1=x", "no message at 16"),
    ("n,,n=user,r=abc,m=x", "read"),
    ("n,,r=abc,n=user", "no message at 3"),
    (
        "n,,n=aaaaaaaaaaaaaaaaaaaaaaaaaaaaaaaaaaaaaaaaaaaaaaaaaaaaaaaaaaaaaaaaa,r=abc",
        "Name is longer than 64",
    ),
    ("", "no message at 0"),
];

/// Server-first texts (RFC 5802 section 7).
const SERVER_FIRST: [(&str, &str); 14] = [
    ("r=abc,s=W22ZaJ0SNY7soEsUEjb6gQ==,i=4096", "read"),
    (
        "r=abc,s=W22ZaJ0SNY7soEsUEjb6gQ==,i=04096",
        "no message at 35",
    ),
    ("r=abc,s=AAAA,i=4294967295,x=1,m=2", "read"),
    ("r=abc,s=AAAA,i=4294967296", "no message at 24"),
    ("r=abc,s=AAAA,i=0", "no message at 15"),
    ("r=abc,s=AAAA,i=1,x=", "no message at 19"),
    ("r=abc,s=,i=1", "no message at 8"),
    ("r=abc,s=AB==,i=1", "no message at 10"),
    ("r=abc,s=AAB=,i=1", "no message at 11"),
    ("r=abc,s=AAA=A", "no message at 12"),
    ("m=x,r=abc,s=AAAA,i=1", "mandatory extension"),
    ("r=abc,m=x,s=AAAA,i=1", "no message at 6"),
    ("s=AAAA,r=abc,i=1", "no message at 0"),
    (
        "r=aaaaaaaaaaaaaaaaaaaaaaaaaaaaaaaaaaaaaaaaaaaaaaaaaaaaaaaaaaaaaaaaaaaaaaaaaaaaaaaaaaaaaaaaaaaaaaaaaaaaaaaaaaaaaaaaaaaaaaaaaaaaaaaaaaaaaaaaaaaaaaaaaaaaaaaaaaaaaaaaaaaaaaaaaaaaaaaaaaaaaaaaaaaaaaaaaaaaaaaaaaaaaaaaaaaaaaaaaaaaaaaaaaaaaaaaaaaaaaaaaaaaaaaaaaaaaaa",
        "First is longer than 256",
    ),
];

/// Client-final texts.
const CLIENT_FINAL: [(&str, &str); 10] = [
    (
        "c=biws,r=abc,p=dHzbZapWIk4jUhN+Ute9ytag9zjfMHgsqmmiz7AndVQ=",
        "read",
    ),
    (
        "c=eSws,r=abc,x=1,m=y,p=dHzbZapWIk4jUhN+Ute9ytag9zjfMHgsqmmiz7AndVQ=",
        "read",
    ),
    (
        "c=bizs,r=abc,p=dHzbZapWIk4jUhN+Ute9ytag9zjfMHgsqmmiz7AndVQ=",
        "no message at 4",
    ),
    (
        "m=x,c=biws,r=abc,p=dHzbZapWIk4jUhN+Ute9ytag9zjfMHgsqmmiz7AndVQ=",
        "mandatory extension",
    ),
    (
        "c=biws,r=abc,p=dHzbZapWIk4jUhN+Ute9ytag9zjfMHgsqmmiz7AndVQ=,x=1",
        "no message at 59",
    ),
    ("c=biws,r=abc", "no message at 12"),
    (
        "c=biws,r=abc,1=x,p=dHzbZapWIk4jUhN+Ute9ytag9zjfMHgsqmmiz7AndVQ=",
        "no message at 13",
    ),
    ("c=biws,r=abc,p=AAAA", "no message at 19"),
    (
        "c=biws,r=abc,p=dHzbZapWIk4jUhN+Ute9ytag9zjfMHgsqmmiz7AndVR=",
        "no message at 57",
    ),
    ("n,,n=user,r=abc", "no message at 0"),
];

/// Server-final texts.
const SERVER_FINAL: [(&str, &str); 9] = [
    (
        "v=6rriTRBi23WpRR/wtup+mMhUZUn/dB5nLTJRsjl95G4=",
        "signature",
    ),
    (
        "v=6rriTRBi23WpRR/wtup+mMhUZUn/dB5nLTJRsjl95G4=,m=1",
        "signature",
    ),
    (
        "v=6rriTRBi23WpRR/wtup+mMhUZUn/dB5nLTJRsjl95G4=,",
        "no message at 47",
    ),
    ("v=rmF9pqV8S7suAoZWja4dJRkFsKQ=", "no message at 29"),
    ("e=other-error", "fault"),
    ("e=other-error,x=y", "fault"),
    ("e=,x=y", "no message at 2"),
    ("m=x,e=other-error", "no message at 0"),
    ("", "no message at 0"),
];

/// The kinds of message.
#[derive(Drop, Clone, Copy)]
enum Kind {
    ClientFirst,
    ServerFirst,
    ClientFinal,
    ServerFinal,
}

/// What reading says.
fn said(alloc: Global, kind: Kind, text: &[u8]) -> Result<&'static str, ScramError> {
    match kind {
        Kind::ClientFirst => {
            ClientFirst::read(alloc, text)?;
            Ok("read")
        }
        Kind::ServerFirst => {
            ServerFirst::read(alloc, text)?;
            Ok("read")
        }
        Kind::ClientFinal => {
            ClientFinal::read(alloc, text)?;
            Ok("read")
        }
        Kind::ServerFinal => match ServerFinal::read(alloc, text)? {
            ServerFinal::Signature(_) => Ok("signature"),
            ServerFinal::Fault(_) => Ok("fault"),
        },
    }
}

/// What is said of a text.
fn told(alloc: Global, kind: Kind, text: &[u8]) -> Result<String, AllocError> {
    match said(alloc, kind, text) {
        Ok(said) => format!(in alloc; "{said}"),
        Err(error) => format!(in alloc; "{error}"),
    }
}

fn check_rows(
    rt: &impl Abort,
    alloc: Global,
    kind: Kind,
    rows: &[(&str, &str)],
) -> Result<(), Fail> {
    for (text, wanted) in rows {
        let told = told(alloc, kind, text.as_bytes())?;
        assert_eq!(rt; told.as_str(), *wanted);
    }
    Ok(())
}

/// Each beginning of the text but those of these lengths goes on to its end, and is no message.
fn check_beginnings(
    rt: &impl Abort,
    alloc: Global,
    kind: Kind,
    whole: &[u8],
    read: &[usize],
) -> Result<(), Fail> {
    for end in 0..whole.len() {
        if !read.contains(&end) {
            let told = told(alloc, kind, &whole[..end])?;
            let wanted = format!(in alloc; "no message at {end}")?;
            assert_eq!(rt; told.as_str(), wanted.as_str());
        }
    }
    Ok(())
}

#[test]
fn each_text_is_read_or_refused(rt: HostRuntime) -> Result<(), Fail> {
    check_rows(&rt, rt.alloc(), Kind::ClientFirst, &CLIENT_FIRST)?;
    check_rows(&rt, rt.alloc(), Kind::ServerFirst, &SERVER_FIRST)?;
    check_rows(&rt, rt.alloc(), Kind::ClientFinal, &CLIENT_FINAL)?;
    check_rows(&rt, rt.alloc(), Kind::ServerFinal, &SERVER_FINAL)?;
    Ok(())
}

#[test]
fn a_beginning_is_refused_at_its_end(rt: HostRuntime) -> Result<(), Fail> {
    check_beginnings(
        &rt,
        rt.alloc(),
        Kind::ClientFirst,
        b"n,,n=a=2Cb,r=x1,e=2",
        &[14, 15],
    )?;
    check_beginnings(
        &rt,
        rt.alloc(),
        Kind::ServerFirst,
        b"r=x,s=AAA=,i=12,y=z",
        &[14, 15],
    )?;
    let final_text = b"c=eSws,r=x,e=2,p=dHzbZapWIk4jUhN+Ute9ytag9zjfMHgsqmmiz7AndVQ=";
    check_beginnings(&rt, rt.alloc(), Kind::ClientFinal, final_text, &[])?;
    let signature = b"v=6rriTRBi23WpRR/wtup+mMhUZUn/dB5nLTJRsjl95G4=";
    check_beginnings(&rt, rt.alloc(), Kind::ServerFinal, signature, &[])?;
    Ok(())
}

#[test]
fn each_message_is_written(rt: HostRuntime) -> Result<(), Fail> {
    let alloc = rt.alloc();
    let message = ClientFirst::new(alloc, Flag::N, b"a,b=c", b"rOprNGfwEbeRWgbNEkqO")?;
    let text = message.write(alloc)?;
    assert_eq!(rt;
        text.bytes(),
        b"n,,n=a=2Cb=3Dc,r=rOprNGfwEbeRWgbNEkqO".as_slice()
    );
    let message = ServerFirst::new(alloc, b"abc", &[0, 16, 131, 16], 4096)?;
    assert_eq!(rt;
        message.write(alloc)?.bytes(),
        b"r=abc,s=ABCDEA==,i=4096".as_slice()
    );
    let message = ClientFinal::new(alloc, Flag::Y, b"abc", &[0; 32])?;
    assert_eq!(rt;
        message.write(alloc)?.bytes(),
        b"c=eSws,r=abc,p=AAAAAAAAAAAAAAAAAAAAAAAAAAAAAAAAAAAAAAAAAAA=".as_slice()
    );
    let message = ServerFinal::Signature([0; 32]);
    assert_eq!(rt;
        message.write(alloc)?.bytes(),
        b"v=AAAAAAAAAAAAAAAAAAAAAAAAAAAAAAAAAAAAAAAAAAA=".as_slice()
    );
    Ok(())
}

#[test]
fn each_message_has_its_parts(rt: HostRuntime) -> Result<(), Fail> {
    let alloc = rt.alloc();
    let Ok(first) = ClientFirst::read(alloc, b"n,,n=a=2Cb,r=x") else {
        return Ok(assert!(rt; false));
    };
    assert_eq!(rt; first.name.bytes(), b"a,b".as_slice());
    assert_eq!(rt; first.nonce.bytes(), b"x".as_slice());
    let Ok(answer) = ServerFirst::read(alloc, b"r=xy,s=ABCDEA==,i=4096,z=1") else {
        return Ok(assert!(rt; false));
    };
    assert_eq!(rt; answer.nonce.bytes(), b"xy".as_slice());
    assert_eq!(rt; answer.salt.bytes(), [0, 16, 131, 16].as_slice());
    assert_eq!(rt; answer.i, 4096);
    assert_eq!(rt;
        answer.text.bytes(),
        b"r=xy,s=ABCDEA==,i=4096,z=1".as_slice()
    );
    let text = b"c=eSws,r=xy,z=1,p=AAAAAAAAAAAAAAAAAAAAAAAAAAAAAAAAAAAAAAAAAAA=";
    let Ok(last) = ClientFinal::read(alloc, text) else {
        return Ok(assert!(rt; false));
    };
    assert_eq!(rt; last.flag, Flag::Y);
    assert_eq!(rt; last.without.bytes(), b"c=eSws,r=xy,z=1".as_slice());
    let Ok(ServerFinal::Fault(error)) = ServerFinal::read(alloc, b"e=other-error,z=1") else {
        return Ok(assert!(rt; false));
    };
    assert_eq!(rt; error.value.bytes(), b"other-error".as_slice());
    Ok(())
}

/// What stands before the `sr` of a reauthentication's nonce, and the count.
const REAUTH: [(&str, &str); 9] = [
    ("rOprNGfwEbeRWgbNEkqO7", "count 7"),
    ("x1y12", "count 12"),
    ("x012", "none"),
    ("x0", "none"),
    ("x4294967295", "count 4294967295"),
    ("x4294967296", "none"),
    ("12", "none"),
    ("x", "none"),
    ("x,1", "none"),
];

const SR: &[u8] = b"jOnyoqyeE7gLyvfGzxzbHTRuXMlMnO+/0AZz";

#[test]
fn reauthentications(rt: HostRuntime) -> Result<(), Fail> {
    for (head, wanted) in REAUTH {
        let mut text = Octets::of(rt.alloc(), head.as_bytes())?;
        text.extend(SR)?;
        let told = match ReauthNonce::read(rt.alloc(), text.bytes())? {
            Some(nonce) => {
                assert_eq!(rt; nonce.write(rt.alloc())?.bytes(), text.bytes());
                format!(in rt.alloc(); "count {}", nonce.count)?
            }
            None => format!(in rt.alloc(); "none")?,
        };
        assert_eq!(rt; told.as_str(), wanted);
    }
    Ok(())
}
