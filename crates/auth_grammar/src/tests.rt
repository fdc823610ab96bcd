//! Worked texts, whole and cut after every byte.
use crate::*;
use std::alloc::Global;
use std::test::Fail;

/// The error, its place and its name.
fn refused(alloc: Global, error: &GrammarError) -> Result<Octets, Fail> {
    let mut text = Octets::new(alloc);
    match error {
        GrammarError::NotGrammar { at } => text.extend(format!(in alloc; "not {at}")?.as_bytes())?,
        GrammarError::Twice { at, name } => {
            text.extend(format!(in alloc; "twice {at} ")?.as_bytes())?;
            text.extend(name.bytes())?;
        }
        GrammarError::OutOfMemory => text.extend(b"out of memory")?,
    }
    Ok(text)
}

fn line(alloc: Global, text: &[u8]) -> Result<OctetsList, Fail> {
    let mut lines = OctetsList::new(alloc);
    lines.push(Octets::of(alloc, text)?)?;
    Ok(lines)
}

fn challenges(alloc: Global, text: &[u8]) -> Result<Octets, Fail> {
    match read_challenges(alloc, &line(alloc, text)?) {
        Ok(items) => Ok(write_items(alloc, &items, Quoting::Challenge)?),
        Err(error) => refused(alloc, &error),
    }
}

fn credentials(alloc: Global, text: &[u8]) -> Result<Octets, Fail> {
    match read_credentials(alloc, text) {
        Ok(item) => {
            let mut items = ItemList::new(alloc);
            items.push(item)?;
            Ok(write_items(alloc, &items, Quoting::Challenge)?)
        }
        Err(error) => refused(alloc, &error),
    }
}

fn params(alloc: Global, text: &[u8]) -> Result<Octets, Fail> {
    match read_params(alloc, &line(alloc, text)?) {
        Ok(params) => Ok(write_params(alloc, &params, Quoting::Challenge)?),
        Err(error) => refused(alloc, &error),
    }
}

/// What a feed answers to the pieces, one after another.
fn fed(alloc: Global, pieces: &[&[u8]]) -> Result<Octets, Fail> {
    let mut feed = ItemFeed::new(alloc);
    for piece in pieces {
        if let Err(error) = feed.feed(piece) {
            return refused(alloc, &error);
        }
    }
    match feed.finish(alloc) {
        Ok(items) => Ok(write_items(alloc, &items, Quoting::Challenge)?),
        Err(error) => refused(alloc, &error),
    }
}

/// Each line is a text and what it spells as challenges, as credentials and as parameters alone. The last ones have so
/// many parameters that their names are compared through a set.
const ROWS: &[u8] = b"\
||not 0|\n\
,||not 1|\n\
a=b|not 1|not 1|a=\"b\"\n\
a b=|a b=|a b=|not 2\n\
a b= |a b=|a b=|not 2\n\
a b==|a b==|a b==|not 2\n\
a b =|not 5|not 5|not 2\n\
a b= c|a b=\"c\"|a b=\"c\"|not 2\n\
a b = c|a b=\"c\"|a b=\"c\"|not 2\n\
a b==c|not 5|not 5|not 2\n\
a b=c=|a b=\"c=\"|a b=\"c=\"|not 2\n\
a b=c==d|not 7|not 7|not 2\n\
a b=!|a b=\"!\"|a b=\"!\"|not 2\n\
a b=!=|not 5|not 5|not 2\n\
a b=/!|not 5|not 5|not 2\n\
a b!|not 4|not 4|not 2\n\
a b=c d|not 6|not 6|not 2\n\
a b c|not 4|not 4|not 2\n\
a b, c=d|not 6|not 5|not 2\n\
a b=, c=d|not 7|not 6|not 2\n\
a b=c, d|a b=\"c\", d|not 8|not 2\n\
a b=c, d e|a b=\"c\", d e|not 9|not 2\n\
a,b|a, b|not 3|not 1\n\
a b=\"|not 5|not 5|not 2\n\
a b=\"\\|not 6|not 6|not 2\n\
a b=\"\\\x01\"|not 6|not 6|not 2\n\
a b=\"\x7f\"|not 5|not 5|not 2\n\
a b=c\"|not 5|not 5|not 2\n\
a\tb=c|not 2|not 2|not 2\n\
a \tb=c|not 3|not 3|not 3\n\
, Basic realm=\"a,b\" , Digest realm=\"x\" , nonce=\"n\\\"q\", qop=\"auth\", Negotiate abc==|Basic realm=\"a,b\", Digest realm=\"x\", nonce=\"n\\\"q\", qop=\"auth\", Negotiate abc==|not 29|not 8\n\
Digest realm=\"x\", realm=\"y\"|twice 18 realm|twice 18 realm|not 7\n\
Digest realm=\"x|not 15|not 15|not 7\n\
Digest =x|not 7|not 7|Digest=\"x\"\n\
Negotiate abc==, x=1|not 18|not 17|not 10\n\
SCRAM-SHA-256 data=YWJj/w==|SCRAM-SHA-256 data=\"YWJj/w==\"|SCRAM-SHA-256 data=\"YWJj/w==\"|not 14\n\
qop=auth, ,nc=00000001|not 3|not 3|qop=\"auth\", nc=\"00000001\"\n\
a b=c, B = d|twice 7 B|twice 7 B|not 2\n\
a b=c, a b=d|a b=\"c\", a b=\"d\"|not 9|not 2\n\
a b=c, b=d, =|not 12|not 12|not 2\n\
s a=1, b=1, c=1, d=1, e=1, f=1, g=1, h=1, i=1, j=1, k=1, l=1, m=1, n=1, o=1, p=1, q=1, r=1|s a=\"1\", b=\"1\", c=\"1\", d=\"1\", e=\"1\", f=\"1\", g=\"1\", h=\"1\", i=\"1\", j=\"1\", k=\"1\", l=\"1\", m=\"1\", n=\"1\", o=\"1\", p=\"1\", q=\"1\", r=\"1\"|s a=\"1\", b=\"1\", c=\"1\", d=\"1\", e=\"1\", f=\"1\", g=\"1\", h=\"1\", i=\"1\", j=\"1\", k=\"1\", l=\"1\", m=\"1\", n=\"1\", o=\"1\", p=\"1\", q=\"1\", r=\"1\"|not 2\n\
s a=1, b=1, c=1, d=1, e=1, f=1, g=1, h=1, i=1, j=1, k=1, l=1, m=1, n=1, o=1, p=1, q=1, r=1, A=2|twice 92 A|twice 92 A|not 2\n\
a=1, b=1, c=1, d=1, e=1, f=1, g=1, h=1, i=1, j=1, k=1, l=1, m=1, n=1, o=1, p=1, q=1, r=1, A=2|not 1|not 1|twice 90 A";

/// The parts of a row.
fn columns(row: &[u8]) -> (&[u8], &[u8], &[u8], &[u8]) {
    let (text, rest) = cut_at(row, b'|').unwrap_or((row, b""));
    let (as_challenges, rest) = cut_at(rest, b'|').unwrap_or((rest, b""));
    let (as_credentials, as_params) = cut_at(rest, b'|').unwrap_or((rest, b""));
    (text, as_challenges, as_credentials, as_params)
}

#[test]
fn reads_worked_texts(rt: HostRuntime) -> Result<(), Fail> {
    let alloc = rt.alloc();
    for row in ROWS.split(|b| *b == b'\n') {
        let (text, as_challenges, as_credentials, as_params) = columns(row);
        assert_eq!(rt;
            challenges(alloc, text)?.bytes(),
            as_challenges,
            "challenges in {row:?}"
        );
        assert_eq!(rt;
            credentials(alloc, text)?.bytes(),
            as_credentials,
            "credentials in {row:?}"
        );
        assert_eq!(rt;
            params(alloc, text)?.bytes(),
            as_params,
            "parameters in {row:?}"
        );
        for i in 0..=text.len() {
            let cut = fed(alloc, &[&text[..i], &text[i..]])?;
            assert_eq!(rt; cut.bytes(), as_challenges, "cut at {i} in {row:?}");
        }
    }
    Ok(())
}

/// The text of that number among those of a length over seven bytes.
fn numbered(number: u32, length: usize, text: &mut [u8; 5]) {
    let mut rest = number;
    for b in text.iter_mut().take(length) {
        *b = match rest % 7 {
            0 => b'a',
            1 => b'=',
            2 => b',',
            3 => b' ',
            4 => b'"',
            5 => b'\\',
            _ => b'/',
        };
        rest /= 7;
    }
}

#[test]
fn feeds_byte_by_byte_as_it_reads(rt: HostRuntime) -> Result<(), Fail> {
    let alloc = rt.alloc();
    for (length, count) in [(0, 1), (1, 7), (2, 49), (3, 343), (4, 2401), (5, 16807)] {
        for number in 0..count {
            let mut text = [0; 5];
            numbered(number, length, &mut text);
            let text = text.as_slice();
            let whole = challenges(alloc, &text[..length.min(5)])?;
            let bytes = [
                &text[..1],
                &text[1..2],
                &text[2..3],
                &text[3..4],
                &text[4..],
            ];
            let pieces = bytes.as_slice();
            let cut = fed(alloc, &pieces[..length.min(5)])?;
            assert_eq!(rt; cut.bytes(), whole.bytes(), "{text:?} of {length}");
        }
    }
    Ok(())
}

/// The parameters in each kind of field.
fn written(alloc: Global, quoting: Quoting, text: &[u8]) -> Result<Octets, Fail> {
    match read_params(alloc, &line(alloc, text)?) {
        Ok(params) => Ok(write_params(alloc, &params, quoting)?),
        Err(error) => refused(alloc, &error),
    }
}

#[test]
fn writes_by_the_kind_of_field(rt: HostRuntime) -> Result<(), Fail> {
    let alloc = rt.alloc();
    let text = b"Stale=true, algorithm=MD5, qop=auth, nc=1, realm=\"a \\\"\\\\\", ttl=\"\"";
    let challenge =
        b"Stale=true, algorithm=MD5, qop=\"auth\", nc=\"1\", realm=\"a \\\"\\\\\", ttl=\"\"";
    let credentials =
        b"Stale=\"true\", algorithm=MD5, qop=auth, nc=1, realm=\"a \\\"\\\\\", ttl=\"\"";
    let info = b"Stale=\"true\", algorithm=\"MD5\", qop=auth, nc=1, realm=\"a \\\"\\\\\", ttl=\"\"";
    assert_eq!(rt;
        written(alloc, Quoting::Challenge, text)?.bytes(),
        challenge.as_slice()
    );
    assert_eq!(rt;
        written(alloc, Quoting::Credentials, text)?.bytes(),
        credentials.as_slice()
    );
    assert_eq!(rt;
        written(alloc, Quoting::Info, text)?.bytes(),
        info.as_slice()
    );
    Ok(())
}

/// Whether a scheme with a token68 can be written.
fn valid_token68(alloc: Global, scheme: &[u8], token68: &[u8]) -> Result<bool, Fail> {
    let scheme = Octets::of(alloc, scheme)?;
    let rest = Rest::Token68(Octets::of(alloc, token68)?);
    Ok(Item { scheme, rest }.valid())
}

/// Whether parameters of these names with one value can be written.
fn valid_names(alloc: Global, names: &[&[u8]], value: &[u8]) -> Result<bool, Fail> {
    let mut params = ParamList::new(alloc);
    for name in names {
        let name = Octets::of(alloc, name)?;
        let value = Octets::of(alloc, value)?;
        params.push(Param { name, value })?;
    }
    let scheme = Octets::of(alloc, b"a")?;
    let rest = Rest::Params(params);
    Ok(Item { scheme, rest }.valid())
}

#[test]
fn tells_what_can_be_written(rt: HostRuntime) -> Result<(), Fail> {
    let alloc = rt.alloc();
    assert!(rt; valid_token68(alloc, b"a", b"b/==")?);
    assert!(rt; !valid_token68(alloc, b"", b"b")?);
    assert!(rt; !valid_token68(alloc, b"a b", b"b")?);
    assert!(rt; !valid_token68(alloc, b"a", b"")?);
    assert!(rt; !valid_token68(alloc, b"a", b"=")?);
    assert!(rt; !valid_token68(alloc, b"a", b"b=c")?);
    assert!(rt; valid_names(alloc, &[b"a", b"b"], b"\t \"\\\xff")?);
    assert!(rt; !valid_names(alloc, &[], b"")?);
    assert!(rt; !valid_names(alloc, &[b"a", b"b", b"A"], b"")?);
    assert!(rt; !valid_names(alloc, &[b"a", b""], b"")?);
    assert!(rt; !valid_names(alloc, &[b"a/"], b"")?);
    assert!(rt; !valid_names(alloc, &[b"a"], b"\x7f")?);
    Ok(())
}

#[test]
fn joins_the_lines_of_a_field(rt: HostRuntime) -> Result<(), Fail> {
    let alloc = rt.alloc();
    let mut lines = line(alloc, b"a b=\"c")?;
    lines.push(Octets::of(alloc, b"d\", e=f")?)?;
    lines.push(Octets::new(alloc))?;
    let Ok(items) = read_challenges(alloc, &lines) else {
        return Err(Fail::new("not read"));
    };
    let written = write_items(alloc, &items, Quoting::Info)?;
    assert_eq!(rt; written.bytes(), b"a b=\"c,d\", e=\"f\"".as_slice());
    Ok(())
}
