//! Texts of spaces with the space of each path, and texts that are refused.
use crate::{Mode, Offer, OfferKind, Spaces, SpacesError};
use auth_grammar::{Octets, OutOfMemory};
use auth_hash::Algorithm;
use std::alloc::Global;
use std::process::Abort;
use std::test::Fail;

/// A text of the first line and these.
fn text_of(alloc: Global, lines: &[u8]) -> Result<Octets, OutOfMemory> {
    let mut text = Octets::of(alloc, b"authspaces 1\n")?;
    text.extend(lines)?;
    Ok(text)
}

fn spaces_of(alloc: Global, lines: &[u8]) -> Result<Spaces, Fail> {
    let text = text_of(alloc, lines)?;
    Ok(Spaces::read(alloc, text.bytes())?)
}

fn refused_line(alloc: Global, lines: &[u8]) -> Result<Option<SpacesError>, Fail> {
    let text = text_of(alloc, lines)?;
    Ok(Spaces::read(alloc, text.bytes()).err())
}

fn check_mode(rt: &impl Abort, spaces: &Spaces, path: &[u8], mode: Mode) {
    let found = spaces.space_of(path).map(|space| space.mode);
    assert_eq!(rt; found, Some(mode), "{path:?}");
}

#[test]
fn the_longest_prefix_counts_by_segments(rt: HostRuntime) -> Result<(), Fail> {
    let lines = b"/ required SHA-256 r\n/pub none\n/pub/in/er optional MD5 r\n/pub/in none\n";
    let spaces = spaces_of(rt.alloc(), lines)?;
    assert_eq!(rt; spaces.count(), 4);
    let open: [&[u8]; 4] = [b"/pub", b"/pub/", b"/pub/a", b"/pub/in/e"];
    for path in open {
        check_mode(&rt, &spaces, path, Mode::Open);
    }
    let required: [&[u8]; 5] = [b"/", b"", b"/public", b"/pu", b"*"];
    for path in required {
        check_mode(&rt, &spaces, path, Mode::Required);
    }
    check_mode(&rt, &spaces, b"/pub/in/er/x", Mode::Optional);
    let part = spaces_of(rt.alloc(), b"/a//b none\n")?;
    assert!(rt; part.space_of(b"/").is_none());
    assert!(rt; part.space_of(b"/a").is_none());
    Ok(())
}

#[test]
fn the_first_faulty_line_is_named(rt: HostRuntime) -> Result<(), Fail> {
    let before = b"/ required SHA-256 r\n/pub none\n";
    assert_eq!(rt; refused_line(rt.alloc(), before)?, None);
    let again = b"/ required SHA-256 r\n/pub none\n/pub none\n";
    assert_eq!(rt;
        refused_line(rt.alloc(), again)?,
        Some(SpacesError::SamePrefix { line: 4 })
    );
    let slash = b"/ required SHA-256 r\n/pub none\n/pub/ none\n";
    assert_eq!(rt;
        refused_line(rt.alloc(), slash)?,
        Some(SpacesError::BadLine { line: 4 })
    );
    let both = b"/pub none\n/pub non\n/ none\n/ none\n";
    assert_eq!(rt;
        refused_line(rt.alloc(), both)?,
        Some(SpacesError::BadLine { line: 3 })
    );
    let open_end = b"/pub none\n/pub none\n/";
    assert_eq!(rt;
        refused_line(rt.alloc(), open_end)?,
        Some(SpacesError::SamePrefix { line: 3 })
    );
    Ok(())
}

/// Lines that are none of a space.
fn faulty_lines() -> &'static [u8] {
    b"\n/a\n/a \n/a  none\n/a none \n/a None\n/a none\r\n/a none r\na none\n none\n/a/ none\n// none\n/a\x7f none\n/\xc3\xa4 none\n/a\tb none\n\
/a required\n/a required SHA-256\n/a required SHA-256 \n/a required  r\n/a required SHA-256 a:b\n/a required SHA-256 r\r\n/a required SHA-256 \xc3\xa4\n\
/a required SHA-256 xxxxxxxxxxxxxxxxxxxxxxxxxxxxxxxxxxxxxxxxxxxxxxxxxxxxxxxxxxxxxxxxx\n\
/a Required SHA-256 r\n/a open SHA-256 r\n/a none SHA-256 r\n/a required sha-256 r\n/a required SHA256 r\n/a required SHA-256-SESS r\n\
/a required SHA-256, r\n/a required ,SHA-256 r\n/a required SHA-256,,MD5 r\n/a required SHA-256,SHA-256 r\n/a required SHA-256+int,MD5,SHA-256 r\n\
/a required SHA-256+hash+int r\n/a required SHA-256+int+int r\n/a required SHA-256+ r\n/a required +int r\n\
/a required SCRAM-SHA-256+int r\n/a required SCRAM-SHA-256+hash r\n/a required SCRAM-SHA-256,MD5,SCRAM-SHA-256 r\n\
/a required SCRAM-SHA-256-sess r\n/a required scram-sha-256 r"
}

/// Lines of a space.
fn good_lines() -> &'static [u8] {
    b"/a none\n/a//b none\n/~!a{} none\n/ optional SHA-256 r\n/a required MD5  r\n/a required MD5 a b c \n\
/a required MD5,MD5-sess,SHA-256,SHA-256-sess,SHA-512-256,SHA-512-256-sess+int+hash,SCRAM-SHA-256 r\n/a optional SCRAM-SHA-256 r\n\
/a required SHA-256 xxxxxxxxxxxxxxxxxxxxxxxxxxxxxxxxxxxxxxxxxxxxxxxxxxxxxxxxxxxxxxxx"
}

/// Where the line stands behind one that is good, and with its line feed.
fn fault_of(alloc: Global, line: &[u8]) -> Result<Option<SpacesError>, Fail> {
    let mut lines = Octets::of(alloc, b"/other none\n")?;
    lines.extend(line)?;
    lines.extend(b"\n")?;
    refused_line(alloc, lines.bytes())
}

#[test]
fn each_faulty_line_is_refused(rt: HostRuntime) -> Result<(), Fail> {
    for line in faulty_lines().split(|b| *b == b'\n') {
        let fault = fault_of(rt.alloc(), line)?;
        assert_eq!(rt; fault, Some(SpacesError::BadLine { line: 3 }), "{line:?}");
    }
    for line in good_lines().split(|b| *b == b'\n') {
        assert_eq!(rt; fault_of(rt.alloc(), line)?, None, "{line:?}");
    }
    Ok(())
}

#[test]
fn the_first_line_and_the_last_line_feed_are_asked_for(rt: HostRuntime) -> Result<(), Fail> {
    let rows: [(&[u8], u32); 6] = [
        (b"", 1),
        (b"authspaces 1", 1),
        (b"authspaces 2\n", 1),
        (b"authspaces 1\r\n", 1),
        (b"authspaces 1\n/ none", 2),
        (b"authspaces 1\n/ none\n\n", 3),
    ];
    for (text, line) in rows {
        let fault = Spaces::read(rt.alloc(), text).err();
        assert_eq!(rt; fault, Some(SpacesError::BadLine { line }));
    }
    assert_eq!(rt; spaces_of(rt.alloc(), b"")?.count(), 0);
    let shown = SpacesError::SamePrefix { line: 4 }.to_string(rt.alloc())?;
    assert_eq!(rt; shown.as_str(), "line 4");
    Ok(())
}

/// The offer of a line with these kinds.
fn offer_of(alloc: Global, kinds: &str) -> Result<Option<Offer>, Fail> {
    let line = format!(in alloc; "/ optional {kinds} r\n")?;
    let spaces = spaces_of(alloc, line.as_bytes())?;
    let found = spaces.space_of(b"/");
    Ok(found.and_then(|space| space.offers.get(0).copied()))
}

#[test]
fn each_kind_is_read_with_its_flags(rt: HostRuntime) -> Result<(), Fail> {
    let kinds = [
        ("MD5", Algorithm::Md5, false),
        ("MD5-sess", Algorithm::Md5, true),
        ("SHA-256", Algorithm::Sha256, false),
        ("SHA-256-sess", Algorithm::Sha256, true),
        ("SHA-512-256", Algorithm::Sha512t256, false),
        ("SHA-512-256-sess", Algorithm::Sha512t256, true),
    ];
    let flags = [
        ("", false, false),
        ("+int", true, false),
        ("+hash", false, true),
        ("+int+hash", true, true),
    ];
    for (name, alg, session) in kinds {
        for (ending, auth_int, userhash) in flags {
            let text = format!(in rt.alloc(); "{name}{ending}")?;
            let offer = Offer {
                kind: OfferKind::Digest { alg, session },
                auth_int,
                userhash,
            };
            assert_eq!(rt; offer_of(rt.alloc(), text.as_str())?, Some(offer), "{text}");
        }
    }
    Ok(())
}

/// A text of so many spaces.
fn many(alloc: Global, count: u32) -> Result<Octets, Fail> {
    let mut text = text_of(alloc, b"")?;
    for number in 0..count {
        let line = format!(in alloc; "/{number} none\n")?;
        text.extend(line.as_bytes())?;
    }
    Ok(text)
}

#[test]
fn there_are_at_most_256_spaces(rt: HostRuntime) -> Result<(), Fail> {
    let most = Spaces::read(rt.alloc(), many(rt.alloc(), 256)?.bytes())?;
    assert_eq!(rt; most.count(), 256);
    let number = most.space_of(b"/255/x").map(|space| space.number);
    assert_eq!(rt; number, Some(255));
    let more = Spaces::read(rt.alloc(), many(rt.alloc(), 257)?.bytes()).err();
    assert_eq!(rt; more, Some(SpacesError::BadLine { line: 258 }));
    Ok(())
}

#[test]
fn spaces_of_one_realm_have_one_number(rt: HostRuntime) -> Result<(), Fail> {
    let lines =
        b"/0 none\n/1 required MD5 a\n/2 required MD5 b\n/3 none\n/4 optional MD5 a\n/5 required SHA-256 b\n/6 required MD5 c\n";
    let spaces = spaces_of(rt.alloc(), lines)?;
    let rows: [(&[u8], u32); 7] = [
        (b"/0", 0),
        (b"/1", 1),
        (b"/2", 2),
        (b"/3", 3),
        (b"/4", 1),
        (b"/5", 2),
        (b"/6", 6),
    ];
    for (path, number) in rows {
        let found = spaces.space_of(path).map(|space| space.number);
        assert_eq!(rt; found, Some(number), "{path:?}");
    }
    Ok(())
}

#[test]
fn a_proxy_needs_a_required_space_of_all_paths(rt: HostRuntime) -> Result<(), Fail> {
    assert!(rt; spaces_of(rt.alloc(), b"/a none\n/ required MD5 r\n")?.proxy_ready());
    let others: [&[u8]; 4] = [
        b"",
        b"/ none\n",
        b"/ optional MD5 r\n",
        b"/a required MD5 r\n",
    ];
    for lines in others {
        assert!(rt; !spaces_of(rt.alloc(), lines)?.proxy_ready());
    }
    Ok(())
}
