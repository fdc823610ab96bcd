//! `show`.
use super::{Failing, NONE, Ran, check, link_of, run_over};
use auth_grammar::{Octets, cut_at};
use std::alloc::Global;
use std::test::Fail;

/// A cell of a table, in which `~` stands for LF and `^` for CR.
fn cell(alloc: Global, text: &[u8]) -> Result<Octets, Fail> {
    let mut out = Octets::new(alloc);
    for b in text {
        out.push(match *b {
            b'~' => b'\n',
            b'^' => b'\r',
            b => b,
        })?;
    }
    Ok(out)
}

/// Each line is an input of `show`, the first byte of its status, what it prints, and what it tells.
fn show_rows() -> &'static [u8] {
    b"\
|0||\n\
~|0||\n\
, Basic realm=\"a,b\" , Digest realm=\"x\" , nonce=\"n\\\"q\", qop=\"auth\", Negotiate abc==|0|Basic realm=\"a,b\"~Digest realm=\"x\", nonce=\"n\\\"q\", qop=\"auth\"~Negotiate abc==~|\n\
a b=c, d e|0|a b=\"c\"~d e~|\n\
SCRAM-SHA-256 data=YWJj/w==|0|SCRAM-SHA-256 data=\"YWJj/w==\"~|\n\
a b=|0|a b=~|\n\
a b=c^~d=e^~|0|a b=\"c\", d=\"e\"~|\n\
a b=\"c~d\"~~|0|a b=\"c,d\"~|\n\
a b=c^|3||not grammar at 5~\n\
Digest realm=\"x\", realm=\"y\"|3||twice at 18~\n\
a b=c~, b=d|3||twice at 8~\n\
Digest realm=\"x|3||not grammar at 15~\n\
Digest =x|3||not grammar at 7~\n\
Negotiate abc==, x=1|3||not grammar at 18~"
}

/// The parts of a row.
fn columns(row: &[u8]) -> (&[u8], &[u8], &[u8], &[u8]) {
    let (input, rest) = cut_at(row, b'|').unwrap_or((row, b""));
    let (status, rest) = cut_at(rest, b'|').unwrap_or((rest, b""));
    let (link, diag) = cut_at(rest, b'|').unwrap_or((rest, b""));
    (input, status, link, diag)
}

fn digit(text: &[u8]) -> u8 {
    match text {
        [digit @ b'0'..=b'9'] => *digit - b'0',
        _ => 255,
    }
}

fn shown(alloc: Global, input: &[u8], piece: u32, failing: Failing) -> Result<Ran, Fail> {
    let mut link = link_of(alloc, input, piece, failing)?;
    run_over(alloc, "show", &mut link, vec![in alloc]?, failing)
}

#[test]
fn show_prints_the_items_of_its_lines(rt: HostRuntime) -> Result<(), Fail> {
    let alloc = rt.alloc();
    for row in show_rows().split(|b| *b == b'\n') {
        let (input, status, output, told) = columns(row);
        let input = cell(alloc, input)?;
        let (output, told) = (cell(alloc, output)?, cell(alloc, told)?);
        for piece in 0..=(input.len() % 128) as u32 {
            let ran = shown(alloc, input.bytes(), piece, NONE)?;
            check(&rt, &ran, digit(status), output.bytes(), told.bytes(), row);
        }
    }
    Ok(())
}

#[test]
fn show_takes_16384_bytes(rt: HostRuntime) -> Result<(), Fail> {
    let alloc = rt.alloc();
    let commas = vec![in alloc; b','; 16_385]?;
    let most = shown(alloc, &commas.as_slice()[1..], 9, NONE)?;
    check(&rt, &most, 0, b"", b"", b"16384 commas");
    let more = shown(alloc, commas.as_slice(), 9, NONE)?;
    check(&rt, &more, 3, b"", b"too long\n", b"16385 commas");
    Ok(())
}

#[test]
fn a_fault_of_the_link_ends_show(rt: HostRuntime) -> Result<(), Fail> {
    let alloc = rt.alloc();
    for read in 1..=2 {
        let unread = shown(alloc, b"a b=c", 2, Failing { read, ..NONE })?;
        check(&rt, &unread, 4, b"", b"", b"a failing read");
    }
    let unwritten = shown(alloc, b"a b=c", 2, Failing { write: 2, ..NONE })?;
    check(&rt, &unwritten, 4, b"a b", b"", b"a failing write");
    Ok(())
}
