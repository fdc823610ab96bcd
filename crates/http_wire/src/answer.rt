//! Replies, and how they are written (RFC 9112 section 4).
ghost use Rattle.std.specs.Prelude.{◌≡◌, ◌++◌, ◌≤◌, OnOk, IfOk};
ghost use Rattle.http_wire.specs.Answers.{continue_text, phrase_of, status_body, status_line, date_line, answer_length_line, body_of, answer_text};

use crate::pair::PairList;
use crate::text::{put, put_close, put_length, put_number, put_pairs, with_room};
use auth_grammar::{Octets, OutOfMemory};
use httpdate::HttpDate;
use std::alloc::Global;

/// What a reply says, before it is written by `write_answer`.
#[derive(Drop)]
pub struct Answer {
    /// From 200 to 599. Its phrase is written where it is known here.
    pub status: u16,
    /// The moment of the `Date` line, in seconds since 1970. From the year 10000 on the line is left out.
    pub moment: u64,
    /// The lines between `Date` and `Content-Length`.
    pub lines: PairList,
    pub body: Octets,
    /// Whether the request's method was HEAD: then the body is counted and not sent.
    pub to_head: bool,
    /// Whether the connection closes after this reply.
    pub close: bool,
}

/// The interim reply that asks a client for the body (RFC 9110 section 15.2.1).
pub fn continue_text() -> &'static [u8]
    ensures { result.now ≡ continue_text }
{
    b"HTTP/1.1 100 Continue\r\n\r\n"
}

#[tactic(auto, unfolding(crate::specs::Answers::phrase_of))]
fn phrase(status: u16) -> &'static [u8]
    ensures { result.now ≡ phrase_of status }
{
    match status {
        200 => b"OK",
        204 => b"No Content",
        400 => b"Bad Request",
        401 => b"Unauthorized",
        403 => b"Forbidden",
        404 => b"Not Found",
        405 => b"Method Not Allowed",
        407 => b"Proxy Authentication Required",
        411 => b"Length Required",
        413 => b"Content Too Large",
        417 => b"Expectation Failed",
        431 => b"Request Header Fields Too Large",
        500 => b"Internal Server Error",
        501 => b"Not Implemented",
        502 => b"Bad Gateway",
        _ => b"",
    }
}

/// The body that tells a status: its phrase and a line feed.
pub fn status_body(alloc: Global, status: u16) -> Result<Octets, OutOfMemory>
    ensures { IfOk result (λ body. body ≡ status_body status) }
{
    let mut body = Octets::of(alloc, phrase(status))?;
    body.push(b'\n')?;
    Ok(body)
}

#[tactic(auto, unfolding(crate::specs::Answers::status_line))]
fn put_status(out: &mut Vec<u8>, status: u16) -> Result<(), OutOfMemory>
    ensures { OnOk result (out.new.items ≡ out.old.items ++ status_line status) }
{
    put(out, b"HTTP/1.1 ")?;
    put_number(out, status as u64)?;
    put(out, b" ")?;
    put(out, phrase(status))?;
    put(out, b"\r\n")
}

#[tactic(auto, unfolding(crate::specs::Answers::date_line))]
fn put_date(out: &mut Vec<u8>, moment: u64) -> Result<(), OutOfMemory>
    ensures { OnOk result (out.new.items ≡ out.old.items ++ date_line moment) }
{
    let Ok(date) = HttpDate::from_unix_secs(moment) else {
        return Ok(());
    };
    put(out, b"Date: ")?;
    put(out, date.to_bytes().as_slice())?;
    put(out, b"\r\n")?;
    Ok(())
}

#[tactic(auto, unfolding(crate::specs::Answers::answer_length_line))]
fn put_answer_length(out: &mut Vec<u8>, status: u16, count: usize) -> Result<(), OutOfMemory>
    ensures { OnOk result (out.new.items ≡ out.old.items ++ answer_length_line status count) }
{
    if status == 204 || status == 304 {
        return Ok(());
    }
    put_length(out, count)
}

fn put_body(out: &mut Vec<u8>, answer: &Answer) -> Result<(), OutOfMemory>
    ensures { OnOk result (out.new.items ≡ out.old.items ++ body_of answer.now) }
{
    if answer.to_head {
        Ok(())
    } else {
        put(out, answer.body.bytes())
    }
}

/// The text of a reply.
#[tactic(auto, unfolding(crate::specs::Answers::answer_text))]
pub fn write_answer(alloc: Global, answer: &Answer) -> Result<Octets, OutOfMemory>
    requires low { 200 ≤ answer.now.status }
    requires high { answer.now.status ≤ 599 }
    ensures { IfOk result (λ text. text ≡ answer_text answer.now) }
{
    let mut out = with_room(alloc, answer.body.len())?;
    put_status(&mut out, answer.status)?;
    put_date(&mut out, answer.moment)?;
    put_pairs(&mut out, answer.lines.as_slice())?;
    put_answer_length(&mut out, answer.status, answer.body.bytes().len())?;
    put_close(&mut out, answer.close)?;
    put(&mut out, b"\r\n")?;
    put_body(&mut out, answer)?;
    Ok(Octets::from_vec(out))
}
