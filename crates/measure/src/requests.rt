//! Requests that come in pieces.
ghost use Rattle.std.specs.Prelude.{◌<◌};

use crate::filler::add_times;
use crate::job::Failure;
use auth_grammar::Octets;
use http_wire::{Next, Request, RequestFeed};
use std::alloc::Global;
use std::fmt::Write;

/// Pushes a piece, and takes the request that is whole then.
fn take_piece(feed: &mut RequestFeed, piece: &[u8]) -> Result<Option<Request>, Failure> {
    if !feed.has_room(piece.len()) {
        return Err(Failure::Refused);
    }
    feed.push(piece)?;
    match feed.next() {
        Next::Message(request) => Ok(Some(request)),
        Next::NeedMore | Next::Continue => Ok(None),
        Next::Bad { .. } => Err(Failure::Refused),
        Next::OutOfMemory => Err(Failure::OutOfMemory),
    }
}

/// The first request in a text that comes in pieces.
fn request_of(alloc: Global, text: &[u8], piece: usize) -> Result<Request, Failure>
    requires { 0 < piece }
{
    let mut feed = RequestFeed::new(alloc);
    for part in text.chunks(piece) {
        if let Some(request) = take_piece(&mut feed, part)? {
            return Ok(request);
        }
    }
    Err(Failure::Refused)
}

/// Reads a request with a body of so many bytes in pieces of 1,024 bytes, and tells the body's length.
pub(crate) fn body_in_pieces(alloc: Global, bytes: u32) -> Result<usize, Failure> {
    let head = format!(in alloc; "PUT / HTTP/1.1\r\nHost: a\r\nContent-Length: {bytes}\r\n\r\n")?;
    let mut text = Octets::of(alloc, head.as_bytes())?;
    add_times(&mut text, b"x", bytes)?;
    let request = request_of(alloc, text.bytes(), 1024)?;
    Ok(request.body.len())
}

/// Reads a request with a head of so many bytes, at least 27, byte by byte, and tells the target's length.
pub(crate) fn target_by_bytes(alloc: Global, bytes: u32) -> Result<usize, Failure> {
    let mut text = Octets::of(alloc, b"GET /")?;
    add_times(&mut text, b"x", bytes.saturating_sub(27))?;
    text.extend(b" HTTP/1.1\r\nHost: a\r\n\r\n")?;
    let request = request_of(alloc, text.bytes(), 1)?;
    Ok(request.target.len())
}
