//! A chunked response that comes in pieces.
use crate::filler::add_times;
use crate::job::Failure;
use auth_grammar::{Octets, OutOfMemory};
use http_wire::{NextResponse, Response, ResponseFeed};
use std::alloc::Global;

/// Pushes a piece, and takes the response that is whole then.
fn take_piece(feed: &mut ResponseFeed, piece: &[u8]) -> Result<Option<Response>, Failure> {
    if !feed.has_room(piece.len()) {
        return Err(Failure::Refused);
    }
    feed.push(piece)?;
    match feed.next() {
        NextResponse::Message(response) => Ok(Some(response)),
        NextResponse::NeedMore => Ok(None),
        NextResponse::Bad { .. } => Err(Failure::Refused),
        NextResponse::OutOfMemory => Err(Failure::OutOfMemory),
    }
}

/// The response in a text that comes in pieces of 1,024 bytes.
fn response_of(alloc: Global, text: &[u8]) -> Result<Response, Failure> {
    let mut feed = ResponseFeed::new(alloc, false);
    for part in text.chunks(1024) {
        if let Some(response) = take_piece(&mut feed, part)? {
            return Ok(response);
        }
    }
    Err(Failure::Refused)
}

/// One chunk of 1,024 bytes.
fn chunk(alloc: Global) -> Result<Octets, OutOfMemory> {
    let mut text = Octets::of(alloc, b"400\r\n")?;
    add_times(&mut text, b"x", 1024)?;
    text.extend(b"\r\n")?;
    Ok(text)
}

/// Reads a response of so many bytes, as whole chunks of 1,024 bytes, and tells its body's length.
pub(crate) fn body_of_chunks(alloc: Global, bytes: u32) -> Result<usize, Failure> {
    let mut text = Octets::of(
        alloc,
        b"HTTP/1.1 200 OK\r\nTransfer-Encoding: chunked\r\n\r\n",
    )?;
    let chunk = chunk(alloc)?;
    add_times(&mut text, chunk.bytes(), bytes / 1024)?;
    text.extend(b"0\r\n\r\n")?;
    let response = response_of(alloc, text.bytes())?;
    Ok(response.body.len())
}
