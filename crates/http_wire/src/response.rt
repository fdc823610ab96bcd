//! Responses (RFC 9112 section 4).
use crate::fields::Fields;
use auth_grammar::Octets;

/// A response. Its status is from 200 to 599.
#[derive(Drop)]
pub struct Response {
    pub status: u16,
    /// Those of the head. Trailers are dropped.
    pub fields: Fields,
    /// At most 16,777,216 bytes, without the lines of chunks.
    pub body: Octets,
}

/// What stands at the front of the bytes that came.
#[derive(Drop)]
pub enum NextResponse {
    /// A whole response, which is taken.
    Message(Response),
    /// No whole response.
    NeedMore,
    /// A fault in the head, the body or the chunk line that begins behind `at` bytes.
    Bad { at: u64 },
    OutOfMemory,
}
