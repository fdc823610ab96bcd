//! Requests.
use crate::fields::Fields;
use auth_grammar::Octets;

/// A request (RFC 9112 section 3).
#[derive(Drop)]
pub struct Request {
    pub method: Octets,
    /// The target as it is written (RFC 9112 section 3.2).
    pub target: Octets,
    /// The minor version: 1 of HTTP/1.1, or 0 of HTTP/1.0.
    pub minor: u8,
    pub fields: Fields,
    /// At most 1,048,576 bytes.
    pub body: Octets,
    /// Whether the connection closes after it: it is of HTTP/1.0, or its `Connection` has `close` (RFC 9112 section 9.6).
    pub closes: bool,
}

/// What stands at the front of the bytes that came.
#[derive(Drop)]
pub enum Next {
    /// A whole request, which is taken.
    Message(Request),
    /// A `100 Continue` is due, since the request's body may wait for it (RFC 9110 section 10.1.1).
    Continue,
    /// No whole request.
    NeedMore,
    /// A bad message behind `at` bytes, with the status that tells its fault.
    Bad { status: u16, at: u64 },
    /// There was no memory, and nothing is taken.
    OutOfMemory,
}
