//! What a client sends.
use auth_grammar::{Item, Octets};

/// A request that is to be sent.
#[derive(Drop)]
pub struct OutRequest {
    pub method: Octets,
    /// The host, and its port where one is spelled, of the server that is asked.
    pub authority: Octets,
    /// The target, as the request's first line has it (RFC 9112 section 3.2).
    pub target: Octets,
    pub body: Octets,
}

/// The credentials that go with a request (RFC 9110 section 11.4).
#[derive(Drop)]
pub enum Sent {
    /// None.
    Nothing,
    /// Credentials of Digest (RFC 7616 section 3.4).
    Digest(Item),
    /// A client-first message of SCRAM-SHA-256 (RFC 7804 section 5).
    ScramFirst(Item),
    /// A client-final message, which answers the server's first.
    ScramFinal(Item),
    /// A client-final message that names an exchange which is over (RFC 7804 section 5.1).
    ScramAgain(Item),
}
