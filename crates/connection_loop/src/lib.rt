//! The loop of a server over one connection of HTTP/1.1 (RFC 9112), for whatever answers one request.
//!
//! A server of any kind is a `Responder`: it is given a request and its moment, and gives the text of the
//! response. The loop reads the connection, cuts its bytes into requests, asks the clock once for each,
//! and writes each response whole before it reads on.
#![tactic(auto)]

mod driving;
mod reading;
mod responder;
mod sending;
mod served;
mod serving;

pub use driving::drive;
pub use responder::{Lack, RespondError, Responder, Response};
pub use served::{End, ServeError, Served};

#[cfg(test)]
mod tests;
