//! The client's side of HTTP authentication (RFC 9110 section 11): which challenge is answered, with which credentials,
//! and what a response says of the server.
//!
//! A `Client` makes no connection itself. Its caller sends what it gives, and hands it the responses.
#![tactic(auto)]

mod choice;
mod client;
mod cnonce;
mod conclusion;
mod counts;
mod digest;
mod domain;
mod giving;
mod hearing;
mod laws;
mod outcome;
mod reading;
mod request;
mod scram;
mod scram_conclusion;
mod state;
#[cfg(test)]
mod tests;

pub use choice::Choice;
pub use client::Client;
pub use laws::{gives_once, gives_sr_once, mutual_exactly};
pub use outcome::{ClientError, Outcome};
pub use request::{OutRequest, Sent};
