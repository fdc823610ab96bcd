//! The hashes of HTTP Digest (RFC 7616): MD5, SHA-256 and SHA-512/256 as lower-case hexadecimal text; and of SCRAM
//! (RFC 5802, RFC 7677): HMAC-SHA-256 and the salted hash of a password.
//!
//! No call takes memory.
#![tactic(auto)]

mod algorithm;
mod hasher;
mod hex_text;
mod mac;
mod salting;
mod same;

pub use algorithm::{Algorithm, Qop};
pub use hasher::{Hasher, hash_joined};
pub use hex_text::HexText;
pub use mac::Mac;
pub use salting::{hi, xor32};
pub use same::same_bytes;
