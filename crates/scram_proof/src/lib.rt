//! The keys, proofs and signatures of SCRAM-SHA-256 (RFC 5802 section 3, RFC 7677).
//!
//! No call takes memory, and none refuses.
#![tactic(auto)]

mod exchange;
mod keys;
#[cfg(test)]
mod tests;

pub use exchange::{client_proof, proof_matches, server_signature};
pub use keys::{
    LEAST_ITERATIONS, MOST_ITERATIONS, SALT_LIMIT, ScramKeys, keys_of, salted, server_key,
    stored_key,
};
