//! Workers that serve one site, each with files, a clock and a random source of its own, and each with a seat at a table
//! of nonces.
#![tactic(auto)]

mod server;
mod shared;
mod workers;

pub use server::OriginServer;
pub use shared::serve_shared;
pub use workers::{Worker, serve_workers};

#[cfg(test)]
mod tests;
