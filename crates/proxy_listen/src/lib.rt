//! Workers that serve as one forward proxy, each with a dial, a clock and a random source of its own, and each with a
//! pass of a table of nonces that they share.
#![tactic(auto)]

mod server;
mod shared;

pub use server::ProxyServer;
pub use shared::{ProxyWorker, serve_proxied};
