//! Workers that serve connections, one after the other, for whatever serves one connection.
//!
//! A worker has what hands out its connections, and a `Server` of its own, which serves them with all of the outside
//! that it uses. Several workers go to work at once, each in a thread.
#![tactic(auto)]

mod finish;
mod jobs;
mod seating;
mod server;
mod worker;

pub use finish::Finish;
pub use jobs::{Job, serve_jobs};
pub use seating::{Seating, serve_seated};
pub use server::Server;
pub use worker::serve_links;
