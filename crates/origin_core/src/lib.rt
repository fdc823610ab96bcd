//! The server of a site over one connection: each request is decided, and answered by a file or by a challenge.
#![tactic(auto)]

mod alone;
mod carrying;
mod events;
mod method;
mod names;
mod plan;
mod replies;
mod serving;

pub use alone::{CONNECTION_CALLS, serve_alone};
pub use carrying::{FILE_LIMIT, reply_for};
pub use connection_loop::{End, ServeError, Served};
pub use events::{FileEvent, FileOperation};
pub use names::file_name;
pub use serving::serve_connection;

#[cfg(test)]
mod tests;
