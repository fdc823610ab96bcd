//! What a server does to decide on a request: it reads the credentials, draws words, and calls the table of nonces, as
//! the decision asks. What comes behind the verdict is the server's own.
#![tactic(auto)]

mod deciding;
mod events;
mod incoming;
mod lines;
mod server;

pub use deciding::decide;
pub use events::{Event, Finding, Inquiry, Operation};
pub use incoming::IncomingRequest;
pub use lines::{is_admitted, put_verdict};
pub use server::Server;
