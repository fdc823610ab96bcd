//! A forward proxy over one connection: each request is decided, and what is admitted is passed on to its target.
#![tactic(auto)]

mod demand;
mod fields;
mod laws;
mod outgoing;
mod replies;
mod serving;
mod site;
mod targets;

pub use connection_loop::{End, ServeError, Served};
pub use demand::Demand;
pub use laws::{dials_only_admitted, sends_no_credentials};
pub use serving::proxy_connection;
pub use site::ProxySite;
pub use targets::authority_of;

#[cfg(test)]
mod tests;
