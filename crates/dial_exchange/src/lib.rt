//! One exchange over a connection that is dialled: a request is sent, its response read, and the connection given back.
#![tactic(auto)]

mod events;
mod exchange;
mod reading;

pub use events::{DialEvent, Exchange, ExchangeEnd, Outgoing, Reception};
pub use exchange::make_exchange;
