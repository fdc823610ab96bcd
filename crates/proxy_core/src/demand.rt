//! What a proxy asks of the outside behind a verdict.
use dial_exchange::Outgoing;

/// What a verdict may call for. Contracts alone have it.
#[derive(Drop)]
pub enum Demand {
    /// To dial the authority, send the text, read a response, and give the connection back.
    Send(Outgoing),
    /// Memory to go on with. No event gives any.
    Memory,
}
