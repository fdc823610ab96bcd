//! What goes over connections that are dialled.
use auth_grammar::Octets;
use http_wire::Response;

/// A request as it is sent.
#[derive(Drop)]
pub struct Outgoing {
    /// The authority that is dialled.
    pub authority: Octets,
    /// All that is sent.
    pub text: Octets,
    /// Whether its method is HEAD, so that its response has no body.
    pub to_head: bool,
}

/// What came of a request that was sent.
#[derive(Drop)]
pub enum Reception {
    /// A response came.
    Got(Response),
    /// What came is no response, or not a whole one.
    Bad,
    /// Nobody was reached, or a call of the connection failed.
    Failed,
}

/// How an exchange over a connection ended. Contracts alone have it.
#[derive(Clone, Copy)]
pub enum ExchangeEnd {
    /// A response, or what is none, was read.
    Answered,
    /// The input was read to its end.
    InputEnded,
    /// A call of the connection failed.
    LinkFailed,
    /// There was no memory to go on.
    NoMemory,
}

/// What went over a connection. Contracts alone have it.
#[derive(Drop)]
pub struct Exchange {
    /// What it had to give, where it told.
    pub left: Option<Octets>,
    /// What it gave.
    pub given: Octets,
    /// What was sent.
    pub sent: Octets,
    /// Whether one of its calls failed.
    pub failed: bool,
    pub ending: ExchangeEnd,
}

/// A request that was to be sent, with what came of it. Contracts alone have it.
#[derive(Drop)]
pub enum DialEvent {
    /// Nobody was reached.
    NotReached(Outgoing),
    /// A connection was made, used so, and given back.
    Exchanged(Outgoing, Exchange),
}
