//! What may happen.

/// An event between the client and the server.
#[derive(Debug, Drop, Clone, Copy, PartialEq, Eq)]
pub enum DrillEvent {
    /// The client forgets its nonce, asks for `/` without credentials, and keeps the nonce of the answer.
    Challenge,
    /// The client makes the next request, where it has a nonce.
    Make,
    /// The request that was made at this place, from 0, comes to the server.
    Deliver { k: u32 },
    /// So many seconds pass.
    Pass { seconds: u64 },
}
