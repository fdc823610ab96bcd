//! What is asked of the outside for a request, and what came of it.
use auth_decide::RequestCredentials;
use auth_grammar::OctetsList;
use nonce_shard::{Call, Reply};

/// What deciding on a request may want from the outside. Contracts alone have it.
#[derive(Drop)]
pub enum Inquiry {
    /// To read what the lines of the field with credentials say.
    ReadCredentials { lines: OctetsList },
    /// To draw sixteen random bytes.
    Draw,
    /// To make this call on this shard of the nonce table.
    CallTable { shard: u16, call: Call },
}

/// An inquiry that was made, with what came of it. Contracts alone have it.
#[derive(Drop)]
pub enum Finding {
    /// The lines of the field with credentials were read, as what they say.
    CredentialsRead {
        lines: OctetsList,
        credentials: RequestCredentials,
    },
    /// Sixteen random bytes were drawn.
    Drew {
        words: [u8; 16],
    },
    /// The shard of this number of the nonce table gave this reply to the call.
    Called {
        shard: u16,
        call: Call,
        reply: Reply,
    },
}

/// What a request may want from the outside: something for its decision, or what its verdict calls for. Contracts alone
/// have it.
#[derive(Drop)]
pub enum Operation<Q> {
    Inquire(Inquiry),
    Behind(Q),
}

/// An operation that was done, with what came of it. Contracts alone have it.
#[derive(Drop)]
pub enum Event<E> {
    Found(Finding),
    Behind(E),
}
