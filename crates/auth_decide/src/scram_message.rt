//! What credentials of SCRAM-SHA-256 say.
use auth_grammar::Octets;
use nonce_shard::{Exchange, TableName};
use scram_text::Flag;
use std::fmt;

/// A client's first message (RFC 5802 section 7), and the realm that stands beside it. `Debug` prints none of it.
#[derive(Drop)]
pub struct FirstMessage {
    pub realm: Option<Octets>,
    /// The user's name.
    pub name: Octets,
    /// The client's nonce.
    pub nonce: Octets,
    /// What the exchange begins with.
    pub exchange: Exchange,
}

impl fmt::Debug for FirstMessage {
    fn fmt<W: fmt::Write>(&self, f: &mut fmt::Formatter<W>) -> fmt::Result {
        f.write_str("FirstMessage { ... }")
    }
}

/// A client's last message (RFC 5802 section 7). `Debug` prints none of it.
#[derive(Drop)]
pub struct FinalMessage {
    pub flag: Flag,
    pub nonce: Octets,
    /// The message without its proof.
    pub without: Octets,
    pub proof: [u8; 32],
}

impl fmt::Debug for FinalMessage {
    fn fmt<W: fmt::Write>(&self, f: &mut fmt::Formatter<W>) -> fmt::Result {
        f.write_str("FinalMessage { ... }")
    }
}

/// What a nonce says of a finished exchange that is used again (RFC 7804 section 5.1).
#[derive(Debug, Drop, Clone, Copy, PartialEq, Eq)]
pub struct Again {
    /// How often it is used again, from 1 on.
    pub count: u32,
    /// The name of the nonce table that the `sr` is, if it is one.
    pub sr: Option<TableName>,
}

/// What credentials of SCRAM-SHA-256 say (RFC 7804 section 5). `Debug` prints none of it.
#[derive(Drop)]
pub enum ScramMessage {
    /// There are none.
    Absent,
    /// `data` is missing, or isn't the base64 of a message that may stand there.
    Malformed,
    /// A client's last message that names no exchange.
    WithoutSid,
    /// A client's first message.
    First(FirstMessage),
    /// A client's last message: the name of the nonce table that its `sid` is, if it is one, and whether its nonce
    /// is of an exchange that is used again.
    Final(Option<TableName>, FinalMessage, Option<Again>),
}

impl fmt::Debug for ScramMessage {
    fn fmt<W: fmt::Write>(&self, f: &mut fmt::Formatter<W>) -> fmt::Result {
        f.write_str(match self {
            ScramMessage::Absent => "Absent",
            ScramMessage::Malformed => "Malformed",
            ScramMessage::WithoutSid => "WithoutSid",
            ScramMessage::First(_) => "First(...)",
            ScramMessage::Final(..) => "Final(...)",
        })
    }
}
