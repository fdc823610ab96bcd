//! What a table is asked, and what it answers.
use crate::names::TableName;
use arrayvec::ArrayVec;

/// Which credentials a nonce serves.
#[derive(Clone, Copy, Debug, PartialEq, Eq)]
pub enum NonceKind {
    Digest,
    Scram,
    /// Both, with one window of counts for the two.
    Both,
}

/// The client's nonce that began a session (`cnonce`, RFC 7616 section 3.4.2).
pub type Prime = ArrayVec<u8, 128>;

/// The flag before a client-first message (RFC 5802 section 7): `n,,` or `y,,`.
#[derive(Clone, Copy, Debug, PartialEq, Eq)]
pub enum ExchangeFlag {
    N,
    Y,
}

/// What a SCRAM exchange began with: the flag and the `client-first-message-bare` of RFC 5802.
#[derive(Clone, Debug, Drop, PartialEq, Eq)]
pub struct Exchange {
    pub flag: ExchangeFlag,
    pub bare: ArrayVec<u8, 512>,
}

impl Exchange {
    ghost use Rattle.std.specs.Prelude.{◌≡◌};

    /// A copy, which takes no memory.
    pub fn copy(&self) -> Exchange
        ensures { result ≡ self.now }
    {
        let mut bare = ArrayVec::new();
        let _ = bare.try_extend_from_slice(self.bare.as_slice());
        Exchange {
            flag: self.flag,
            bare,
        }
    }
}

/// What is asked of a shard. `space` is the number of a protection space, and `random` the 16
/// random bytes of the new name.
#[derive(Clone, Debug, Drop, PartialEq, Eq)]
pub enum What {
    /// Makes a nonce.
    Issue {
        kind: NonceKind,
        space: u32,
        random: [u8; 16],
    },
    /// Asks for the prime that a Digest nonce holds.
    Peek {
        nonce: TableName,
        space: u32,
    },
    /// Uses a count of a nonce. The kind is Digest or Scram. A prime is given by a session alone.
    Use {
        nonce: TableName,
        kind: NonceKind,
        space: u32,
        count: u32,
        prime: Option<Prime>,
    },
    /// Opens an exchange.
    Open {
        space: u32,
        random: [u8; 16],
        exchange: Exchange,
    },
    /// Takes the one try of an open exchange.
    Take {
        sid: TableName,
        space: u32,
    },
    /// Says that the try was right: the exchange is finished.
    Keep {
        sid: TableName,
        space: u32,
    },
    /// Asks for a finished exchange.
    Recall {
        sid: TableName,
        space: u32,
    },
}

/// A call at a moment, in seconds since 1970.
#[derive(Clone, Debug, Drop, PartialEq, Eq)]
pub struct Call {
    pub moment: u64,
    pub what: What,
}

/// What a shard answers.
#[derive(Clone, Debug, Drop, PartialEq, Eq)]
pub enum Reply {
    /// The nonce's serial: how many were issued before.
    Issued { serial: u64 },
    /// The prime of the first admitted use that gave one.
    Prime { prime: Option<Prime> },
    /// The count is used now, and was not before. `uses` is how many of the nonce's counts are used
    /// now, this one with them.
    Fresh { uses: u32 },
    /// There is no such nonce or exchange, or it is too old, used up or out of turn.
    Gone,
    /// The count is too far below the greatest one used: by the width of the window, or more.
    Behind { high: u32 },
    /// The count was used before.
    Repeated,
    /// The nonce holds another prime.
    OtherSession,
    /// The exchange's serial: how many were opened before.
    Opened { serial: u64 },
    /// The exchange, whose one try is now taken.
    Taken { exchange: Exchange },
    /// The exchange is finished now.
    Kept,
    /// The finished exchange.
    Session { exchange: Exchange },
}
