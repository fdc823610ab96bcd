//! What a response means.
use auth_grammar::OutOfMemory;
use thiserror::Error;

/// What a response means for the client.
#[derive(Debug, Drop, Clone, Copy, PartialEq, Eq)]
pub enum Outcome {
    /// The server proved that it knows the password's secret too (RFC 7615).
    Mutual,
    /// The response isn't a challenge, and the server proved nothing.
    OneWay,
    /// The request may be sent again: `credentials_for` has other credentials for it.
    Retry,
    /// The credentials were refused.
    Refused,
    /// The server's proof is wrong.
    WrongProof,
    /// The challenge offers nothing that this client answers. It has that many items.
    NoOffer { kinds: u32 },
    /// A field is out of grammar at that byte, or 0 where a value in it is out of form.
    Malformed { at: u32 },
}

/// Why there is no client.
#[derive(Debug, Drop, Clone, Copy, PartialEq, Eq, Error)]
pub enum ClientError {
    /// The name isn't 1 to 64 printable bytes without a colon, or the password not 1 to 128 printable bytes.
    #[error("name or password out of form")]
    BadName,
    /// There was no memory.
    #[error("out of memory")]
    OutOfMemory,
}

impl From<OutOfMemory> for ClientError {
    ghost use Rattle.std.specs.Prelude.{◌≡◌};
    ghost use Rattle.client_core.specs.declared.outcome.ClientError.TheVariants.{OutOfMemory};

    ghost from_gives = { λ _ e. e ≡ OutOfMemory };

    fn from(_error: OutOfMemory) -> ClientError {
        ClientError::OutOfMemory
    }
}
