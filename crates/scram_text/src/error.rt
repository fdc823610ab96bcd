//! Why a message is refused.
use auth_grammar::OutOfMemory;
use thiserror::Error;

/// What of a message is too long.
#[derive(Debug, Drop, Clone, Copy, PartialEq, Eq)]
pub enum ScramField {
    /// The client-first message behind its flag.
    Bare,
    /// The server-first message.
    First,
    Name,
    Nonce,
}

/// Why a message is refused. Lengths and places count bytes.
#[derive(Debug, Drop, Error)]
pub enum ScramError {
    #[error("{field:?} is longer than {limit}")]
    TooLong { field: ScramField, limit: u32 },
    /// The client asks for channel binding.
    #[error("channel binding asked for")]
    ChannelBinding,
    /// The client asks to act as another user.
    #[error("authorization identity given")]
    Authzid,
    /// The message has an extension that must be understood.
    #[error("mandatory extension")]
    Extension,
    /// The text is no message of the kind. No message of the kind, of any length, begins with more of it than `at`
    /// bytes.
    #[error("no message at {at}")]
    NotMessage { at: u32 },
    /// There was no memory.
    #[error("out of memory")]
    OutOfMemory,
}

impl From<OutOfMemory> for ScramError {
    ghost use Rattle.std.specs.Prelude.{◌≡◌};
    ghost use Rattle.scram_text.specs.declared.error.ScramError.TheVariants.{OutOfMemory};

    ghost from_gives = { λ _ e. e ≡ OutOfMemory };

    fn from(_error: OutOfMemory) -> ScramError {
        ScramError::OutOfMemory
    }
}
