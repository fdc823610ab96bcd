//! How a connection was served.
use auth_io::WriteError;
use thiserror::Error;

/// How a connection ended.
#[derive(Clone, Copy, Debug, PartialEq, Eq)]
pub enum End {
    /// The input ended between messages.
    Ended,
    /// The last request asked for it.
    CloseAsked,
    /// A message that is no request was answered.
    BadMessage,
    /// The 4,096th request was answered.
    Limit,
}

/// A connection that was served to its end.
#[derive(Clone, Copy, Debug, PartialEq, Eq)]
pub struct Served {
    /// How many requests were answered. A bad message is none.
    pub requests: u32,
    /// How many of them were admitted.
    pub admitted: u32,
    pub end: End,
}

/// Why a connection was not served to its end.
#[derive(Clone, Copy, Debug, PartialEq, Eq, Error)]
pub enum ServeError {
    /// The input ended inside the message that begins behind `at` bytes.
    #[error("Truncated")]
    Truncated { at: u64 },
    /// A read of the link failed.
    #[error("ReadFault")]
    ReadFault,
    /// A write of the link failed.
    #[error("WriteFault")]
    WriteFault,
    /// The source of random words failed.
    #[error("RandomFault")]
    RandomFault,
    /// The table of nonces takes no more than `calls` calls.
    #[error("Worn")]
    Worn { calls: u64 },
    #[error("OutOfMemory")]
    OutOfMemory,
}

impl From<auth_grammar::OutOfMemory> for ServeError {
    ghost use Rattle.std.specs.Prelude.{◌≡◌};
    ghost use Rattle.connection_loop.specs.declared.served.ServeError.TheVariants.{OutOfMemory};

    ghost from_gives = { λ _ e. e ≡ OutOfMemory };

    fn from(_error: auth_grammar::OutOfMemory) -> ServeError {
        ServeError::OutOfMemory
    }
}

impl From<WriteError> for ServeError {
    ghost use Rattle.std.specs.Prelude.{◌≡◌};
    ghost use Rattle.connection_loop.specs.Steps.{send_error};

    ghost from_gives = { λ error serve_error. serve_error ≡ send_error error };

    fn from(error: WriteError) -> ServeError {
        match error {
            WriteError::Failed => ServeError::WriteFault,
            WriteError::OutOfMemory => ServeError::OutOfMemory,
        }
    }
}
