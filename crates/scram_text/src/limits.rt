//! The most bytes of what is read.

/// The length of a client's flag with its two commas.
pub(crate) const FLAG_LENGTH: usize = 3;

/// The most bytes of the client-first message behind the flag.
pub const BARE_LIMIT: usize = 512;

/// The most bytes of the server-first message.
pub const FIRST_LIMIT: usize = 256;

/// The most bytes of a client's nonce.
pub const NONCE_LIMIT: usize = 128;
