//! Why a text of spaces is not read.
use auth_grammar::OutOfMemory;
use thiserror::Error;

/// Why a text of spaces was not read. Lines count from 1, and the first faulty one is named.
#[derive(Debug, Drop, Clone, Copy, PartialEq, Eq, Error)]
pub enum SpacesError {
    /// The line is none that may stand there.
    #[error("line {line}")]
    BadLine { line: u32 },
    /// The line is that of a space, and its prefix stood before.
    #[error("line {line}")]
    SamePrefix { line: u32 },
    #[error("out of memory")]
    OutOfMemory,
}

impl From<OutOfMemory> for SpacesError {
    ghost use Rattle.std.specs.Prelude.{◌≡◌};
    ghost use Rattle.spaces_map.specs.declared.error.SpacesError.TheVariants.{OutOfMemory};

    ghost from_gives = { λ _ error. error ≡ OutOfMemory };

    fn from(_error: OutOfMemory) -> SpacesError {
        SpacesError::OutOfMemory
    }
}
