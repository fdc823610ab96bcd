//! Why a step isn't made.
use auth_grammar::OutOfMemory;
use thiserror::Error;

/// Why a step isn't made, or only in part.
#[derive(Debug, Drop, Error, Clone, Copy, PartialEq, Eq)]
pub enum DrillError {
    /// The source of random words failed.
    #[error("no random words")]
    RandomFault,
    /// The table takes no more calls.
    #[error("the table is worn after {calls} calls")]
    Worn { calls: u64 },
    #[error("out of memory")]
    OutOfMemory,
}

impl From<OutOfMemory> for DrillError {
    ghost use Rattle.std.specs.Prelude.{◌≡◌};
    ghost use Rattle.drill.specs.declared.error.DrillError.TheVariants.{OutOfMemory};

    ghost from_gives = { λ _ error. error ≡ OutOfMemory };

    fn from(_: OutOfMemory) -> DrillError {
        DrillError::OutOfMemory
    }
}
