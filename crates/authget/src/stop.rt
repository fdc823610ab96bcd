//! Why the program stops before its work is done.
ghost use Rattle.std.specs.Prelude.{◌≡◌};
ghost use Rattle.authget.specs.Stops.{stop_status};

use auth_grammar::OutOfMemory;
use auth_io::WriteError;
use thiserror::Error;

/// Why the program stops before its work is done.
#[derive(Clone, Copy, Debug, PartialEq, Eq, Error)]
pub enum Stop {
    /// A call of the outside failed, and its count of faults has risen.
    #[error("a call of the outside failed")]
    Fault,
    #[error("out of memory")]
    OutOfMemory,
}

impl From<OutOfMemory> for Stop {
    ghost use Rattle.authget.specs.declared.stop.Stop.TheVariants.{OutOfMemory};

    ghost from_gives = { λ _ stop. stop ≡ OutOfMemory };

    fn from(_error: OutOfMemory) -> Stop {
        Stop::OutOfMemory
    }
}

impl From<WriteError> for Stop {
    ghost use Rattle.authget.specs.Stops.{stop_of};

    ghost from_gives = { λ error stop. stop ≡ stop_of error };

    fn from(error: WriteError) -> Stop {
        match error {
            WriteError::Failed => Stop::Fault,
            WriteError::OutOfMemory => Stop::OutOfMemory,
        }
    }
}

impl Stop {
    /// The exit status.
    pub(crate) fn status(self) -> u8
        ensures { result ≡ stop_status self }
    {
        match self {
            Stop::Fault => 6,
            Stop::OutOfMemory => 7,
        }
    }
}
