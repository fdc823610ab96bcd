//! Why a text is refused.
use crate::octets::{Octets, OutOfMemory};
use thiserror::Error;

/// Why a text is refused. Places count bytes from 0 in the whole text, of which lines are joined
/// with one comma each.
#[derive(Debug, Drop, Error)]
pub enum GrammarError {
    /// The text is not of the grammar. No text of the grammar begins with more of it than `at`
    /// bytes.
    #[error("not in the grammar at {at}")]
    NotGrammar { at: u32 },
    /// The text is of the grammar, and at that place the name comes a second time in one item.
    #[error("a second parameter of one name at {at}")]
    Twice { at: u32, name: Octets },
    /// There was no memory, or the text has 2^32 bytes or more, whose places no `u32` holds.
    #[error("out of memory")]
    OutOfMemory,
}

impl From<OutOfMemory> for GrammarError {
    ghost use Rattle.std.specs.Prelude.{◌≡◌};
    ghost use Rattle.auth_grammar.specs.declared.error.GrammarError.TheVariants.{OutOfMemory};

    ghost from_gives = { λ _ e. e ≡ OutOfMemory };

    fn from(_error: OutOfMemory) -> GrammarError {
        GrammarError::OutOfMemory
    }
}
