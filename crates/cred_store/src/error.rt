//! What can be wrong with a text of secrets.
use auth_grammar::OutOfMemory;
use thiserror::Error;

/// What is wrong with a line.
#[derive(Debug, Drop, Clone, Copy, PartialEq, Eq)]
pub enum LineFault {
    /// It hasn't as many colons as its form has, or no line feed.
    Form,
    /// The name isn't 1 to 64 printable bytes without a colon.
    Name,
    /// The realm isn't such a text.
    Realm,
    /// The kind isn't one that a store has.
    Kind,
    /// The flag is neither `on` nor `off`.
    Flag,
    /// The value isn't of the kind's form.
    Value,
    /// The text begins neither with the line `authstore 1` nor with `authstore 2`.
    Header,
}

/// Why a text of secrets isn't read, or a store isn't changed. Lines are counted from 1.
#[derive(Debug, Drop, Clone, Copy, PartialEq, Eq, Error)]
pub enum StoreError {
    /// The first faulty line is out of form.
    #[error("line {line}: {why:?}")]
    BadLine { line: u32, why: LineFault },
    /// The first faulty line has the name, realm and kind of the line before it.
    #[error("line {line} repeats the line before it")]
    Repeated { line: u32 },
    /// The first faulty line stands behind a line that should come after it.
    #[error("line {line} is out of order")]
    Unsorted { line: u32 },
    /// The name or the realm isn't 1 to 64 printable bytes without a colon.
    #[error("the name or the realm is out of form")]
    BadName,
    /// There was no memory for what was asked, or a text has more lines than a `u32` counts.
    #[error("out of memory")]
    OutOfMemory,
}

impl From<OutOfMemory> for StoreError {
    ghost use Rattle.std.specs.Prelude.{◌≡◌};
    ghost use Rattle.cred_store.specs.declared.error.StoreError.TheVariants.{OutOfMemory};

    ghost from_gives = { λ _ error. error ≡ OutOfMemory };

    fn from(_error: OutOfMemory) -> StoreError {
        StoreError::OutOfMemory
    }
}
