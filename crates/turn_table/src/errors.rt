//! Why a call is refused.
use thiserror::Error;

/// There was no memory for the table.
#[derive(Clone, Copy, Debug, PartialEq, Eq, Error)]
#[error("out of memory")]
pub struct OutOfMemory;

/// The history has as many calls as it can take. `calls` is that number, `MOST_CALLS`.
#[derive(Clone, Copy, Debug, PartialEq, Eq, Error)]
#[error("the history takes no more than {calls} calls")]
pub struct Worn {
    pub calls: u64,
}
