//! Why a table does not do what it is asked.
use std::alloc::AllocError;
use thiserror::Error;

/// There was no memory for the table.
#[derive(Clone, Copy, Debug, PartialEq, Eq, Error)]
#[error("out of memory")]
pub struct OutOfMemory;

impl From<AllocError> for OutOfMemory {
    fn from(_error: AllocError) -> OutOfMemory {
        OutOfMemory
    }
}

/// The shard has had as many calls as it can take. `calls` is that number.
#[derive(Clone, Copy, Debug, PartialEq, Eq, Error)]
#[error("the shard takes no more than {calls} calls")]
pub struct Worn {
    pub calls: u64,
}
