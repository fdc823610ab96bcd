//! The calls that a shard has answered.
use crate::calls::{Call, Reply};

/// A call with its time, which is the greatest moment up to it, and its reply.
#[derive(Debug, Drop)]
pub struct Answered {
    pub call: Call,
    pub time: u64,
    pub reply: Reply,
}
