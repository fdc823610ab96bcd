//! One step of a feed of responses.
use crate::response::Response;

/// What a step came to.
#[derive(Drop)]
pub(crate) enum Step {
    /// Bytes were taken, and there is more to do.
    On,
    /// More bytes have to come.
    Wait,
    Done(Response),
    Fault { at: u64 },
    NoMemory,
}
