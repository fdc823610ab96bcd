//! How far a feed has come with the request at its front.
use crate::request_head::SoundHead;
use crate::search::Place;

/// How far a feed has come with the request at its front.
#[derive(Drop)]
pub(crate) enum Phase {
    Searching(Place),
    /// The head stands from `start` to `end`, without a fault.
    Body {
        head: SoundHead,
        start: usize,
        end: usize,
    },
    /// The message is bad.
    Stopped {
        status: u16,
    },
}

impl Phase {
    pub const START: Phase = Phase::Searching(Place::Blank { start: 0 });
}
