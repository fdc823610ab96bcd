//! How a worker ends.
ghost use Rattle.std.specs.Prelude.{◌≡◌, ◌||◌};
ghost use Rattle.worker_loop.specs.Ends.{after, is_no_memory, rank, worse};

use connection_loop::{ServeError, Served};

/// How a worker goes on after a connection.
#[derive(Clone, Copy, Debug, PartialEq, Eq)]
pub(crate) enum After {
    Next,
    /// It goes on, but there was no memory.
    NoMemory,
    /// Its server can't go on: its table of nonces takes no more calls.
    Stop,
}

impl After {
    pub(crate) fn of(served: &Result<Served, ServeError>) -> After
        ensures { result ≡ after served.now }
    {
        match served {
            Err(ServeError::Worn { .. }) => After::Stop,
            Err(ServeError::OutOfMemory) => After::NoMemory,
            _ => After::Next,
        }
    }

    /// Whether there was no memory, now or before.
    pub(crate) fn adds_to(self, before: bool) -> bool
        ensures { result ≡ (before || is_no_memory self) }
    {
        match self {
            After::NoMemory => true,
            _ => before,
        }
    }
}

/// How a worker ended.
#[derive(Clone, Copy, Debug, PartialEq, Eq)]
pub enum Finish {
    /// It served as many connections as it was to.
    Well,
    /// The same, but one of them ended by want of memory.
    OutOfMemory,
    /// Its table of nonces takes no more calls.
    Worn,
    /// No connection was handed out.
    AcceptFault,
}

impl Finish {
    /// How bad it is: the end of several workers is the one of the highest rank.
    pub fn rank(self) -> u8
        ensures { result ≡ rank self }
    {
        match self {
            Finish::Well => 0,
            Finish::OutOfMemory => 1,
            Finish::Worn => 2,
            Finish::AcceptFault => 3,
        }
    }

    /// The worse one of two.
    pub fn worse(self, other: Finish) -> Finish
        ensures { result ≡ worse self other }
    {
        if self.rank() < other.rank() {
            other
        } else {
            self
        }
    }
}
