//! The outside of a server or a client, as traits that say what each call does to what they hold:
//! streams and connections, what hands out and what makes connections, files, a clock, a source of random words.
//!
//! Each trait counts its faults, so a caller can say that it answers a fault only where one came.
//! What an object holds is optional: a form in memory tells it, an adapter over the real thing tells nothing.
#![tactic(auto)]

mod accept;
mod adapters;
mod address;
mod clock;
mod dial;
mod files;
mod memory;
mod stream;
mod words;
mod writing;

pub use accept::Accept;
pub use adapters::{DiskFiles, OsWords, StdLink, SystemClock, TcpAccept, TcpDial, TcpLink};
pub use address::{is_address, is_host};
pub use clock::Clock;
pub use dial::{Dial, DialFault};
pub use files::{Ending, FileAnswer, Files, Replaced};
pub use memory::{
    MemAccept, MemClock, MemDial, MemFiles, MemLink, MemSink, MemSource, MemWords, SureLink,
    SureWords,
};
pub use stream::{Failed, Link, Sink, Source, Wrote};
pub use words::Words;
pub use writing::{WriteError, send_all, write_all};

#[cfg(test)]
mod tests;
