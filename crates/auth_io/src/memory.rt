//! Forms in memory, for tests and for embedding: they tell all that they hold.
//!
//! A list of lengths says how much each call takes at most, the first call first; a length of 0 counts as 1,
//! and past the list's end a call takes all that it can. A failing list has the numbers of the calls that
//! are to fail, counted from 1.

mod accept;
mod clock;
mod dial;
mod files;
mod link;
mod schedule;
mod script;
mod streams;
mod supply;
mod words;

pub use accept::MemAccept;
pub use clock::MemClock;
pub use dial::MemDial;
pub use files::MemFiles;
pub use link::{MemLink, SureLink};
pub use streams::{MemSink, MemSource};
pub use words::{MemWords, SureWords};
