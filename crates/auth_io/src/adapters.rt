//! Adapters over the real things. They count their faults, tell nothing of content, and are the trusted edge:
//! what a real stream, file, clock or random source gave is not proved.

mod clock;
mod counts;
mod dial;
mod files;
mod link;
mod tcp;
mod words;

pub use clock::SystemClock;
pub use dial::TcpDial;
pub use files::DiskFiles;
pub use link::StdLink;
pub use tcp::{TcpAccept, TcpLink};
pub use words::OsWords;
