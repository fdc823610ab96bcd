//! A table of nonces that threads share: its shards are under turns, and each thread has a pass.
//!
//! A [`NonceTable`] makes passes, and a pass beside its table is a desk, at which one thread calls.
//! A call waits for the turn of its shard alone, so calls on different shards run at one time. All
//! calls on a shard stand in one history, and each reply is the one that a table of one thread
//! would give at that place. When every pass has come back, the table closes and tells its totals.
//!
//! # Examples
//!
//! ```text
//! let mut table = NonceTable::open(alloc, &Sizes::standard())?;
//! let mut passes = table.passes(alloc, 4)?;
//! // each thread takes a pass
//! let mut desk = TableDesk::new(rt, &table, pass);
//! let reply = desk.call(shard, &call)?;
//! let pass = desk.into_pass();
//! // and at the end all of them go back
//! match table.close(passes) {
//!     Ok(closed) => report(closed.admitted),
//!     Err(kept) => ..,
//! }
//! ```
#![tactic(auto)]

mod closing;
mod desk;
mod object;
mod pass;
mod shard;
mod table;
mod turns;

pub use closing::{Closed, PassesKept};
pub use desk::TableDesk;
pub use object::TableObject;
pub use pass::TablePass;
pub use table::{MOST_PASSES, NonceTable};
pub use turns::Turns;

#[cfg(test)]
mod tests;
