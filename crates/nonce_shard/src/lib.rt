//! A table of nonces and of exchanges, one shard of it: what it is asked, what it answers by the
//! calls before, and a body that answers each call in the same time and keeps no list.
#![tactic(auto)]

mod calls;
mod copies;
mod errors;
mod exchange_ring;
mod exchanges;
mod history;
mod journal;
mod laws;
#[cfg(test)]
mod look_back;
mod names;
mod nonce_ring;
mod nonces;
mod ring;
mod seat;
mod shard;
mod sizes;
#[cfg(test)]
mod tests;
mod totals;

pub use calls::{Call, Exchange, ExchangeFlag, NonceKind, Prime, Reply, What};
pub use errors::{OutOfMemory, Worn};
pub use journal::JournalTable;
pub use laws::{admits_once, calls_stand, names_one, tries_once};
pub use names::{NameKind, TableName};
pub use seat::TableSeat;
pub use shard::{MOST_CALLS, Shard};
pub use sizes::{NONCE_LIFE, Setting, Sizes};
pub use totals::Totals;
