//! Exchanges, how far they have come, and what they are answered.
ghost use Rattle.std.specs.Prelude.{◌≡◌};
ghost use Rattle.nonce_shard.specs.Exchanges.{names_exchange, take_reply, keep_reply, recall_reply};

use crate::calls::{Exchange, Reply};
use crate::names::{NameKind, TableName};
use crate::sizes::Sizes;

/// An exchange as its Open made it. `time` is the time of that Open.
#[derive(Debug, Drop)]
pub struct Opening {
    pub space: u32,
    pub random: [u8; 16],
    pub exchange: Exchange,
    pub time: u64,
}

/// How far an exchange has come.
#[derive(Clone, Copy, Debug, PartialEq, Eq)]
pub enum Progress {
    /// Its try is not made yet.
    Untried,
    /// Its try is made.
    Tried,
    /// Its try was right, which was kept at this time.
    Finished { time: u64 },
}

/// Whether this is the exchange that is named, of that space.
pub fn is_named(number: u16, name: &TableName, space: u32, opening: &Opening) -> bool
    ensures { result ≡ names_exchange number name.now space opening.now }
{
    name.kind == NameKind::Exchange
        && name.shard == number
        && name.random == opening.random
        && opening.space == space
}

/// The reply to a Take of an exchange that is there.
pub fn reply_to_take(sizes: &Sizes, now: u64, opening: &Opening, progress: Progress) -> Reply
    ensures { result ≡ take_reply sizes.now now opening.now progress }
{
    match progress {
        Progress::Untried if now.saturating_sub(opening.time) <= sizes.open_life => Reply::Taken {
            exchange: opening.exchange.copy(),
        },
        _ => Reply::Gone,
    }
}

/// The reply to a Keep of an exchange that is there.
pub fn reply_to_keep(progress: Progress) -> Reply
    ensures { result ≡ keep_reply progress }
{
    match progress {
        Progress::Tried => Reply::Kept,
        _ => Reply::Gone,
    }
}

/// The reply to a Recall of an exchange that is there.
pub fn reply_to_recall(sizes: &Sizes, now: u64, opening: &Opening, progress: Progress) -> Reply
    ensures { result ≡ recall_reply sizes.now now opening.now progress }
{
    match progress {
        Progress::Finished { time } if now.saturating_sub(time) <= sizes.finished_life => {
            Reply::Session {
                exchange: opening.exchange.copy(),
            }
        }
        _ => Reply::Gone,
    }
}
