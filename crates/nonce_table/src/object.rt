//! What a table has under turns in each of its shards.
ghost use Rattle.std.specs.Prelude.{◌≡◌, ◌<◌, ◌∷◌, ◌++◌, [], List, length};
ghost use Rattle.nonce_shard.specs.declared.calls.Call.{Call};
ghost use Rattle.nonce_shard.specs.declared.sizes.Setting.{Setting};
ghost use Rattle.nonce_shard.specs.Replies.{Fits};
ghost use Rattle.nonce_shard.specs.Shard.{StandsFor, setting as shard_setting, reply_after, totals_after};

use nonce_shard::{Call, Reply, Setting, Shard, Totals};
use turn_table::{MOST_CALLS, Object};

/// What answers as a shard does, and counts its answers. A table has `Shard`s; a test may put
/// something slower in their place.
pub trait TableObject: Drop {
    ghost setting: { Self → Setting };

    ghost stands_for: { Self → List Call → Type 0 };

    /// Answers a call.
    fn apply(&mut self, call: &Call) -> Reply
        requires fits { Fits call.now.what }
        requires stands { (past : List Call) × stands_for self.old past × (length past < MOST_CALLS) }
        ensures reply { (past : List Call) → stands_for self.old past → length past < MOST_CALLS
            → result ≡ reply_after (setting self.old) past call.now }
        ensures setting { setting self.new ≡ setting self.old }
        ensures stands { (past : List Call) → stands_for self.old past → length past < MOST_CALLS
            → stands_for self.new (past ++ call.now ∷ []) };

    /// The totals of its calls.
    fn totals(&self) -> Totals
        ensures { (past : List Call) → stands_for self.now past → result ≡ totals_after (setting self.now) past };
}

impl TableObject for Shard {
    ghost setting = { shard_setting };

    ghost stands_for = { StandsFor };

    fn apply(&mut self, call: &Call) -> Reply {
        Shard::apply(self, call)
    }

    fn totals(&self) -> Totals {
        Shard::totals(self)
    }
}

/// Such an object under turns.
#[derive(Drop)]
pub struct InTurn<T> {
    pub object: T,
}

impl<T: TableObject> Object for InTurn<T> {
    type Call = Call;

    type Reply = Reply;

    type Setting = Setting;

    ghost setting = { λ o. T.setting o.object };

    ghost stands_for = { λ o past. T.stands_for o.object past };

    ghost reply = { reply_after };

    ghost fits = { λ call. Fits call.what };

    fn apply(&mut self, call: &Call) -> Reply {
        self.object.apply(call)
    }
}
