//! A shard that waits in a call until a call on another shard was answered.
ghost use Rattle.std.specs.Prelude.{◌≡◌, ◌≤◌, ℕ, IfOk, Some, [], length, slice_get};
ghost use Rattle.nonce_table.specs.declared.tests.slow.SlowShard.{SlowShard};
ghost use Rattle.nonce_shard.specs.Shard.{StandsFor, setting};
ghost use Rattle.nonce_shard.specs.Sizes.{AreValid};

use crate::object::TableObject;
use nonce_shard::{Call, OutOfMemory, Reply, Shard, Sizes, Totals};
use std::alloc::Global;
use std::sync::Arc;
use std::sync::atomic::{AtomicU64, Ordering};

/// How often a waiter looks.
const TURNS: u64 = 1_000_000_000;

/// A call on the first shard has its turn.
pub const ENTERED: u64 = 1;

/// A call on another shard was answered.
pub const ANSWERED: u64 = 2;

/// The call on the first shard has found that.
pub const FOUND: u64 = 3;

/// How far the calls have come.
pub type Stage = Arc<AtomicU64, Global>;

/// Waits for this stage, and says whether it came.
pub fn came(stage: &Stage, wanted: u64) -> bool {
    for _ in 0..TURNS {
        if stage.load(Ordering::SeqCst) == wanted {
            return true;
        }
    }
    false
}

/// A shard whose calls wait, if it is the first, until a call on another shard was answered.
#[derive(Drop)]
pub struct SlowShard {
    shard: Shard,
    is_first: bool,
    stage: Stage,
}

impl TableObject for SlowShard {
    ghost setting = { λ s. setting s.shard };

    ghost stands_for = { λ s past. StandsFor s.shard past };

    fn apply(&mut self, call: &Call) -> Reply {
        if self.is_first {
            self.stage.store(ENTERED, Ordering::SeqCst);
            if came(&self.stage, ANSWERED) {
                self.stage.store(FOUND, Ordering::SeqCst);
            }
        }
        self.shard.apply(call)
    }

    fn totals(&self) -> Totals {
        self.shard.totals()
    }
}

/// The first two shards of a table.
pub fn slow_shards(
    alloc: Global,
    sizes: &Sizes,
    stage: &Stage,
) -> Result<Vec<SlowShard>, OutOfMemory>
    requires valid { AreValid sizes.now }
    requires two { 2 ≤ sizes.now.shards }
    ensures long { IfOk result (λ shards. length shards.items ≡ 2) }
    ensures each { IfOk result (λ shards. (k : ℕ) (o : SlowShard) → slice_get shards.items k ≡ Some o → (setting o.shard ≡ record { number = k; sizes = sizes.now }) × StandsFor o.shard []) }
{
    let mut shards = Vec::with_capacity(alloc, 2)?;
    for number in 0..2 {
        shards.push_reserved(SlowShard {
            shard: Shard::open(alloc, number, sizes)?,
            is_first: number == 0,
            stage: Arc::try_clone(stage)?,
        });
    }
    Ok(shards)
}
