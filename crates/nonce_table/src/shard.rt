//! One shard of a table: its turns, and the opening pass to them.
ghost use Rattle.std.specs.Prelude.{◌≡◌, ◌+◌, ◌<◌, ◌^◌, [], length, IfOk};
ghost use Rattle.turn_table.specs.History.{Without};
ghost use Rattle.turn_table.specs.Passes.{first_pass, joined_pass, HasWholeHistory};
ghost use Rattle.nonce_table.specs.Shards.{IsOpening, totals_at};

use crate::object::{InTurn, TableObject};
use nonce_shard::{OutOfMemory, Totals};
use std::alloc::Global;
use turn_table::{Pass, TurnTable};

/// The turns of a shard, and the opening pass to them, from which the others are split.
pub type Opened<T> = (TurnTable<InTurn<T>>, Pass<InTurn<T>>);

/// Puts an object that has answered nothing under turns.
pub fn open_shard<T: TableObject>(alloc: Global, object: T) -> Result<Opened<T>, OutOfMemory>
    requires { T.stands_for object [] }
    ensures setting { IfOk result (λ t. t.0.setting ≡ T.setting object) }
    ensures opening { IfOk result (λ t. t.1 ≡ first_pass t.0) }
{
    match TurnTable::open(alloc, InTurn { object }) {
        Ok(opened) => Ok(opened),
        Err((_error, _object)) => Err(OutOfMemory),
    }
}

/// Joins a pass that was split into the opening one.
pub fn join_shard<T: TableObject>(
    turns: &TurnTable<InTurn<T>>,
    opening: &mut Pass<InTurn<T>>,
    other: Pass<InTurn<T>>,
)
    requires opening { IsOpening turns.now opening.old }
    requires table { other.table ≡ turns.now.id }
    ensures joined { opening.new ≡ joined_pass opening.old other }
    ensures opening { IsOpening turns.now opening.new }
{
    turns.join(opening, other);
}

/// The totals, once every pass was joined.
pub fn close_shard<T: TableObject>(turns: TurnTable<InTurn<T>>, opening: Pass<InTurn<T>>) -> Totals
    requires opening { IsOpening turns opening }
    requires joined { length opening.kept ≡ opening.made }
    ensures totals { result ≡ totals_at turns opening }
    ensures small { (result.calls < 2 ^ 64) × (result.issued < 2 ^ 64) × (result.admitted < 2 ^ 64) × (result.repeated < 2 ^ 64) }
    ensures history { HasWholeHistory opening }
{
    let InTurn { object } = turns.close(opening);
    object.totals()
}
