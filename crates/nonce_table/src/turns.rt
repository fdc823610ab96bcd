//! The turns of all shards.
ghost use Rattle.std.specs.Prelude.{◌≡◌, ◌+◌, ◌<◌, ◌≤◌, ◌^◌, ℕ, Some, [], length, map, slice_get, vec_capacity};
ghost use Rattle.turn_table.specs.Passes.{PassFacts, HasWholeHistory, next_pass};
ghost use Rattle.nonce_shard.specs.declared.calls.Call.{Call};
ghost use Rattle.nonce_shard.specs.declared.sizes.Setting.{Setting};
ghost use Rattle.nonce_table.specs.Shards.{AreOpenings, opening_of, split_pass, totals_of};
ghost use Rattle.nonce_table.specs.Tables.{IsAt};
ghost use Rattle.nonce_table.specs.Closing.{sum_of, joined_at};

use crate::closing::Closed;
use crate::object::{InTurn, TableObject};
use crate::pass::TablePass;
use crate::shard::{close_shard, join_shard};
use nonce_shard::Shard;
use std::marker::Model;
use turn_table::{Pass, TurnTable};

/// The turns of the shards of a table: what all threads share of it.
#[derive(Drop)]
pub struct Turns<T: TableObject = Shard> {
    shards: Vec<TurnTable<InTurn<T>>>,
}

impl<T: TableObject> Model for Turns<T> {
    ghost use Rattle.std.specs.Prelude.{List};
    ghost use Rattle.turn_table.specs.Passes.{TableFacts};
    ghost use Rattle.nonce_shard.specs.declared.sizes.Setting.{Setting};

    ghost Value = { List (TableFacts Setting) };

    ghost view = { λ t. t.shards.items };
}

impl<T: TableObject> Turns<T> {
    pub(crate) fn of(shards: Vec<TurnTable<InTurn<T>>>) -> Turns<T>
        ensures { result ≡ shards.items }
    {
        Turns { shards }
    }

    /// The turns of one shard.
    pub(crate) fn at(&self, shard: u16) -> &TurnTable<InTurn<T>>
        requires { shard < length self.now }
        ensures { slice_get self.now shard ≡ Some result.now }
    {
        &self.shards[shard as usize]
    }

    /// Splits a pass of each shard, with the room for them.
    pub(crate) fn split_all(
        &self,
        made: u32,
        openings: &mut Vec<Pass<InTurn<T>>>,
        room: Vec<Pass<InTurn<T>>>,
    ) -> Vec<Pass<InTurn<T>>>
        requires room { (room.items ≡ []) × (length self.now ≤ vec_capacity room) }
        requires few { made + 1 < 2 ^ 32 }
        requires openings { openings.old.items ≡ map (opening_of made) self.now }
        ensures openings { openings.new.items ≡ map (opening_of (made + 1)) self.now }
        ensures passes { result.items ≡ map (λ t. next_pass (opening_of made t)) self.now }
    {
        let mut passes = room;
        let shards = &self.shards;
        for s in 0..shards.len() {
            passes.push_reserved(shards[s].split(&mut openings[s]));
        }
        passes
    }

    /// Joins a pass into the opening one of each shard.
    pub(crate) fn join(&self, openings: &mut Vec<Pass<InTurn<T>>>, pass: TablePass<T>)
        requires openings { AreOpenings self.now openings.old.items }
        requires pass { IsAt self.now pass }
        ensures openings { AreOpenings self.now openings.new.items }
        ensures each { (s : ℕ) (x : PassFacts Call Setting) → slice_get openings.old.items s ≡ Some x
            → slice_get openings.new.items s ≡ Some (joined_at s x pass) }
    {
        let shards = &self.shards;
        let mut s = 0;
        for one in pass.into_passes() {
            join_shard(&shards[s], &mut openings[s], one);
            s += 1;
        }
    }

    /// Closes the shards, into whose opening passes all others were joined.
    pub(crate) fn close(self, openings: Vec<Pass<InTurn<T>>>) -> Closed
        requires few { length self ≤ 16 }
        requires openings { AreOpenings self openings.items }
        requires joined { (s : ℕ) (x : PassFacts Call Setting) → slice_get openings.items s ≡ Some x → length x.kept ≡ x.made }
        ensures totals { result ≡ sum_of (totals_of self openings.items) }
        ensures whole { (s : ℕ) (x : PassFacts Call Setting) → slice_get openings.items s ≡ Some x → HasWholeHistory x }
    {
        let Turns { shards } = self;
        let mut closed = Closed::none();
        let mut rest = openings.into_iter();
        for turns in shards {
            let Some(opening) = rest.next() else {
                unreachable!()
            };
            closed.add(&close_shard(turns, opening));
        }
        rest.destroy_empty();
        closed
    }
}
