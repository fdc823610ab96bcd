//! A pass to a table.
ghost use Rattle.std.specs.Prelude.{◌≡◌, ◌≤◌, ◌<◌, Some, [], ◌∷◌, ℕ, IfOk, IfErr, map, slice_get, slice_set, vec_len};
ghost use Rattle.nonce_shard.specs.Replies.{Fits};
ghost use Rattle.nonce_shard.specs.Seat.{Grows, IsWorn};
ghost use Rattle.nonce_shard.specs.declared.calls.Call.{Call};
ghost use Rattle.nonce_shard.specs.declared.sizes.Setting.{Setting};
ghost use Rattle.turn_table.specs.Passes.{PassFacts};
ghost use Rattle.nonce_table.specs.Passes.{facts_of, seat_of, ArePassesOf, AnswersAt, IsWornAt};
ghost use Rattle.nonce_table.specs.Tables.{IsAt};

use crate::object::{InTurn, TableObject};
use crate::turns::Turns;
use nonce_shard::{Call, Reply, Shard, Sizes, Worn};
use std::marker::Model;
use std::sync::Wait;
use turn_table::{Pass, TurnTable};

/// One owner's pass to a table, which can go to a thread. A pass that is dropped can't be given
/// back, and its table never closes then.
#[derive(Drop)]
pub struct TablePass<T: TableObject = Shard> {
    owner: u64,
    sizes: Sizes,
    passes: Vec<Pass<InTurn<T>>>,
}

impl<T: TableObject> Model for TablePass<T> {
    ghost use Rattle.nonce_table.specs.Passes.{TablePassFacts, ArePassesOf, facts_of};

    ghost Value = { TablePassFacts };

    ghost view = { λ p. facts_of p.owner p.sizes p.passes.items };

    ghost invariant = { λ p. ArePassesOf p.owner p.sizes p.passes.items };
}

impl<T: TableObject> TablePass<T> {
    /// The pass of this owner, of its passes to the shards.
    pub(crate) fn of(owner: u64, sizes: &Sizes, passes: Vec<Pass<InTurn<T>>>) -> TablePass<T>
        requires { ArePassesOf owner sizes.now passes.items }
        ensures { result ≡ facts_of owner sizes.now passes.items }
    {
        TablePass {
            owner,
            sizes: *sizes,
            passes,
        }
    }

    /// How many shards the table has.
    pub(crate) fn shards(&self) -> u16
        ensures number { result ≡ self.now.sizes.shards }
        ensures some { 1 ≤ result }
    {
        self.sizes.shards
    }

    /// Makes a call on a shard of its table, whose turns these are.
    pub(crate) fn call<R: Wait>(
        &mut self,
        rt: &R,
        turns: &Turns<T>,
        shard: u16,
        call: &Call,
    ) -> Result<Reply, Worn>
        requires in_range { shard < self.old.sizes.shards }
        requires of { IsAt turns.now self.old }
        requires fits { Fits call.now.what }
        ensures ok { IfOk result (λ reply. Grows (seat_of self.old) (seat_of self.new) (record {
          shard = shard;
          call = call.now;
          reply = reply;
        } ∷ [])) }
        ensures worn { IfErr result (λ w. IsWorn (seat_of self.old) (seat_of self.new) shard w.calls) }
        ensures table { self.new.table ≡ self.old.table }
        ensures sizes { self.new.sizes ≡ self.old.sizes }
    {
        let passes = &mut self.passes;
        call_on(rt, turns.at(shard), passes, shard as usize, call)
    }

    /// Its passes to the shards, in their order.
    pub(crate) fn into_passes(self) -> Vec<Pass<InTurn<T>>>
        ensures of { ArePassesOf self.owner self.sizes result.items }
        ensures same { facts_of self.owner self.sizes result.items ≡ self }
    {
        let TablePass {
            owner: _,
            sizes: _,
            passes,
        } = self;
        passes
    }
}

/// Makes a call with the pass at this place.
fn call_on<R: Wait, T: TableObject>(
    rt: &R,
    turns: &TurnTable<InTurn<T>>,
    passes: &mut Vec<Pass<InTurn<T>>>,
    at: usize,
    call: &Call,
) -> Result<Reply, Worn>
    requires within { at < vec_len passes.old }
    requires table { (p : PassFacts Call Setting) → slice_get passes.old.items at ≡ Some p → p.table ≡ turns.now.id }
    requires fits { Fits call.now.what }
    ensures ok { IfOk result (λ r. AnswersAt passes.old.items at call.now r passes.new.items) }
    ensures worn { IfErr result (λ w. IsWornAt passes.old.items at w.calls passes.new.items) }
{
    match turns.call(rt, &mut passes[at], call) {
        Ok(reply) => Ok(reply),
        Err(worn) => Err(Worn { calls: worn.calls }),
    }
}
