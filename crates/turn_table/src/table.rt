//! One object, shared by turns.
ghost use Rattle.std.specs.Prelude.{◌≡◌, ◌+◌, ◌<◌, ◌^◌, [], Some, length, IfOk, IfErr};
ghost use Rattle.turn_table.specs.History.{calls_in, longer};
ghost use Rattle.turn_table.specs.Passes.{first_pass, next_pass, joined_pass, Answers, IsWorn, AreOfOneHistory, HasWholeHistory};

use crate::errors::{OutOfMemory, Worn};
use crate::object::{MOST_CALLS, Object};
use crate::pass::Pass;
use crate::rule::{OBJECT, TurnRule};
use crate::steps::{hear_note, join_views, look_again, split_off, take_note};
use crate::turn::{answer_in_turn, begin_turn, end_turn};
use crate::view::View;
use atomic_table::{Refused, Table};
use std::alloc::Global;
use std::marker::Model;
use std::snapshot::Snapshot;
use std::sync::Wait;

/// One object, which the holders of passes call by turns, in the order in which they drew their
/// numbers.
#[derive(Drop)]
pub struct TurnTable<O: Object> {
    table: Table<Option<O>, View<O::Call, O::Setting>, Snapshot<O>, TurnRule<O>, Global>,
}

impl<O: Object> Model for TurnTable<O> {
    ghost use Rattle.std.specs.Prelude.{◌≡◌};
    ghost use Rattle.turn_table.specs.Passes.{TableFacts};

    ghost Value = { TableFacts O.Setting };

    ghost view = { λ t. record { id = t.table.shared.table_id; setting = O.setting t.table.shared.key.value } };

    ghost invariant = { λ t. (t.table.shared.table_id.words ≡ 3) × (t.table.shared.table_id.slots ≡ 1) };
}

impl<O: Object> TurnTable<O> {
    /// A table of an object that has answered nothing, and its opening pass. This alone takes memory;
    /// the object comes back where there is none.
    pub fn open(alloc: Global, object: O) -> Result<(TurnTable<O>, Pass<O>), (OutOfMemory, O)>
        requires new { O.stands_for object [] }
        ensures table { IfOk result (λ t. t.0.setting ≡ O.setting object) }
        ensures pass { IfOk result (λ t. t.1 ≡ first_pass t.0) }
        ensures refused { IfErr result (λ e. e.1 ≡ object) }
    {
        let Ok(mut slots) = Vec::with_capacity(alloc, 1) else {
            return Err((OutOfMemory, object));
        };
        let start = Snapshot::of(&object);
        slots.push_reserved(Some(object));
        match Table::new(alloc, &[0, 0, 0], slots, &start) {
            Ok((table, seat)) => Ok((TurnTable { table }, Pass { seat })),
            Err(Refused { mut slots }) => {
                let object = slots.pop().unwrap().unwrap();
                slots.destroy_empty();
                Err((OutOfMemory, object))
            }
        }
    }

    /// The next pass. Passes are split from the opening one alone: the first of them has the owner
    /// number 1, and each the next.
    pub fn split(&self, pass: &mut Pass<O>) -> Pass<O>
        requires table { pass.old.table ≡ self.now.id }
        requires opening { pass.old.owner ≡ 0 }
        requires few { pass.old.made + 1 < 2 ^ 32 }
        ensures pass { pass.new ≡ record (pass.old) { made = pass.old.made + 1 } }
        ensures new { result ≡ next_pass pass.old }
    {
        Pass {
            seat: split_off(&self.table.shared, &mut pass.seat),
        }
    }

    /// Joins a pass into the opening one, which keeps its owner number and its list.
    pub fn join(&self, pass: &mut Pass<O>, other: Pass<O>)
        requires table { (pass.old.table ≡ self.now.id) × (other.table ≡ self.now.id) }
        requires opening { pass.old.owner ≡ 0 }
        ensures pass { pass.new ≡ joined_pass pass.old other }
        ensures one_history { AreOfOneHistory pass.old.owner pass.old.seen other.seen }
    {
        let Pass { seat } = other;
        join_views(&self.table.shared, &mut pass.seat, seat);
        look_again(&self.table.shared, &mut pass.seat);
    }

    /// Tells `b` what `a` has seen. So one of the two has seen all that the other has.
    pub fn meet(&self, a: &mut Pass<O>, b: &mut Pass<O>)
        requires table { (a.old.table ≡ self.now.id) × (b.old.table ≡ self.now.id) }
        ensures a { a.new ≡ a.old }
        ensures b { b.new ≡ record (b.old) { seen = longer b.old.seen a.old.seen } }
        ensures one_history { AreOfOneHistory b.old.owner b.old.seen a.old.seen }
    {
        let note = take_note(&self.table.shared, &mut a.seat);
        hear_note(&self.table.shared, &mut b.seat, note);
        look_again(&self.table.shared, &mut b.seat);
    }

    /// Calls the object once every call that drew its number before has been answered. `Worn` comes
    /// where the history then has `MOST_CALLS` calls; the call isn't made.
    pub fn call<R: Wait>(
        &self,
        rt: &R,
        pass: &mut Pass<O>,
        call: &O::Call,
    ) -> Result<O::Reply, Worn>
        requires table { pass.old.table ≡ self.now.id }
        requires fits { O.fits call.now }
        ensures ok { IfOk result (λ reply. Answers O.reply pass.old call.now reply pass.new) }
        ensures worn { IfErr result (λ w. IsWorn pass.old w.calls pass.new) }
    {
        let turns = &self.table.shared;
        let calls = begin_turn(rt, turns, &mut pass.seat);
        if calls >= MOST_CALLS {
            end_turn(turns, &mut pass.seat);
            return Err(Worn { calls });
        }
        Ok(answer_in_turn(turns, &mut pass.seat, call))
    }

    /// The object, once every pass that was split was joined into the opening one.
    pub fn close(self, pass: Pass<O>) -> O
        requires table { pass.table ≡ self.id }
        requires opening { pass.owner ≡ 0 }
        requires all_joined { length pass.kept ≡ pass.made }
        ensures object { O.stands_for result (calls_in pass.seen) }
        ensures setting { pass.setting ≡ Some (O.setting result) }
        ensures history { HasWholeHistory pass }
    {
        let TurnTable { table } = self;
        let Pass { seat } = pass;
        let mut closed = table.close_with(seat);
        let object = closed.take(OBJECT);
        closed.free();
        object.unwrap()
    }
}
