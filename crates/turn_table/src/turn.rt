//! The turn of one call, from the drawing of its number to the next one's turn.
ghost use Rattle.std.specs.Prelude.{◌≡◌, ◌∷◌, ◌++◌, [], Some, List, true};
ghost use Rattle.turn_table.specs.declared.view.Turn.TheVariants.{Idle, Holding};
ghost use Rattle.turn_table.specs.History.{Entry, calls_in};
ghost use Rattle.turn_table.specs.Rule.{IsSeatOf};
ghost use Rattle.turn_table.specs.Views.{committed};
ghost use Rattle.turn_table.specs.Steps.{Counted, HoldsObject, CanPassOn, Passed};

use crate::object::Object;
use crate::rule::{PassSeat, Turns};
use crate::steps::{commit, draw_ticket, give_back, look_at_calls, pass_on, take_value};
use crate::wait::{wait_turn, wake_waiters};
use std::marker::Brand;
use std::sync::Wait;

/// Waits for a turn, and says how many calls there are. Where there is room for one more, the pass
/// holds the object then.
pub fn begin_turn<R: Wait, O: Object>(rt: &R, turns: &Turns<O>, seat: &mut PassSeat<O>) -> u64
    requires table { IsSeatOf seat.old.table_id turns.now.table_id }
    requires idle { (seat.old.me.0.named ≡ true) × (seat.old.me.0.turn ≡ Idle) }
    ensures table { seat.new.table_id ≡ seat.old.table_id }
    ensures counted { Counted O.stands_for O.setting seat.old.me result seat.new.me }
{
    let number = draw_ticket(turns, seat);
    wait_turn(rt, turns, seat, number);
    look_at_calls(turns, seat)
}

/// Makes the call, and ends the turn.
pub fn answer_in_turn<O: Object>(
    turns: &Turns<O>,
    seat: &mut PassSeat<O>,
    call: &O::Call,
) -> O::Reply
    requires table { IsSeatOf seat.old.table_id turns.now.table_id }
    requires named { seat.old.me.0.named ≡ true }
    requires holds { HoldsObject O.stands_for O.setting seat.old.me }
    requires fits { O.fits call.now }
    ensures table { seat.new.table_id ≡ seat.old.table_id }
    ensures made { (log : List (Entry O.Call)) → seat.old.me.0.turn ≡ Holding log
        → seat.new.me ≡ (record (committed seat.old.me.0 (log ++ (seat.old.me.0.owner, call.now) ∷ [])) { turn = Idle }, []) }
    ensures reply { (log : List (Entry O.Call)) (setting : O.Setting) → seat.old.me.0.turn ≡ Holding log
        → seat.old.me.0.setting ≡ Some setting → result ≡ O.reply setting (calls_in log) call.now }
{
    let mut object = take_value(turns, seat);
    let reply = object.apply(call);
    commit::<O, Brand>(turns, seat, call);
    give_back(turns, seat, object);
    end_turn(turns, seat);
    reply
}

/// Ends the turn, and lets those who wait look again.
pub fn end_turn<O: Object>(turns: &Turns<O>, seat: &mut PassSeat<O>)
    requires table { IsSeatOf seat.old.table_id turns.now.table_id }
    requires named { seat.old.me.0.named ≡ true }
    requires can { CanPassOn O.stands_for O.setting seat.old.me }
    ensures table { (seat.new.table_id ≡ seat.old.table_id) × (seat.new.id ≡ seat.old.id) }
    ensures passed { Passed seat.old.me seat.new.me }
{
    let served = pass_on(turns, seat);
    wake_waiters(turns, served);
}
