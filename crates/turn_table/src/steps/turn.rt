//! The steps from an idle pass to the turn, and the step that ends the turn.
ghost use Rattle.std.specs.Prelude.{◌≡◌, true, ℕ};
ghost use Rattle.turn_table.specs.declared.view.Turn.TheVariants.{Idle, Waiting};
ghost use Rattle.turn_table.specs.Rule.{IsSeatOf};
ghost use Rattle.turn_table.specs.Steps.{Drew, Watched, CanPassOn, Passed};

use crate::object::Object;
use crate::rule::{PassSeat, SERVING, TICKET, Turns};
use crate::view::View;
use atomic_table::Play;

struct Draws;

impl<O, C, S> Play<Option<O>, View<C, S>> for Draws {
    ghost then = { λ st m found w. Drew m found w };
}

struct Watches;

impl<O, C, S> Play<Option<O>, View<C, S>> for Watches {
    ghost then = { λ st m found w. Watched m found w };
}

struct PassesOn;

impl<O, C, S> Play<Option<O>, View<C, S>> for PassesOn {
    ghost then = { λ st m found w. Passed m w };
}

/// Draws the next number.
pub fn draw_ticket<O: Object>(turns: &Turns<O>, seat: &mut PassSeat<O>) -> u64
    requires table { IsSeatOf seat.old.table_id turns.now.table_id }
    requires idle { (seat.old.me.0.named ≡ true) × (seat.old.me.0.turn ≡ Idle) }
    ensures table { (seat.new.table_id ≡ seat.old.table_id) × (seat.new.id ≡ seat.old.id) }
    ensures drew { Drew seat.old.me result seat.new.me }
{
    turns.fetch_add::<Draws>(seat, TICKET, 1)
}

/// Looks which number is served.
pub fn look_at_serving<O: Object>(turns: &Turns<O>, seat: &mut PassSeat<O>) -> u64
    requires table { IsSeatOf seat.old.table_id turns.now.table_id }
    requires waits { (seat.old.me.0.named ≡ true) × ((n : ℕ) × (seat.old.me.0.turn ≡ Waiting n)) }
    ensures table { (seat.new.table_id ≡ seat.old.table_id) × (seat.new.id ≡ seat.old.id) }
    ensures watched { Watched seat.old.me result seat.new.me }
{
    turns.load::<Watches>(seat, SERVING)
}

/// Ends the turn: the next number is served. The result is the number that was.
pub fn pass_on<O: Object>(turns: &Turns<O>, seat: &mut PassSeat<O>) -> u64
    requires table { IsSeatOf seat.old.table_id turns.now.table_id }
    requires named { seat.old.me.0.named ≡ true }
    requires can { CanPassOn O.stands_for O.setting seat.old.me }
    ensures table { (seat.new.table_id ≡ seat.old.table_id) × (seat.new.id ≡ seat.old.id) }
    ensures passed { Passed seat.old.me seat.new.me }
{
    turns.fetch_add::<PassesOn>(seat, SERVING, 1)
}
