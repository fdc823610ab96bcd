//! The steps of passes at rest: a split, a join, and a note from one pass to another.
ghost use Rattle.std.specs.Prelude.{◌≡◌, ◌+◌, ◌<◌, ◌^◌, true, false, []};
ghost use Rattle.turn_table.specs.declared.view.Turn.TheVariants.{Idle};
ghost use Rattle.turn_table.specs.Rule.{IsSeatOf};
ghost use Rattle.turn_table.specs.Views.{split_left, split_right, note_of, joined, told, spent};
ghost use Rattle.turn_table.specs.Steps.{Looked};

use crate::object::Object;
use crate::rule::{CALLS, PassSeat, Turns};
use crate::view::View;
use atomic_table::{Join, Play, Split};

struct Splits;

impl<C, S> Split<View<C, S>> for Splits {
    ghost left = { λ v. split_left v };

    ghost right = { λ v. split_right v };
}

struct TakesNote;

impl<C, S> Split<View<C, S>> for TakesNote {
    ghost left = { λ v. v };

    ghost right = { λ v. note_of v };
}

struct Joins;

impl<C, S> Join<View<C, S>> for Joins {
    ghost both = { λ v w. joined v w };

    ghost spent = { spent };
}

struct HearsNote;

impl<C, S> Join<View<C, S>> for HearsNote {
    ghost both = { λ v w. told v w };

    ghost spent = { spent };
}

struct Looks;

impl<O, C, S> Play<Option<O>, View<C, S>> for Looks {
    ghost then = { λ st m found w. Looked m w };
}

/// Splits the next pass from the opening one.
pub fn split_off<O: Object>(turns: &Turns<O>, seat: &mut PassSeat<O>) -> PassSeat<O>
    requires table { IsSeatOf seat.old.table_id turns.now.table_id }
    requires opening { (seat.old.me.0.named ≡ true) × (seat.old.me.0.owner ≡ 0) × (seat.old.me.0.turn ≡ Idle) }
    requires few { seat.old.me.0.made + 1 < 2 ^ 32 }
    ensures table { (seat.new.table_id ≡ seat.old.table_id) × (result.table_id ≡ seat.old.table_id) }
    ensures left { seat.new.me ≡ (split_left seat.old.me.0, seat.old.me.1) }
    ensures right { result.me ≡ (split_right seat.old.me.0, []) }
{
    turns.split_seat::<Splits>(seat)
}

/// Joins another pass into the opening one.
pub fn join_views<O: Object>(turns: &Turns<O>, seat: &mut PassSeat<O>, other: PassSeat<O>)
    requires table { IsSeatOf seat.old.table_id turns.now.table_id × IsSeatOf other.table_id turns.now.table_id }
    requires opening { (seat.old.me.0.named ≡ true) × (seat.old.me.0.owner ≡ 0) × (seat.old.me.0.turn ≡ Idle) }
    requires other { (other.me.0.named ≡ true) × (other.me.0.turn ≡ Idle) × (other.me.1 ≡ []) }
    ensures table { seat.new.table_id ≡ seat.old.table_id }
    ensures joined { seat.new.me ≡ (joined seat.old.me.0 other.me.0, seat.old.me.1) }
{
    turns.join_seat::<Joins>(seat, other);
}

/// Takes a note of what a pass has seen.
pub fn take_note<O: Object>(turns: &Turns<O>, seat: &mut PassSeat<O>) -> PassSeat<O>
    requires table { IsSeatOf seat.old.table_id turns.now.table_id }
    ensures table { (seat.new.table_id ≡ seat.old.table_id) × (result.table_id ≡ seat.old.table_id) }
    ensures same { seat.new.me ≡ seat.old.me }
    ensures note { result.me ≡ (note_of seat.old.me.0, []) }
{
    turns.split_seat::<TakesNote>(seat)
}

/// Tells a pass what a note has.
pub fn hear_note<O: Object>(turns: &Turns<O>, seat: &mut PassSeat<O>, note: PassSeat<O>)
    requires table { IsSeatOf seat.old.table_id turns.now.table_id × IsSeatOf note.table_id turns.now.table_id }
    requires idle { (seat.old.me.0.named ≡ true) × (seat.old.me.0.turn ≡ Idle) }
    requires note { (note.me.0.named ≡ false) × (note.me.1 ≡ []) }
    ensures table { seat.new.table_id ≡ seat.old.table_id }
    ensures told { seat.new.me ≡ (told seat.old.me.0 note.me.0, seat.old.me.1) }
{
    turns.join_seat::<HearsNote>(seat, note);
}

/// Looks at the number of calls, and learns that the lists which were put together are of one history.
pub fn look_again<O: Object>(turns: &Turns<O>, seat: &mut PassSeat<O>)
    requires table { IsSeatOf seat.old.table_id turns.now.table_id }
    requires idle { (seat.old.me.0.named ≡ true) × (seat.old.me.0.turn ≡ Idle) }
    ensures table { seat.new.table_id ≡ seat.old.table_id }
    ensures looked { Looked seat.old.me seat.new.me }
{
    turns.load::<Looks>(seat, CALLS);
}
