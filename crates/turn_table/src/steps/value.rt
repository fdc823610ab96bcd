//! The steps of a pass that has the turn: it looks at the number of calls, takes the object, and gives it back.
ghost use Rattle.std.specs.Prelude.{◌≡◌, true, Some, None, [], ◌∷◌};
ghost use Rattle.turn_table.specs.declared.view.Turn.TheVariants.{Ready};
ghost use Rattle.turn_table.specs.Rule.{IsSeatOf};
ghost use Rattle.turn_table.specs.Steps.{Counted};

use crate::object::Object;
use crate::rule::{CALLS, OBJECT, PassSeat, Turns};
use crate::view::View;
use atomic_table::Play;
use std::marker::PhantomData;

struct Counts<O> {
    marker: PhantomData<O>,
}

impl<O: Object> Play<Option<O>, View<O::Call, O::Setting>> for Counts<O> {
    ghost then = { λ st m found w. Counted O.stands_for O.setting m found w };
}

/// Looks at the number of calls. Where there is room for one more, the slot is the pass's from now on.
pub fn look_at_calls<O: Object>(turns: &Turns<O>, seat: &mut PassSeat<O>) -> u64
    requires table { IsSeatOf seat.old.table_id turns.now.table_id }
    requires ready { (seat.old.me.0.named ≡ true) × (seat.old.me.0.turn ≡ Ready) }
    ensures table { (seat.new.table_id ≡ seat.old.table_id) × (seat.new.id ≡ seat.old.id) }
    ensures counted { Counted O.stands_for O.setting seat.old.me result seat.new.me }
{
    turns.load::<Counts<O>>(seat, CALLS)
}

/// Takes the object out of the slot.
pub fn take_value<O: Object>(turns: &Turns<O>, seat: &mut PassSeat<O>) -> O
    requires table { IsSeatOf seat.old.table_id turns.now.table_id }
    requires full { (o : O) × (seat.old.me.1 ≡ (0, Some o) ∷ []) }
    ensures table { (seat.new.table_id ≡ seat.old.table_id) × (seat.new.id ≡ seat.old.id) }
    ensures object { seat.old.me.1 ≡ (0, Some result) ∷ [] }
    ensures empty { seat.new.me ≡ (seat.old.me.0, (0, None) ∷ []) }
{
    turns.exchange(seat, OBJECT, None).unwrap()
}

/// Gives the object back to the slot.
pub fn give_back<O: Object>(turns: &Turns<O>, seat: &mut PassSeat<O>, object: O)
    requires table { IsSeatOf seat.old.table_id turns.now.table_id }
    requires empty { seat.old.me.1 ≡ (0, None) ∷ [] }
    ensures table { (seat.new.table_id ≡ seat.old.table_id) × (seat.new.id ≡ seat.old.id) }
    ensures full { seat.new.me ≡ (seat.old.me.0, (0, Some object) ∷ []) }
{
    let left = turns.exchange(seat, OBJECT, Some(object));
    let None = left else { unreachable!() };
}
