//! The step at which a call enters the history.
ghost use Rattle.std.specs.Prelude.{◌≡◌, ◌<◌, ◌∷◌, ◌++◌, [], ℕ, Option, Some, None, List, length, true};
ghost use Rattle.turn_table.specs.declared.view.Turn.TheVariants.{Holding};
ghost use Rattle.turn_table.specs.History.{Entry};
ghost use Rattle.turn_table.specs.Rule.{IsSeatOf};
ghost use Rattle.turn_table.specs.Views.{committed};
ghost use Rattle.turn_table.specs.Steps.{Committed};

use crate::object::{MOST_CALLS, Object};
use crate::rule::{CALLS, PassSeat, Turns};
use crate::view::View;
use atomic_table::Play;
use std::marker::{Brand, PhantomData};

/// Names one call for the proof of the step, which sees the words and the views alone.
pub trait Said<C> {
    ghost said: { Option C };
}

impl<C> Said<C> for Brand {
    ghost said = { None };
}

struct Commits<C, J> {
    marker: PhantomData<(C, J)>,
}

impl<O, C, S, J: Said<C>> Play<Option<O>, View<C, S>> for Commits<C, J> {
    ghost then = { λ st m found w. Committed m J.said w };
}

/// Adds the call to the history.
pub fn commit<O: Object, J: Said<O::Call>>(turns: &Turns<O>, seat: &mut PassSeat<O>, call: &O::Call)
    requires table { IsSeatOf seat.old.table_id turns.now.table_id }
    requires said { J.said ≡ Some call.now }
    requires holds { (seat.old.me.0.named ≡ true)
        × ((l : List (Entry O.Call)) × (seat.old.me.0.turn ≡ Holding l) × (length l < MOST_CALLS)) }
    ensures table { (seat.new.table_id ≡ seat.old.table_id) × (seat.new.id ≡ seat.old.id) }
    ensures committed { (l : List (Entry O.Call)) → seat.old.me.0.turn ≡ Holding l
        → seat.new.me ≡ (committed seat.old.me.0 (l ++ (seat.old.me.0.owner, call.now) ∷ []), seat.old.me.1) }
{
    let _ = call;
    turns.fetch_add::<Commits<O::Call, J>>(seat, CALLS, 1);
}
