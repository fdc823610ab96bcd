//! The words and the slot of a table, and the rule that they keep.
ghost use Rattle.turn_table.specs.Views.{first_view};
ghost use Rattle.turn_table.specs.Rule.{Account};

use crate::object::Object;
use crate::view::View;
use atomic_table::{Seat, Shared, TableRule};
use std::marker::PhantomData;
use std::snapshot::Snapshot;

/// The word that counts the calls of the history.
pub const CALLS: usize = 0;

/// The word that counts the numbers drawn.
pub const TICKET: usize = 1;

/// The word with the number that is served.
pub const SERVING: usize = 2;

/// The slot of the object.
pub const OBJECT: usize = 0;

/// What a pass steps with.
pub type PassSeat<O> = Seat<Option<O>, View<<O as Object>::Call, <O as Object>::Setting>>;

/// The words and the slot, as all passes share them.
pub type Turns<O> = Shared<
    Option<O>,
    View<<O as Object>::Call, <O as Object>::Setting>,
    Snapshot<O>,
    TurnRule<O>,
>;

/// The rule of a table that keeps one object under turns. Its key is the object at the opening.
pub struct TurnRule<O> {
    marker: PhantomData<O>,
}

impl<O: Object> TableRule<Option<O>, View<O::Call, O::Setting>, Snapshot<O>> for TurnRule<O> {
    ghost holds = { λ key s. Account O.stands_for O.setting (O.setting key.value) s };

    ghost first = { λ key. first_view (O.setting key.value) };
}
