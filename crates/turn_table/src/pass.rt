//! A pass to a table's object.
use crate::object::Object;
use crate::rule::PassSeat;
use std::marker::Model;

/// One caller's pass to a table's object, which can go to a thread of its own. Contracts see it as
/// what it knows: its owner number and the calls that it has seen, each with the number of its owner.
///
/// A pass that is dropped can't be joined, and its table can't be closed then.
#[derive(Drop)]
pub struct Pass<O: Object> {
    pub(crate) seat: PassSeat<O>,
}

impl<O: Object> Model for Pass<O> {
    ghost use Rattle.std.specs.Prelude.{◌≡◌, []};
    ghost use Rattle.turn_table.specs.Passes.{PassFacts};
    ghost use Rattle.turn_table.specs.Views.{facts_of, IsAtRest};

    ghost Value = { PassFacts O.Call O.Setting };

    ghost view = { λ p. facts_of p.seat.table_id p.seat.me.0 };

    ghost invariant = { λ p. IsAtRest p.seat.me.0 × (p.seat.me.1 ≡ []) };
}
