//! A number that calls add to.
ghost use Rattle.std.specs.Prelude.{◌≡◌};
ghost use Rattle.turn_table.specs.Registers.{value_after};

use crate::object::Object;

/// A number, at 0 first. A call adds to it, wrapping, and its reply is the number before.
#[derive(Debug, Drop)]
pub struct Register {
    pub value: u64,
}

impl Object for Register {
    type Call = u64;

    type Reply = u64;

    type Setting = ();

    ghost setting = { λ r. tt };

    ghost stands_for = { λ r past. r.value ≡ value_after past };

    ghost reply = { λ s past call. value_after past };

    ghost fits = { λ call. Unit {0} };

    fn apply(&mut self, call: &u64) -> u64 {
        let old = self.value;
        self.value = old.wrapping_add(*call);
        old
    }
}
