//! A clock in memory.
ghost use Rattle.std.specs.Prelude.{◌≡◌, [], Some};
ghost use Rattle.auth_io.specs.Scripts.{coming_after};

use crate::clock::Clock;
use crate::memory::script::Script;

/// A clock that shows these moments, and then the last one again; 0 where there is none.
#[derive(Drop)]
pub struct MemClock {
    script: Script<u64>,
}

impl MemClock {
    /// Each call shows one of `moments`, from the first.
    pub fn new(moments: Vec<u64>) -> MemClock
        ensures shown { ⟦<MemClock as Clock>⟧.shown result ≡ Some [] }
        ensures coming { ⟦<MemClock as Clock>⟧.coming result ≡ Some moments.items }
    {
        MemClock {
            script: Script::new(moments),
        }
    }
}

impl Clock for MemClock {
    ghost use Rattle.std.specs.Prelude.{Some};
    ghost use Rattle.auth_io.specs.Scripts.{coming_after, given_first};

    ghost shown = { λ s. Some (given_first 0 s.script.answers.items s.script.given) };

    ghost coming = { λ s. Some (coming_after s.script.answers.items s.script.given) };

    fn now(&mut self) -> u64 {
        self.script.next(0)
    }
}
