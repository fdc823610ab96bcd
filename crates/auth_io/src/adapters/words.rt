//! The system's source of random words.
ghost use Rattle.std.specs.Prelude.{◌≡◌};

use crate::stream::Failed;
use crate::words::Words;
use std::random::RandomSource;

/// The system's source of random words.
#[derive(Drop)]
pub struct OsWords<'r, R> {
    system: &'r R,
    faults: u64,
}

impl<'r, R: RandomSource> OsWords<'r, R> {
    /// Over the system's source, of which nothing was drawn.
    pub fn new(system: &'r R) -> OsWords<'r, R>
        ensures { ⟦<OsWords<'r, R> as Words>⟧.faults result ≡ 0 }
    {
        OsWords { system, faults: 0 }
    }
}

impl<'r, R: RandomSource> Words for OsWords<'r, R> {
    ghost use Rattle.std.specs.Prelude.{None};

    ghost drawn = { λ _. None };

    ghost coming = { λ _. None };

    ghost faults = { λ s. s.faults };

    fn draw(&mut self) -> Result<[u8; 16], Failed> {
        let mut words = [0; 16];
        match self.system.fill_bytes(&mut words) {
            Ok(()) => Ok(words),
            Err(_) => {
                self.faults = self.faults.saturating_add(1);
                Err(Failed)
            }
        }
    }
}
