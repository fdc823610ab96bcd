//! Clocks.
ghost use Rattle.std.specs.Prelude.{◌≡◌, ◌∷◌, ℕ, List, [], Option};
ghost use Rattle.auth_io.specs.Told.{Adds};
ghost use Rattle.auth_io.specs.Scripts.{GivesFirst};

/// A clock, by the moments that it has shown and those that it will show, where it tells them.
pub trait Clock {
    ghost shown: { Self → Option (List ℕ) };

    ghost coming: { Self → Option (List ℕ) };

    /// The moment, in seconds since the beginning of 1970. It never fails, and may go back.
    fn now(&mut self) -> u64
        ensures shown { Adds (shown self.old) (shown self.new) (result ∷ []) }
        ensures coming { GivesFirst 0 (coming self.old) (coming self.new) result };
}
