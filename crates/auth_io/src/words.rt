//! Random words.
ghost use Rattle.std.specs.Prelude.{◌≡◌, ◌∷◌, ℕ, List, [], Option, IfOk, OnErr, replicate};
ghost use Rattle.auth_io.specs.Told.{Adds, Stays};
ghost use Rattle.auth_io.specs.Causes.{HasCause};
ghost use Rattle.auth_io.specs.Scripts.{GivesFirst};

use crate::stream::Failed;

/// A source of random words, by those that were drawn and those to come, where it tells them.
pub trait Words {
    ghost drawn: { Self → Option (List (List ℕ)) };

    ghost coming: { Self → Option (List (List ℕ)) };

    ghost faults: { Self → ℕ };

    /// Sixteen random bytes. A draw that failed takes none of those to come.
    fn draw(&mut self) -> Result<[u8; 16], Failed>
        ensures drawn { IfOk result (λ words. Adds (drawn self.old) (drawn self.new) (words ∷ [])) }
        ensures coming { IfOk result (λ words. GivesFirst (replicate 16 0) (coming self.old) (coming self.new) words) }
        ensures drawn_at_fault { OnErr result (Stays (drawn self.old) (drawn self.new)) }
        ensures coming_at_fault { OnErr result (coming self.new ≡ coming self.old) }
        ensures cause { HasCause (faults self.old) (faults self.new) result };
}
