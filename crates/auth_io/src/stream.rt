//! Streams of bytes.
ghost use Rattle.std.specs.Prelude.{◌≡◌, ◌∷◌, ◌+◌, ◌^◌, ◌<◌, ℕ, List, [], Option, IfOk, OnOk, OnErr};
ghost use Rattle.auth_io.specs.Reads.{NotesRead};
ghost use Rattle.std.specs.Io.{ReadsAtMost};
ghost use Rattle.std.specs.Io.KnownBytes.{ReadConsumes};
ghost use Rattle.auth_io.specs.Causes.{HasCause};

use thiserror::Error;

/// What a call to the outside answers where it failed. The count of faults that belongs to it has risen.
#[derive(Clone, Copy, Debug, PartialEq, Eq, Error)]
#[error("a call to the outside failed")]
pub struct Failed;

/// How a write went.
#[derive(Clone, Copy, Debug, PartialEq, Eq)]
pub enum Wrote {
    /// That many bytes were taken from the front, at least one where there were any.
    Taken(usize),
    /// Nothing was taken, and the count of write faults has risen.
    Failed,
    /// Nothing was taken, for want of memory.
    OutOfMemory,
}

/// A stream that gives bytes, by those that are left, where it tells them.
pub trait Source {
    ghost left: { Self → Option (List ℕ) };

    /// How many bytes it has given, always fewer than 2^63.
    ghost given: { Self → ℕ };

    ghost faults: { Self → ℕ };

    /// Gives some of the bytes that are left, from the first. Ok(0) into a slice that isn't empty is the end.
    fn read(&mut self, into: &mut [u8]) -> Result<usize, Failed>
        ensures bound { ReadsAtMost result into.new }
        ensures bytes { ReadConsumes (left self.old) (left self.new) result into.new }
        ensures given { IfOk result (λ n. (given self.new ≡ given self.old + n) × (given self.new < 2 ^ 63)) }
        ensures left_at_fault { OnErr result (left self.new ≡ left self.old) }
        ensures given_at_fault { OnErr result (given self.new ≡ given self.old) }
        ensures cause { HasCause (faults self.old) (faults self.new) result };
}

/// A stream that takes bytes, by those that it has taken, where it tells them.
pub trait Sink {
    ghost use Rattle.auth_io.specs.Writes.{TakesSome, Writes, HasWriteCause};

    ghost written: { Self → Option (List ℕ) };

    ghost faults: { Self → ℕ };

    /// Takes some of these bytes, from the first.
    fn write(&mut self, from: &[u8]) -> Wrote
        ensures some { TakesSome result from.now }
        ensures bytes { Writes (written self.old) (written self.new) result from.now }
        ensures cause { HasWriteCause (faults self.old) (faults self.new) result };
}

/// A connection: what it still gives and what it has taken, where it tells them.
pub trait Link {
    ghost use Rattle.auth_io.specs.Writes.{TakesSome, Writes, HasWriteCause};

    ghost left: { Self → Option (List ℕ) };

    ghost written: { Self → Option (List ℕ) };

    /// How many bytes it has given, always fewer than 2^63.
    ghost given: { Self → ℕ };

    /// Each read that answered, by the numbers of bytes read and written before it.
    ghost reads: { Self → Option (List (ℕ × ℕ)) };

    ghost read_faults: { Self → ℕ };

    ghost write_faults: { Self → ℕ };

    /// Gives some of the bytes that are left, from the first. Ok(0) into a slice that isn't empty is the end.
    fn read(&mut self, into: &mut [u8]) -> Result<usize, Failed>
        ensures bound { ReadsAtMost result into.new }
        ensures bytes { ReadConsumes (left self.old) (left self.new) result into.new }
        ensures given { IfOk result (λ n. (given self.new ≡ given self.old + n) × (given self.new < 2 ^ 63)) }
        ensures left_at_fault { OnErr result (left self.new ≡ left self.old) }
        ensures given_at_fault { OnErr result (given self.new ≡ given self.old) }
        ensures reads { OnOk result (NotesRead (reads self.old) (reads self.new) (given self.old) (written self.old)) }
        ensures reads_at_fault { OnErr result (reads self.new ≡ reads self.old) }
        ensures written { written self.new ≡ written self.old }
        ensures cause { HasCause (read_faults self.old) (read_faults self.new) result }
        ensures write_faults { write_faults self.new ≡ write_faults self.old };

    /// Takes some of these bytes, from the first.
    fn write(&mut self, from: &[u8]) -> Wrote
        ensures some { TakesSome result from.now }
        ensures bytes { Writes (written self.old) (written self.new) result from.now }
        ensures left { left self.new ≡ left self.old }
        ensures given { given self.new ≡ given self.old }
        ensures reads { reads self.new ≡ reads self.old }
        ensures cause { HasWriteCause (write_faults self.old) (write_faults self.new) result }
        ensures read_faults { read_faults self.new ≡ read_faults self.old };
}
