//! Telling on diag, whose own faults change nothing.
ghost use Rattle.std.specs.Prelude.{◌≡◌, ℕ, IfOk, OnErr, take, true};
ghost use Rattle.std.specs.Io.KnownBytes.{Appends};
ghost use Rattle.authget.specs.Telling.{TellsOn, heard};

use auth_grammar::OutOfMemory;
use auth_io::{Sink, WriteError, write_all};

/// Tells the text where no write has failed before. Whether none has failed yet.
pub(crate) fn tell<D: Sink>(diag: &mut D, on: bool, text: &[u8]) -> Result<bool, OutOfMemory>
    ensures told { let at = heard D.written D.faults in IfOk result (λ still. TellsOn on still (at diag.old) (at diag.new) text.now) }
    ensures err { OnErr result ((n : ℕ) × Appends (D.written diag.old) (D.written diag.new) (take n text.now)) }
    ensures err_open { OnErr result (on ≡ true) }
{
    if !on {
        return Ok(false);
    }
    match write_all(diag, text) {
        Ok(()) => Ok(true),
        Err(WriteError::Failed) => Ok(false),
        Err(WriteError::OutOfMemory) => Err(OutOfMemory),
    }
}
