//! Writing whole texts.
ghost use Rattle.std.specs.Prelude.{◌≡◌, ◌++◌, ℕ, Err, IfErr, OnErr, OnOk, decimal, take};
ghost use Rattle.std.specs.Io.KnownBytes.{Appends};
ghost use Rattle.auth_io.specs.Causes.{Rose};
ghost use Rattle.authd.specs.Endings.{Tells, IsPrintFailure};

use crate::failure::{Failure, Fault};
use auth_grammar::{Octets, OutOfMemory};
use auth_io::{Link, Sink, WriteError, send_all, write_all};
use itoa::Buffer;

/// Writes all of the text to the link.
pub(crate) fn print<L: Link>(link: &mut L, text: &[u8]) -> Result<(), Failure>
    ensures ok { OnOk result (Appends (L.written link.old) (L.written link.new) text.now) }
    ensures err { OnErr result ((n : ℕ) × Appends (L.written link.old) (L.written link.new) (take n text.now)) }
    ensures kind { IfErr result IsPrintFailure }
    ensures left { L.left link.new ≡ L.left link.old }
    ensures read_faults { L.read_faults link.new ≡ L.read_faults link.old }
    ensures fault { result ≡ Err (Failure.Fault Fault.Write) → Rose (L.write_faults link.old) (L.write_faults link.new) }
{
    Ok(send_all(link, text)?)
}

/// Writes all of the text, or as much as goes before a write fails.
pub(crate) fn tell<D: Sink>(diag: &mut D, text: &[u8]) -> Result<(), OutOfMemory>
    ensures ok { OnOk result (Tells (D.written diag.old) (D.written diag.new) (D.faults diag.old) (D.faults diag.new) text.now) }
    ensures err { OnErr result ((n : ℕ) × Appends (D.written diag.old) (D.written diag.new) (take n text.now)) }
{
    match write_all(diag, text) {
        Ok(()) | Err(WriteError::Failed) => Ok(()),
        Err(WriteError::OutOfMemory) => Err(OutOfMemory),
    }
}

/// Adds a number in decimal digits.
pub(crate) fn push_number(text: &mut Octets, number: u64) -> Result<(), OutOfMemory>
    ensures { OnOk result (text.new ≡ text.old ++ decimal number) }
{
    let mut buffer = Buffer::new();
    text.extend(buffer.format(number).as_bytes())
}
