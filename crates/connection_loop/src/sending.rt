//! Writing.
ghost use Rattle.std.specs.Prelude.{◌≡◌, ◌≤◌, ℕ, Err, IfErr, OnOk, OnErr, take};
ghost use Rattle.std.specs.Io.KnownBytes.{Appends};
ghost use Rattle.auth_io.specs.Causes.{Rose};
ghost use Rattle.connection_loop.specs.Steps.{IsSendError};

use crate::served::ServeError;
use auth_io::{Link, send_all};

/// Writes all of these bytes.
pub fn write_all<L: Link>(link: &mut L, bytes: &[u8]) -> Result<(), ServeError>
    ensures ok { OnOk result (Appends (L.written link.old) (L.written link.new) bytes.now) }
    ensures err { OnErr result ((n : ℕ) × Appends (L.written link.old) (L.written link.new) (take n bytes.now)) }
    ensures kind { IfErr result IsSendError }

    ensures left { L.left link.new ≡ L.left link.old }
    ensures given { L.given link.new ≡ L.given link.old }
    ensures reads { L.reads link.new ≡ L.reads link.old }
    ensures read_faults { L.read_faults link.new ≡ L.read_faults link.old }
    ensures later { L.write_faults link.old ≤ L.write_faults link.new }
    ensures fault { result ≡ Err ServeError.WriteFault → Rose (L.write_faults link.old) (L.write_faults link.new) }
{
    Ok(send_all(link, bytes)?)
}
