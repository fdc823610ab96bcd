//! Writing whole texts.
ghost use Rattle.std.specs.Prelude.{◌≡◌, ℕ, ◌≤◌, Err, OnErr, OnOk, take};
ghost use Rattle.std.specs.Io.KnownBytes.{Appends};
ghost use Rattle.auth_io.specs.Causes.{Rose};

use crate::stream::{Link, Sink, Wrote};
use thiserror::Error;

/// Why a text was not written whole.
#[derive(Clone, Copy, Debug, PartialEq, Eq, Error)]
pub enum WriteError {
    /// A write failed, and the count of write faults has risen.
    #[error("Failed")]
    Failed,
    #[error("OutOfMemory")]
    OutOfMemory,
}

/// Writes all of these bytes to a sink. At an error a front of them is written.
pub fn write_all<S: Sink>(sink: &mut S, bytes: &[u8]) -> Result<(), WriteError>
    ensures ok { OnOk result (Appends (S.written sink.old) (S.written sink.new) bytes.now) }
    ensures err { OnErr result ((n : ℕ) × Appends (S.written sink.old) (S.written sink.new) (take n bytes.now)) }
    ensures later { S.faults sink.old ≤ S.faults sink.new }
    ensures fault { result ≡ Err WriteError.Failed → Rose (S.faults sink.old) (S.faults sink.new) }
    ensures well { OnOk result (S.faults sink.new ≡ S.faults sink.old) }
{
    let mut at = 0;
    while at < bytes.len() {
        match sink.write(&bytes[at..]) {
            Wrote::Taken(count) => at += count,
            Wrote::Failed => return Err(WriteError::Failed),
            Wrote::OutOfMemory => return Err(WriteError::OutOfMemory),
        }
    }
    Ok(())
}

/// Writes all of these bytes to a connection. At an error a front of them is written. What it still gives stays.
pub fn send_all<L: Link>(link: &mut L, bytes: &[u8]) -> Result<(), WriteError>
    ensures ok { OnOk result (Appends (L.written link.old) (L.written link.new) bytes.now) }
    ensures err { OnErr result ((n : ℕ) × Appends (L.written link.old) (L.written link.new) (take n bytes.now)) }
    ensures left { L.left link.new ≡ L.left link.old }
    ensures given { L.given link.new ≡ L.given link.old }
    ensures reads { L.reads link.new ≡ L.reads link.old }
    ensures read_faults { L.read_faults link.new ≡ L.read_faults link.old }
    ensures later { L.write_faults link.old ≤ L.write_faults link.new }
    ensures fault { result ≡ Err WriteError.Failed → Rose (L.write_faults link.old) (L.write_faults link.new) }
    ensures well { OnOk result (L.write_faults link.new ≡ L.write_faults link.old) }
{
    let mut at = 0;
    while at < bytes.len() {
        match link.write(&bytes[at..]) {
            Wrote::Taken(count) => at += count,
            Wrote::Failed => return Err(WriteError::Failed),
            Wrote::OutOfMemory => return Err(WriteError::OutOfMemory),
        }
    }
    Ok(())
}
