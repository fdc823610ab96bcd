//! What an adapter over a stream counts, and one read and one write of std.
ghost use Rattle.std.specs.Prelude.{◌≡◌, ◌+◌, ◌<◌, ◌≤◌, ◌^◌, length, Some, IfOk, IfSome, OnErr};
ghost use Rattle.auth_io.specs.Causes.{HasCause};
ghost use Rattle.auth_io.specs.Handing.{has_fault};
ghost use Rattle.auth_io.specs.Writes.{TakesSome, HasWriteCause};

use crate::stream::{Failed, Wrote};
use std::io::{ErrorKind, Read, Write};

/// How often a call that was interrupted is made again.
const TRIES: u32 = 1_000;

/// How many bytes a stream has given, and how many of its reads and of its writes failed.
#[derive(Drop)]
pub(crate) struct Counts {
    pub(crate) given: u64,
    pub(crate) read_faults: u64,
    pub(crate) write_faults: u64,
    ghost few: { given < 2 ^ 63 },
}

impl Counts {
    pub(crate) fn new() -> Counts
        ensures given { result.given ≡ 0 }
        ensures read_faults { result.read_faults ≡ 0 }
        ensures write_faults { result.write_faults ≡ 0 }
    {
        Counts {
            given: 0,
            read_faults: 0,
            write_faults: 0,
        }
    }

    /// Counts what a read gave, or its fault. A read that would pass 2^63 bytes in all is one.
    pub(crate) fn read(&mut self, count: Option<usize>) -> Result<usize, Failed>
        ensures same { IfOk result (λ n. count ≡ Some n) }
        ensures given { IfOk result (λ n. (self.new.given ≡ self.old.given + n) × (self.new.given < 2 ^ 63)) }
        ensures given_at_fault { OnErr result (self.new.given ≡ self.old.given) }
        ensures cause { HasCause self.old.read_faults self.new.read_faults result }
        ensures write_faults { self.new.write_faults ≡ self.old.write_faults }
    {
        let room = (1 << 63) - 1 - self.given;
        match count {
            Some(count) if count as u64 <= room => {
                self.given += count as u64;
                Ok(count)
            }
            _ => {
                self.read_faults = self.read_faults.saturating_add(1);
                Err(Failed)
            }
        }
    }

    /// Whether a read or a write failed.
    pub(crate) fn has_fault(&self) -> bool
        ensures { result ≡ has_fault self.now.read_faults self.now.write_faults }
    {
        self.read_faults > 0 || self.write_faults > 0
    }

    /// Counts the fault of a write.
    pub(crate) fn wrote(&mut self, wrote: Wrote) -> Wrote
        ensures same { result ≡ wrote }
        ensures cause { HasWriteCause self.old.write_faults self.new.write_faults result }
        ensures given { self.new.given ≡ self.old.given }
        ensures read_faults { self.new.read_faults ≡ self.old.read_faults }
    {
        if let Wrote::Failed = wrote {
            self.write_faults = self.write_faults.saturating_add(1);
        }
        wrote
    }
}

/// One read, made again where it was interrupted.
pub(crate) fn read_again<R: Read>(reader: &mut R, into: &mut [u8]) -> std::io::Result<usize>
    ensures { IfOk result (λ count. count ≤ length into.new) }
{
    for _ in 0..TRIES {
        match reader.read(into) {
            Err(error) if error.kind() == ErrorKind::Interrupted => {}
            result => return result,
        }
    }
    Err(std::io::Error::from(ErrorKind::Interrupted))
}

/// One read, or None where it failed.
pub(crate) fn read_some<R: Read>(reader: &mut R, into: &mut [u8]) -> Option<usize>
    ensures { IfSome result (λ count. count ≤ length into.new) }
{
    read_again(reader, into).ok()
}

/// One write. A write that takes nothing of some bytes is a fault.
pub(crate) fn write_some<W: Write>(writer: &mut W, from: &[u8]) -> Wrote
    ensures { TakesSome result from.now }
{
    for _ in 0..TRIES {
        match writer.write(from) {
            Ok(0) if !from.is_empty() => return Wrote::Failed,
            Ok(count) => return Wrote::Taken(count),
            Err(error) => match error.kind() {
                ErrorKind::Interrupted => {}
                ErrorKind::OutOfMemory => return Wrote::OutOfMemory,
                _ => return Wrote::Failed,
            },
        }
    }
    Wrote::Failed
}
