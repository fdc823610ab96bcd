//! A connection over a reader and a writer of std.
ghost use Rattle.std.specs.Prelude.{◌≡◌, ◌+◌, ◌<◌, ◌^◌, IfOk, OnErr};
ghost use Rattle.std.specs.Io.{ReadsAtMost};
ghost use Rattle.auth_io.specs.Causes.{HasCause};

use crate::adapters::counts::{Counts, read_some, write_some};
use crate::stream::{Failed, Link, Sink, Source, Wrote};
use std::io::{Read, Write};

/// A connection over a reader and a writer. It is a source and a sink too.
/// A read that would pass 2^63 bytes in all, and a write that takes nothing of some bytes, count as faults.
#[derive(Drop)]
pub struct StdLink<R, W> {
    reader: R,
    writer: W,
    counts: Counts,
}

impl<R: Read, W: Write> StdLink<R, W> {
    /// It gives what `reader` gives, and what it takes goes to `writer`.
    pub fn new(reader: R, writer: W) -> StdLink<R, W>
        ensures given { ⟦<StdLink<R, W> as Link>⟧.given result ≡ 0 }
        ensures read_faults { ⟦<StdLink<R, W> as Link>⟧.read_faults result ≡ 0 }
        ensures write_faults { ⟦<StdLink<R, W> as Link>⟧.write_faults result ≡ 0 }
    {
        StdLink {
            reader,
            writer,
            counts: Counts::new(),
        }
    }

    /// Reads, and counts what came or the fault.
    fn take(&mut self, into: &mut [u8]) -> Result<usize, Failed>
        ensures bound { ReadsAtMost result into.new }
        ensures given { IfOk result (λ count. (self.new.counts.given ≡ self.old.counts.given + count) × (self.new.counts.given < 2 ^ 63)) }
        ensures given_at_fault { OnErr result (self.new.counts.given ≡ self.old.counts.given) }
        ensures cause { HasCause self.old.counts.read_faults self.new.counts.read_faults result }
        ensures write_faults { self.new.counts.write_faults ≡ self.old.counts.write_faults }
    {
        let count = read_some(&mut self.reader, into);
        self.counts.read(count)
    }
}

impl<R: Read, W: Write> Link for StdLink<R, W> {
    ghost use Rattle.std.specs.Prelude.{None};

    ghost left = { λ _. None };

    ghost written = { λ _. None };

    ghost given = { λ s. s.counts.given };

    ghost reads = { λ _. None };

    ghost read_faults = { λ s. s.counts.read_faults };

    ghost write_faults = { λ s. s.counts.write_faults };

    fn read(&mut self, into: &mut [u8]) -> Result<usize, Failed> {
        self.take(into)
    }

    fn write(&mut self, from: &[u8]) -> Wrote {
        self.counts.wrote(write_some(&mut self.writer, from))
    }
}

impl<R: Read, W: Write> Source for StdLink<R, W> {
    ghost use Rattle.std.specs.Prelude.{None};

    ghost left = { λ _. None };

    ghost given = { λ s. s.counts.given };

    ghost faults = { λ s. s.counts.read_faults };

    fn read(&mut self, into: &mut [u8]) -> Result<usize, Failed> {
        self.take(into)
    }
}

impl<R: Read, W: Write> Sink for StdLink<R, W> {
    ghost use Rattle.std.specs.Prelude.{None};

    ghost written = { λ _. None };

    ghost faults = { λ s. s.counts.write_faults };

    fn write(&mut self, from: &[u8]) -> Wrote {
        self.counts.wrote(write_some(&mut self.writer, from))
    }
}
