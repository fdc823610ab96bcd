//! Streams in memory.
ghost use Rattle.std.specs.Prelude.{◌≡◌, [], Some};

use crate::memory::schedule::Schedule;
use crate::memory::supply::Supply;
use crate::stream::{Failed, Sink, Source, Wrote};
use auth_grammar::Octets;
use std::alloc::Global;

/// A stream that gives these bytes.
#[derive(Drop)]
pub struct MemSource {
    supply: Supply,
    schedule: Schedule,
    faults: u64,
}

impl MemSource {
    ghost use Rattle.auth_io.specs.Memory.{source_plan};

    /// It gives `left`. `pieces` has the most bytes that each read gives, where a 0 counts as 1; past its end there is no
    /// limit. `failing` has the numbers of the reads that are to fail, counted from 1.
    pub fn new(left: Octets, pieces: Vec<u32>, failing: Vec<u32>) -> MemSource
        ensures left { ⟦<MemSource as Source>⟧.left result ≡ Some left }
        ensures given { ⟦<MemSource as Source>⟧.given result ≡ 0 }
        ensures faults { ⟦<MemSource as Source>⟧.faults result ≡ 0 }
        ensures plan { source_plan result ≡ record { sizes = pieces.items; failing = failing.items; calls = 0 } }
    {
        MemSource {
            supply: Supply::new(left),
            schedule: Schedule::new(pieces, failing),
            faults: 0,
        }
    }
}

impl Source for MemSource {
    ghost use Rattle.std.specs.Prelude.{◌+◌, ◌-◌, ◌<◌, ◌^◌, drop, length, Some, IfOk, OnErr};
    ghost use Rattle.std.specs.Io.{ReadsAtMost};
    ghost use Rattle.std.specs.Io.KnownBytes.{ReadConsumes};
    ghost use Rattle.auth_io.specs.Causes.{HasCause};
    ghost use Rattle.auth_io.specs.Memory.{source_plan, source_left};
    ghost use Rattle.auth_io.specs.Plans.{ReadsBy, after_call, next_fails, next_size};

    ghost left = { λ s. Some (drop s.supply.at s.supply.bytes) };

    ghost given = { λ s. s.supply.at };

    ghost faults = { λ s. s.faults };

    fn read(&mut self, into: &mut [u8]) -> Result<usize, Failed>
        ensures bound { ReadsAtMost result into.new }
        ensures bytes { ReadConsumes (⟦<MemSource as Source>⟧.left self.old) (⟦<MemSource as Source>⟧.left self.new) result into.new }
        ensures given { IfOk result (λ n. (⟦<MemSource as Source>⟧.given self.new ≡ ⟦<MemSource as Source>⟧.given self.old + n)
            × (⟦<MemSource as Source>⟧.given self.new < 2 ^ 63)) }
        ensures left_at_fault { OnErr result (⟦<MemSource as Source>⟧.left self.new ≡ ⟦<MemSource as Source>⟧.left self.old) }
        ensures given_at_fault { OnErr result (⟦<MemSource as Source>⟧.given self.new ≡ ⟦<MemSource as Source>⟧.given self.old) }
        ensures cause { HasCause (⟦<MemSource as Source>⟧.faults self.old) (⟦<MemSource as Source>⟧.faults self.new) result }
        ensures planned { ReadsBy (next_fails (source_plan self.old)) (next_size (source_plan self.old))
            (length (source_left self.old)) (length into.old) result }
        ensures plan { source_plan self.new ≡ after_call (source_plan self.old) }
    {
        let Some(limit) = self.schedule.next() else {
            self.faults = self.faults.saturating_add(1);
            return Err(Failed);
        };
        let count = self.supply.give(limit, into);
        let _given = self.supply.given();
        Ok(count)
    }
}

/// A stream that keeps what it takes.
#[derive(Drop)]
pub struct MemSink {
    written: Octets,
    schedule: Schedule,
    faults: u64,
}

impl MemSink {
    ghost use Rattle.auth_io.specs.Memory.{sink_plan};

    /// `takes` has the most bytes that each write takes, where a 0 counts as 1; past its end there is no limit. `failing`
    /// has the numbers of the writes that are to fail, counted from 1.
    pub fn new(alloc: Global, takes: Vec<u32>, failing: Vec<u32>) -> MemSink
        ensures written { ⟦<MemSink as Sink>⟧.written result ≡ Some [] }
        ensures faults { ⟦<MemSink as Sink>⟧.faults result ≡ 0 }
        ensures plan { sink_plan result ≡ record { sizes = takes.items; failing = failing.items; calls = 0 } }
    {
        MemSink {
            written: Octets::new(alloc),
            schedule: Schedule::new(takes, failing),
            faults: 0,
        }
    }

    /// What it has taken.
    pub fn written(&self) -> &[u8]
        ensures { ⟦<MemSink as Sink>⟧.written self.now ≡ Some result.now }
    {
        self.written.bytes()
    }
}

impl Sink for MemSink {
    ghost use Rattle.std.specs.Prelude.{Some, length};
    ghost use Rattle.auth_io.specs.Memory.{sink_plan};
    ghost use Rattle.auth_io.specs.Plans.{WritesBy, after_call, next_fails, next_size};
    ghost use Rattle.auth_io.specs.Writes.{TakesSome, Writes, HasWriteCause};

    ghost written = { λ s. Some s.written };

    ghost faults = { λ s. s.faults };

    fn write(&mut self, from: &[u8]) -> Wrote
        ensures some { TakesSome result from.now }
        ensures bytes { Writes (⟦<MemSink as Sink>⟧.written self.old) (⟦<MemSink as Sink>⟧.written self.new) result from.now }
        ensures cause { HasWriteCause (⟦<MemSink as Sink>⟧.faults self.old) (⟦<MemSink as Sink>⟧.faults self.new) result }
        ensures planned { WritesBy (next_fails (sink_plan self.old)) (next_size (sink_plan self.old)) (length from.now) result }
        ensures plan { sink_plan self.new ≡ after_call (sink_plan self.old) }
    {
        let Some(limit) = self.schedule.next() else {
            self.faults = self.faults.saturating_add(1);
            return Wrote::Failed;
        };
        keep_front(&mut self.written, limit, from)
    }
}

ghost use Rattle.std.specs.Prelude.{◌<◌, false, length};
ghost use Rattle.auth_io.specs.Plans.{WritesBy};
ghost use Rattle.auth_io.specs.Writes.{TakesSome, Writes};

/// Keeps as much of the bytes as is allowed.
pub(crate) fn keep_front(kept: &mut Octets, limit: usize, from: &[u8]) -> Wrote
    requires { 0 < limit }
    ensures some { TakesSome result from.now }
    ensures bytes { Writes (Some kept.old) (Some kept.new) result from.now }
    ensures planned { WritesBy false limit (length from.now) result }
{
    let count = limit.min(from.len());
    match kept.extend(&from[..count]) {
        Ok(()) => Wrote::Taken(count),
        Err(_) => Wrote::OutOfMemory,
    }
}
