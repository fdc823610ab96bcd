//! Connections in memory.
ghost use Rattle.std.specs.Prelude.{◌≡◌, ◌≤◌, [], Some, IfOk, vec_len, vec_capacity};

use crate::memory::schedule::Schedule;
use crate::memory::streams::keep_front;
use crate::memory::supply::Supply;
use crate::stream::{Failed, Link, Wrote};
use auth_grammar::{Octets, OutOfMemory};
use std::alloc::Global;

/// A connection that gives these bytes, keeps what it takes, and notes its reads.
#[derive(Drop)]
pub struct MemLink {
    supply: Supply,
    written: Octets,
    noted: Vec<(u64, u64)>,
    room: u32,
    reading: Schedule,
    writing: Schedule,
    read_faults: u64,
    write_faults: u64,
    ghost reserved: { room ≤ vec_capacity noted },
}

impl MemLink {
    ghost use Rattle.auth_io.specs.Handing.{has_fault};
    ghost use Rattle.auth_io.specs.Memory.{IsUnused, read_plan, read_room, write_plan};

    /// It gives `left`. `pieces` and `takes` have the most bytes that each read gives and that each write takes, where a 0
    /// counts as 1; past the end of a list there is no limit. `failing_reads` and `failing_writes` have the numbers of the
    /// calls that are to fail, counted from 1. `room` is the number of reads that may answer; a read past it fails.
    pub fn new(
        alloc: Global,
        left: Octets,
        pieces: Vec<u32>,
        takes: Vec<u32>,
        failing_reads: Vec<u32>,
        failing_writes: Vec<u32>,
        room: u32,
    ) -> Result<MemLink, OutOfMemory>
        ensures left { IfOk result (λ link. ⟦<MemLink as Link>⟧.left link ≡ Some left) }
        ensures written { IfOk result (λ link. ⟦<MemLink as Link>⟧.written link ≡ Some []) }
        ensures given { IfOk result (λ link. ⟦<MemLink as Link>⟧.given link ≡ 0) }
        ensures reads { IfOk result (λ link. ⟦<MemLink as Link>⟧.reads link ≡ Some []) }
        ensures read_faults { IfOk result (λ link. ⟦<MemLink as Link>⟧.read_faults link ≡ 0) }
        ensures write_faults { IfOk result (λ link. ⟦<MemLink as Link>⟧.write_faults link ≡ 0) }
        ensures unused { IfOk result IsUnused }
        ensures read_plan { IfOk result (λ link.
            read_plan link ≡ record { sizes = pieces.items; failing = failing_reads.items; calls = 0 }) }
        ensures write_plan { IfOk result (λ link.
            write_plan link ≡ record { sizes = takes.items; failing = failing_writes.items; calls = 0 }) }
        ensures room { IfOk result (λ link. read_room link ≡ room) }
    {
        Ok(MemLink {
            supply: Supply::new(left),
            written: Octets::new(alloc),
            noted: Vec::with_capacity(alloc, room as usize)?,
            room,
            reading: Schedule::new(pieces, failing_reads),
            writing: Schedule::new(takes, failing_writes),
            read_faults: 0,
            write_faults: 0,
        })
    }

    /// What it has taken.
    pub fn written(&self) -> &[u8]
        ensures { ⟦<MemLink as Link>⟧.written self.now ≡ Some result.now }
    {
        self.written.bytes()
    }

    /// Each read that answered, by the numbers of bytes read and written before it.
    pub fn reads(&self) -> &[(u64, u64)]
        ensures { ⟦<MemLink as Link>⟧.reads self.now ≡ Some result.now }
    {
        self.noted.as_slice()
    }

    /// Whether a read or a write of it has failed.
    pub fn has_failed(&self) -> bool
        ensures { result ≡ has_fault (⟦<MemLink as Link>⟧.read_faults self.now) (⟦<MemLink as Link>⟧.write_faults self.now) }
    {
        self.read_faults > 0 || self.write_faults > 0
    }
}

impl Link for MemLink {
    ghost use Rattle.std.specs.Prelude.{◌+◌, ◌<◌, ◌^◌, drop, length, OnOk, OnErr};
    ghost use Rattle.std.specs.Io.{ReadsAtMost};
    ghost use Rattle.std.specs.Io.KnownBytes.{ReadConsumes};
    ghost use Rattle.auth_io.specs.Causes.{HasCause};
    ghost use Rattle.auth_io.specs.Reads.{NotesRead};
    ghost use Rattle.auth_io.specs.Writes.{TakesSome, Writes, HasWriteCause};
    ghost use Rattle.auth_io.specs.Memory.{bytes_of, next_read_fails, read_plan, read_room, write_plan};
    ghost use Rattle.auth_io.specs.Plans.{ReadsBy, WritesBy, after_call, next_fails, next_size};

    ghost left = { λ s. Some (drop s.supply.at s.supply.bytes) };

    ghost written = { λ s. Some s.written };

    ghost given = { λ s. s.supply.at };

    ghost reads = { λ s. Some s.noted.items };

    ghost read_faults = { λ s. s.read_faults };

    ghost write_faults = { λ s. s.write_faults };

    fn read(&mut self, into: &mut [u8]) -> Result<usize, Failed>
        ensures bound { ReadsAtMost result into.new }
        ensures bytes { ReadConsumes (⟦<MemLink as Link>⟧.left self.old) (⟦<MemLink as Link>⟧.left self.new) result into.new }
        ensures given { IfOk result (λ n. (⟦<MemLink as Link>⟧.given self.new ≡ ⟦<MemLink as Link>⟧.given self.old + n)
            × (⟦<MemLink as Link>⟧.given self.new < 2 ^ 63)) }
        ensures left_at_fault { OnErr result (⟦<MemLink as Link>⟧.left self.new ≡ ⟦<MemLink as Link>⟧.left self.old) }
        ensures given_at_fault { OnErr result (⟦<MemLink as Link>⟧.given self.new ≡ ⟦<MemLink as Link>⟧.given self.old) }
        ensures reads { OnOk result (NotesRead (⟦<MemLink as Link>⟧.reads self.old) (⟦<MemLink as Link>⟧.reads self.new)
            (⟦<MemLink as Link>⟧.given self.old) (⟦<MemLink as Link>⟧.written self.old)) }
        ensures reads_at_fault { OnErr result (⟦<MemLink as Link>⟧.reads self.new ≡ ⟦<MemLink as Link>⟧.reads self.old) }
        ensures written { ⟦<MemLink as Link>⟧.written self.new ≡ ⟦<MemLink as Link>⟧.written self.old }
        ensures cause { HasCause (⟦<MemLink as Link>⟧.read_faults self.old) (⟦<MemLink as Link>⟧.read_faults self.new) result }
        ensures write_faults { ⟦<MemLink as Link>⟧.write_faults self.new ≡ ⟦<MemLink as Link>⟧.write_faults self.old }
        ensures planned { ReadsBy (next_read_fails self.old) (next_size (read_plan self.old))
            (length (bytes_of self.old)) (length into.old) result }
        ensures read_plan { read_plan self.new ≡ after_call (read_plan self.old) }
        ensures write_plan { write_plan self.new ≡ write_plan self.old }
        ensures room { read_room self.new ≡ read_room self.old }
    {
        let limit = match self.reading.next() {
            Some(limit) if self.noted.len() < self.room as usize => limit,
            _ => {
                self.read_faults = self.read_faults.saturating_add(1);
                return Err(Failed);
            }
        };
        let before = (self.supply.given() as u64, self.written.len() as u64);
        self.noted.push_reserved(before);
        let count = self.supply.give(limit, into);
        let _given = self.supply.given();
        Ok(count)
    }

    fn write(&mut self, from: &[u8]) -> Wrote
        ensures some { TakesSome result from.now }
        ensures bytes { Writes (⟦<MemLink as Link>⟧.written self.old) (⟦<MemLink as Link>⟧.written self.new) result from.now }
        ensures left { ⟦<MemLink as Link>⟧.left self.new ≡ ⟦<MemLink as Link>⟧.left self.old }
        ensures given { ⟦<MemLink as Link>⟧.given self.new ≡ ⟦<MemLink as Link>⟧.given self.old }
        ensures reads { ⟦<MemLink as Link>⟧.reads self.new ≡ ⟦<MemLink as Link>⟧.reads self.old }
        ensures cause { HasWriteCause (⟦<MemLink as Link>⟧.write_faults self.old) (⟦<MemLink as Link>⟧.write_faults self.new) result }
        ensures read_faults { ⟦<MemLink as Link>⟧.read_faults self.new ≡ ⟦<MemLink as Link>⟧.read_faults self.old }
        ensures planned { WritesBy (next_fails (write_plan self.old)) (next_size (write_plan self.old)) (length from.now) result }
        ensures write_plan { write_plan self.new ≡ after_call (write_plan self.old) }
        ensures read_plan { read_plan self.new ≡ read_plan self.old }
        ensures room { read_room self.new ≡ read_room self.old }
    {
        let Some(limit) = self.writing.next() else {
            self.write_faults = self.write_faults.saturating_add(1);
            return Wrote::Failed;
        };
        keep_front(&mut self.written, limit, from)
    }
}

/// A connection that never fails. It doesn't tell its reads.
#[derive(Drop)]
pub struct SureLink {
    supply: Supply,
    written: Octets,
    reading: Schedule,
    writing: Schedule,
}

impl SureLink {
    ghost use Rattle.auth_io.specs.Memory.{sure_read_plan, sure_write_plan};

    /// It gives `left`. `pieces` and `takes` have the most bytes that each read gives and that each write takes, where a 0
    /// counts as 1; past the end of a list there is no limit.
    pub fn new(alloc: Global, left: Octets, pieces: Vec<u32>, takes: Vec<u32>) -> SureLink
        ensures left { ⟦<SureLink as Link>⟧.left result ≡ Some left }
        ensures written { ⟦<SureLink as Link>⟧.written result ≡ Some [] }
        ensures given { ⟦<SureLink as Link>⟧.given result ≡ 0 }
        ensures read_plan { sure_read_plan result ≡ record { sizes = pieces.items; failing = []; calls = 0 } }
        ensures write_plan { sure_write_plan result ≡ record { sizes = takes.items; failing = []; calls = 0 } }
    {
        SureLink {
            supply: Supply::new(left),
            written: Octets::new(alloc),
            reading: Schedule::new(pieces, Vec::new(alloc)),
            writing: Schedule::new(takes, Vec::new(alloc)),
        }
    }

    /// What it has taken.
    pub fn written(&self) -> &[u8]
        ensures { ⟦<SureLink as Link>⟧.written self.now ≡ Some result.now }
    {
        self.written.bytes()
    }
}

impl Link for SureLink {
    ghost use Rattle.std.specs.Prelude.{◌+◌, ◌<◌, ◌^◌, drop, length, false, None, OnOk, OnErr};
    ghost use Rattle.std.specs.Io.{ReadsAtMost};
    ghost use Rattle.std.specs.Io.KnownBytes.{ReadConsumes};
    ghost use Rattle.auth_io.specs.Causes.{HasCause};
    ghost use Rattle.auth_io.specs.Reads.{NotesRead};
    ghost use Rattle.auth_io.specs.Writes.{TakesSome, Writes, HasWriteCause};
    ghost use Rattle.auth_io.specs.Memory.{sure_left, sure_read_plan, sure_write_plan};
    ghost use Rattle.auth_io.specs.Plans.{ReadsBy, WritesBy, after_call, next_size};

    ghost left = { λ s. Some (drop s.supply.at s.supply.bytes) };

    ghost written = { λ s. Some s.written };

    ghost given = { λ s. s.supply.at };

    ghost reads = { λ _. None };

    ghost read_faults = { λ _. 0 };

    ghost write_faults = { λ _. 0 };

    fn read(&mut self, into: &mut [u8]) -> Result<usize, Failed>
        ensures bound { ReadsAtMost result into.new }
        ensures bytes { ReadConsumes (⟦<SureLink as Link>⟧.left self.old) (⟦<SureLink as Link>⟧.left self.new) result into.new }
        ensures given { IfOk result (λ n. (⟦<SureLink as Link>⟧.given self.new ≡ ⟦<SureLink as Link>⟧.given self.old + n)
            × (⟦<SureLink as Link>⟧.given self.new < 2 ^ 63)) }
        ensures left_at_fault { OnErr result (⟦<SureLink as Link>⟧.left self.new ≡ ⟦<SureLink as Link>⟧.left self.old) }
        ensures given_at_fault { OnErr result (⟦<SureLink as Link>⟧.given self.new ≡ ⟦<SureLink as Link>⟧.given self.old) }
        ensures reads { OnOk result (NotesRead (⟦<SureLink as Link>⟧.reads self.old) (⟦<SureLink as Link>⟧.reads self.new)
            (⟦<SureLink as Link>⟧.given self.old) (⟦<SureLink as Link>⟧.written self.old)) }
        ensures reads_at_fault { OnErr result (⟦<SureLink as Link>⟧.reads self.new ≡ ⟦<SureLink as Link>⟧.reads self.old) }
        ensures written { ⟦<SureLink as Link>⟧.written self.new ≡ ⟦<SureLink as Link>⟧.written self.old }
        ensures cause { HasCause (⟦<SureLink as Link>⟧.read_faults self.old) (⟦<SureLink as Link>⟧.read_faults self.new) result }
        ensures write_faults { ⟦<SureLink as Link>⟧.write_faults self.new ≡ ⟦<SureLink as Link>⟧.write_faults self.old }
        ensures planned { ReadsBy false (next_size (sure_read_plan self.old)) (length (sure_left self.old)) (length into.old) result }
        ensures read_plan { sure_read_plan self.new ≡ after_call (sure_read_plan self.old) }
        ensures write_plan { sure_write_plan self.new ≡ sure_write_plan self.old }
    {
        let limit = self.reading.next_size();
        let count = self.supply.give(limit, into);
        let _given = self.supply.given();
        Ok(count)
    }

    fn write(&mut self, from: &[u8]) -> Wrote
        ensures some { TakesSome result from.now }
        ensures bytes { Writes (⟦<SureLink as Link>⟧.written self.old) (⟦<SureLink as Link>⟧.written self.new) result from.now }
        ensures left { ⟦<SureLink as Link>⟧.left self.new ≡ ⟦<SureLink as Link>⟧.left self.old }
        ensures given { ⟦<SureLink as Link>⟧.given self.new ≡ ⟦<SureLink as Link>⟧.given self.old }
        ensures reads { ⟦<SureLink as Link>⟧.reads self.new ≡ ⟦<SureLink as Link>⟧.reads self.old }
        ensures cause { HasWriteCause (⟦<SureLink as Link>⟧.write_faults self.old) (⟦<SureLink as Link>⟧.write_faults self.new) result }
        ensures read_faults { ⟦<SureLink as Link>⟧.read_faults self.new ≡ ⟦<SureLink as Link>⟧.read_faults self.old }
        ensures planned { WritesBy false (next_size (sure_write_plan self.old)) (length from.now) result }
        ensures write_plan { sure_write_plan self.new ≡ after_call (sure_write_plan self.old) }
        ensures read_plan { sure_read_plan self.new ≡ sure_read_plan self.old }
    {
        let limit = self.writing.next_size();
        keep_front(&mut self.written, limit, from)
    }
}
