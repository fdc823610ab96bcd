//! Files in memory.
ghost use Rattle.std.specs.Prelude.{◌≡◌, ◌∷◌, [], ℕ, List, Some, None, option_copied, IfOk};
ghost use Rattle.auth_io.specs.Files.{contents_of, found_in, ReadAnswers, HasAtMost, IsNoReadFault};

use crate::files::{Ending, FileAnswer, Files, Replaced};
use crate::memory::schedule::is_listed;
use auth_grammar::{Octets, OutOfMemory};
use std::alloc::Global;

/// Files by their names. Reads and replaces are counted together, from 1: those that `failing` lists fail
/// and change nothing, a replace that `failing_done` lists fails with the contents as if it had gone well.
#[derive(Drop)]
pub struct MemFiles {
    contents: Vec<(Octets, Octets)>,
    asked: Vec<(Octets, Ending)>,
    failing: Vec<u32>,
    failing_done: Vec<u32>,
    calls: u64,
    faults: u64,
    alloc: Global,
}

impl MemFiles {
    ghost use Rattle.auth_io.specs.Memory.{failing_plan, files_plan, files_done_plan};

    /// Of two entries with one name the first counts.
    pub fn new(
        alloc: Global,
        contents: Vec<(Octets, Octets)>,
        failing: Vec<u32>,
        failing_done: Vec<u32>,
    ) -> MemFiles
        ensures contents { ⟦<MemFiles as Files>⟧.contents result ≡ Some (contents_of contents.items) }
        ensures asked { ⟦<MemFiles as Files>⟧.asked result ≡ Some [] }
        ensures faults { ⟦<MemFiles as Files>⟧.faults result ≡ 0 }
        ensures plan { files_plan result ≡ failing_plan failing.items 0 }
        ensures done_plan { files_done_plan result ≡ failing_plan failing_done.items 0 }
    {
        MemFiles {
            contents,
            asked: Vec::new(alloc),
            failing,
            failing_done,
            calls: 0,
            faults: 0,
            alloc,
        }
    }

    /// What the file holds, or None where it isn't there.
    pub fn get(&self, name: &[u8]) -> Option<&Octets>
        ensures { option_copied result ≡ found_in (⟦<MemFiles as Files>⟧.contents self.now) name.now }
    {
        find(self.contents.as_slice(), name)
    }

    /// Each call, by the name and how it ended.
    pub fn asked(&self) -> &[(Octets, Ending)]
        ensures { ⟦<MemFiles as Files>⟧.asked self.now ≡ Some result.now }
    {
        self.asked.as_slice()
    }
}

/// The value of the first entry with this name.
fn find<'a>(contents: &'a [(Octets, Octets)], name: &[u8]) -> Option<&'a Octets>
    ensures { option_copied result ≡ found_in (Some (contents_of contents.now)) name.now }
{
    for (key, value) in contents {
        if name.cmp(key.bytes()).is_eq() {
            return Some(value);
        }
    }
    None
}

/// What reading a file of these answers, where the call doesn't fail.
fn look(alloc: Global, contents: &[(Octets, Octets)], name: &[u8], limit: u64) -> FileAnswer
    ensures answer { ReadAnswers (Some (contents_of contents.now)) name.now limit result }
    ensures within { HasAtMost limit result }
    ensures no_fault { IsNoReadFault result }
{
    let Some(bytes) = find(contents, name) else {
        return FileAnswer::Absent;
    };
    if bytes.len() as u64 > limit {
        return FileAnswer::TooLarge;
    }
    match bytes.copy() {
        Ok(bytes) => FileAnswer::Found(bytes),
        Err(_) => FileAnswer::OutOfMemory,
    }
}

impl Files for MemFiles {
    ghost use Rattle.std.specs.Prelude.{◌≤◌, Some};
    ghost use Rattle.auth_io.specs.Files.{contents_of, AddsAsked, read_entry, ReadRose, ReplaceRose, ReplaceSays};
    ghost use Rattle.auth_io.specs.Memory.{files_plan, files_done_plan};
    ghost use Rattle.auth_io.specs.Plans.{FoundBy, ReplacedBy, after_call, next_fails, planned_ending};

    ghost contents = { λ s. Some (contents_of s.contents.items) };

    ghost asked = { λ s. Some s.asked.items };

    ghost faults = { λ s. s.faults };

    fn read(&mut self, name: &[u8], limit: u64) -> FileAnswer
        ensures answer { ReadAnswers (⟦<MemFiles as Files>⟧.contents self.old) name.now limit result }
        ensures within { HasAtMost limit result }
        ensures contents { ⟦<MemFiles as Files>⟧.contents self.new ≡ ⟦<MemFiles as Files>⟧.contents self.old }
        ensures asked { AddsAsked (⟦<MemFiles as Files>⟧.asked self.old) (⟦<MemFiles as Files>⟧.asked self.new)
            (read_entry name.now result) }
        ensures later { ⟦<MemFiles as Files>⟧.faults self.old ≤ ⟦<MemFiles as Files>⟧.faults self.new }
        ensures cause { ReadRose result (⟦<MemFiles as Files>⟧.faults self.old) (⟦<MemFiles as Files>⟧.faults self.new) }
        ensures planned { FoundBy (next_fails (files_plan self.old)) result }
        ensures plan { files_plan self.new ≡ after_call (files_plan self.old) }
        ensures done_plan { files_done_plan self.new ≡ after_call (files_done_plan self.old) }
    {
        self.calls = self.calls.saturating_add(1);
        let Ok(key) = Octets::of(self.alloc, name) else {
            return FileAnswer::OutOfMemory;
        };
        let Ok(()) = self.asked.reserve(1) else {
            return FileAnswer::OutOfMemory;
        };
        if is_listed(self.failing.as_slice(), self.calls) {
            self.faults = self.faults.saturating_add(1);
            self.asked.push_reserved((key, Ending::FailedBefore));
            return FileAnswer::Failed;
        }
        let answer = look(self.alloc, self.contents.as_slice(), name, limit);
        if let FileAnswer::OutOfMemory = answer {
            return FileAnswer::OutOfMemory;
        }
        self.asked.push_reserved((key, Ending::Well));
        answer
    }

    fn replace(&mut self, name: &[u8], bytes: &[u8]) -> Replaced
        ensures says { ReplaceSays (⟦<MemFiles as Files>⟧.contents self.old) (⟦<MemFiles as Files>⟧.contents self.new)
            (⟦<MemFiles as Files>⟧.asked self.old) (⟦<MemFiles as Files>⟧.asked self.new) name.now bytes.now result }
        ensures later { ⟦<MemFiles as Files>⟧.faults self.old ≤ ⟦<MemFiles as Files>⟧.faults self.new }
        ensures cause { ReplaceRose result (⟦<MemFiles as Files>⟧.faults self.old) (⟦<MemFiles as Files>⟧.faults self.new) }
        ensures planned { ReplacedBy (planned_ending (next_fails (files_plan self.old)) (next_fails (files_done_plan self.old)))
            self.old.asked.items self.new.asked.items name.now result }
        ensures plan { files_plan self.new ≡ after_call (files_plan self.old) }
        ensures done_plan { files_done_plan self.new ≡ after_call (files_done_plan self.old) }
    {
        self.calls = self.calls.saturating_add(1);
        let Ok(key) = Octets::of(self.alloc, name) else {
            return Replaced::OutOfMemory;
        };
        let Ok(()) = self.asked.reserve(1) else {
            return Replaced::OutOfMemory;
        };
        if is_listed(self.failing.as_slice(), self.calls) {
            self.faults = self.faults.saturating_add(1);
            self.asked.push_reserved((key, Ending::FailedBefore));
            return Replaced::Failed;
        }
        let Ok(entry) = entry_of(self.alloc, name, bytes) else {
            return Replaced::OutOfMemory;
        };
        let Ok(()) = self.contents.insert(0, entry) else {
            return Replaced::OutOfMemory;
        };
        if is_listed(self.failing_done.as_slice(), self.calls) {
            self.faults = self.faults.saturating_add(1);
            self.asked.push_reserved((key, Ending::FailedDone));
            return Replaced::Failed;
        }
        self.asked.push_reserved((key, Ending::Well));
        Replaced::Done
    }
}

/// An entry of its own.
fn entry_of(alloc: Global, name: &[u8], bytes: &[u8]) -> Result<(Octets, Octets), OutOfMemory>
    ensures { IfOk result (λ entry. entry ≡ (name.now, bytes.now)) }
{
    let name = Octets::of(alloc, name)?;
    let bytes = Octets::of(alloc, bytes)?;
    Ok((name, bytes))
}
