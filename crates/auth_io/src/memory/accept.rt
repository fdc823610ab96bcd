//! Connections that are handed out, in memory.
ghost use Rattle.std.specs.Prelude.{◌≡◌, ◌+◌, ◌≤◌, [], Some, IfOk, All, map, vec_len, vec_capacity};
ghost use Rattle.std.specs.VecDeque.{deque_len};
ghost use Rattle.auth_io.specs.Memory.{IsUnused, bytes_of, entry_of};

use crate::accept::Accept;
use crate::memory::link::MemLink;
use crate::memory::schedule::is_listed;
use crate::stream::{Failed, Link};
use auth_grammar::OutOfMemory;
use std::alloc::Global;
use std::collections::VecDeque;

/// Hands out these connections, the first one first, and keeps each that came back.
#[derive(Drop)]
pub struct MemAccept {
    coming: VecDeque<MemLink>,
    links: usize,
    ended: Vec<MemLink>,
    failing: Vec<u32>,
    calls: u64,
    faults: u64,
    ghost unused: { All IsUnused coming.items },
    ghost room: { links + deque_len coming ≤ vec_capacity ended },
    ghost back: { vec_len ended ≤ links },
}

impl MemAccept {
    ghost use Rattle.auth_io.specs.Accepting.{accept_plan};
    ghost use Rattle.auth_io.specs.Memory.{failing_plan};

    /// `failing` has the numbers of the calls of `accept` that are to fail, counted from 1. With no connection left
    /// a call fails too.
    pub fn new(
        alloc: Global,
        links: Vec<MemLink>,
        failing: Vec<u32>,
    ) -> Result<MemAccept, OutOfMemory>
        requires { All IsUnused links.items }
        ensures coming { IfOk result (λ accept. ⟦<MemAccept as Accept>⟧.coming accept ≡ Some (map bytes_of links.items)) }
        ensures handed { IfOk result (λ accept. ⟦<MemAccept as Accept>⟧.handed accept ≡ Some (record { links = 0; ended = [] })) }
        ensures faults { IfOk result (λ accept. ⟦<MemAccept as Accept>⟧.faults accept ≡ 0) }
        ensures link_faults { IfOk result (λ accept. ⟦<MemAccept as Accept>⟧.link_faults accept ≡ 0) }
        ensures plan { IfOk result (λ accept. accept_plan accept ≡ failing_plan failing.items 0) }
    {
        let ended = Vec::with_capacity(alloc, links.len())?;
        Ok(MemAccept {
            coming: VecDeque::from(links),
            links: 0,
            ended,
            failing,
            calls: 0,
            faults: 0,
        })
    }

    /// The connections that came back, the first one first.
    pub fn ended(&self) -> &[MemLink]
        ensures { ⟦<MemAccept as Accept>⟧.handed self.now ≡ Some (record { links = self.now.links; ended = map entry_of result.now }) }
    {
        self.ended.as_slice()
    }
}

impl Accept for MemAccept {
    ghost use Rattle.std.specs.Prelude.{true, false, MatchResult, OnOk, OnErr};
    ghost use Rattle.auth_io.specs.Accepting.{accept_plan, next_accept_fails};
    ghost use Rattle.auth_io.specs.Causes.{HasCause};
    ghost use Rattle.auth_io.specs.Handing.{HandsFirst, HandsOut, IsOut, StartsEmpty, StartsUnread, TakesBack, RoseIfFailed};
    ghost use Rattle.auth_io.specs.Handing.{count_failed, has_fault};
    ghost use Rattle.auth_io.specs.Plans.{after_call};

    type In = MemLink;

    ghost coming = { λ s. Some (map bytes_of s.coming.items) };

    ghost handed = { λ s. Some (record { links = s.links; ended = map entry_of s.ended.items }) };

    ghost faults = { λ s. s.faults };

    ghost link_faults = { λ s. count_failed (map entry_of s.ended.items) };

    fn accept(&mut self) -> Result<MemLink, Failed>
        ensures bytes { IfOk result (λ link. HandsFirst (⟦<MemAccept as Accept>⟧.coming self.old) (⟦<MemAccept as Accept>⟧.coming self.new)
            (⟦<MemLink as Link>⟧.left link)) }
        ensures empty { IfOk result (λ link. StartsEmpty (⟦<MemAccept as Accept>⟧.handed self.new) (⟦<MemLink as Link>⟧.written link)) }
        ensures unread { IfOk result (λ link. StartsUnread (⟦<MemLink as Link>⟧.reads link)) }
        ensures no_read_fault { IfOk result (λ link. ⟦<MemLink as Link>⟧.read_faults link ≡ 0) }
        ensures no_write_fault { IfOk result (λ link. ⟦<MemLink as Link>⟧.write_faults link ≡ 0) }
        ensures handed { OnOk result (HandsOut (⟦<MemAccept as Accept>⟧.handed self.old) (⟦<MemAccept as Accept>⟧.handed self.new)) }
        ensures out { OnOk result (IsOut (⟦<MemAccept as Accept>⟧.handed self.new)) }
        ensures coming_at_fault { OnErr result (⟦<MemAccept as Accept>⟧.coming self.new ≡ ⟦<MemAccept as Accept>⟧.coming self.old) }
        ensures handed_at_fault { OnErr result (⟦<MemAccept as Accept>⟧.handed self.new ≡ ⟦<MemAccept as Accept>⟧.handed self.old) }
        ensures cause { HasCause (⟦<MemAccept as Accept>⟧.faults self.old) (⟦<MemAccept as Accept>⟧.faults self.new) result }
        ensures link_faults { ⟦<MemAccept as Accept>⟧.link_faults self.new ≡ ⟦<MemAccept as Accept>⟧.link_faults self.old }
        ensures planned { MatchResult result (λ _. next_accept_fails self.old ≡ false) (λ _. next_accept_fails self.old ≡ true) }
        ensures plan { accept_plan self.new ≡ after_call (accept_plan self.old) }
    {
        self.calls = self.calls.saturating_add(1);
        if is_listed(self.failing.as_slice(), self.calls) {
            self.faults = self.faults.saturating_add(1);
            return Err(Failed);
        }
        match self.coming.pop_front() {
            Some(link) => {
                self.links += 1;
                Ok(link)
            }
            None => {
                self.faults = self.faults.saturating_add(1);
                Err(Failed)
            }
        }
    }

    fn done(&mut self, link: MemLink)
        requires { IsOut (⟦<MemAccept as Accept>⟧.handed self.old) }
        ensures handed { TakesBack (⟦<MemAccept as Accept>⟧.handed self.old) (⟦<MemAccept as Accept>⟧.handed self.new)
            (⟦<MemLink as Link>⟧.written link) (has_fault (⟦<MemLink as Link>⟧.read_faults link) (⟦<MemLink as Link>⟧.write_faults link)) }
        ensures coming { ⟦<MemAccept as Accept>⟧.coming self.new ≡ ⟦<MemAccept as Accept>⟧.coming self.old }
        ensures faults { ⟦<MemAccept as Accept>⟧.faults self.new ≡ ⟦<MemAccept as Accept>⟧.faults self.old }
        ensures link_faults { RoseIfFailed (has_fault (⟦<MemLink as Link>⟧.read_faults link) (⟦<MemLink as Link>⟧.write_faults link))
            (⟦<MemAccept as Accept>⟧.link_faults self.old) (⟦<MemAccept as Accept>⟧.link_faults self.new) }
        ensures plan { accept_plan self.new ≡ accept_plan self.old }
    {
        self.ended.push_reserved(link);
    }
}
