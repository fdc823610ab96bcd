//! Connections that are dialled, in memory.
ghost use Rattle.std.specs.Prelude.{◌≡◌, [], Some, IfOk, All, map};
ghost use Rattle.auth_io.specs.Memory.{IsUnused, bytes_of, entry_of, failing_plan};

use crate::accept::Accept;
use crate::dial::{Dial, DialFault};
use crate::memory::accept::MemAccept;
use crate::memory::link::MemLink;
use crate::stream::Link;
use auth_grammar::{Octets, OutOfMemory};
use std::alloc::Global;

/// Answers a dial to any authority by these connections, the first one first, and keeps each that came back.
#[derive(Drop)]
pub struct MemDial {
    alloc: Global,
    links: MemAccept,
    dialled: Vec<(Octets, bool)>,
}

impl MemDial {
    ghost use Rattle.auth_io.specs.Accepting.{dial_plan};

    /// `failing` has the numbers of the calls of `dial` that are to fail, counted from 1. With no connection left a call
    /// fails too.
    pub fn new(
        alloc: Global,
        links: Vec<MemLink>,
        failing: Vec<u32>,
    ) -> Result<MemDial, OutOfMemory>
        requires { All IsUnused links.items }
        ensures dialled { IfOk result (λ dial. ⟦<MemDial as Dial>⟧.dialled dial ≡ Some []) }
        ensures coming { IfOk result (λ dial. ⟦<MemDial as Dial>⟧.coming dial ≡ Some (map bytes_of links.items)) }
        ensures handed { IfOk result (λ dial. ⟦<MemDial as Dial>⟧.handed dial ≡ Some (record { links = 0; ended = [] })) }
        ensures faults { IfOk result (λ dial. ⟦<MemDial as Dial>⟧.faults dial ≡ 0) }
        ensures link_faults { IfOk result (λ dial. ⟦<MemDial as Dial>⟧.link_faults dial ≡ 0) }
        ensures plan { IfOk result (λ dial. dial_plan dial ≡ failing_plan failing.items 0) }
    {
        Ok(MemDial {
            alloc,
            links: MemAccept::new(alloc, links, failing)?,
            dialled: Vec::new(alloc),
        })
    }

    /// The authorities that were dialled, and of each whether the dial failed.
    pub fn dialled(&self) -> &[(Octets, bool)]
        ensures { ⟦<MemDial as Dial>⟧.dialled self.now ≡ Some result.now }
    {
        self.dialled.as_slice()
    }

    /// The connections that came back, the first one first.
    pub fn ended(&self) -> &[MemLink]
        ensures { ⟦<MemDial as Dial>⟧.handed self.now ≡ Some (record { links = self.now.links.links; ended = map entry_of result.now }) }
    {
        self.links.ended()
    }
}

impl Dial for MemDial {
    ghost use Rattle.std.specs.Prelude.{OnOk, OnErr};
    ghost use Rattle.auth_io.specs.Dialling.{DialsBy, HasDialCause, told_dials};
    ghost use Rattle.auth_io.specs.Handing.{HandsFirst, HandsOut, IsOut, StartsEmpty, StartsUnread, TakesBack, RoseIfFailed};
    ghost use Rattle.auth_io.specs.Handing.{has_fault};
    ghost use Rattle.auth_io.specs.Accepting.{dial_plan, next_dial_fails};
    ghost use Rattle.auth_io.specs.Plans.{after_call};
    ghost use Rattle.auth_io.specs.Told.{Adds};

    type Out = MemLink;

    ghost dialled = { λ s. Some s.dialled.items };

    ghost coming = { λ s. ⟦<MemAccept as Accept>⟧.coming s.links };

    ghost handed = { λ s. ⟦<MemAccept as Accept>⟧.handed s.links };

    ghost faults = { λ s. ⟦<MemAccept as Accept>⟧.faults s.links };

    ghost link_faults = { λ s. ⟦<MemAccept as Accept>⟧.link_faults s.links };

    fn dial(&mut self, authority: &[u8]) -> Result<MemLink, DialFault>
        ensures dialled { Adds (⟦<MemDial as Dial>⟧.dialled self.old) (⟦<MemDial as Dial>⟧.dialled self.new)
            (told_dials authority.now result) }
        ensures bytes { IfOk result (λ link. HandsFirst (⟦<MemDial as Dial>⟧.coming self.old) (⟦<MemDial as Dial>⟧.coming self.new)
            (⟦<MemLink as Link>⟧.left link)) }
        ensures empty { IfOk result (λ link. StartsEmpty (⟦<MemDial as Dial>⟧.handed self.new) (⟦<MemLink as Link>⟧.written link)) }
        ensures unread { IfOk result (λ link. StartsUnread (⟦<MemLink as Link>⟧.reads link)) }
        ensures no_read_fault { IfOk result (λ link. ⟦<MemLink as Link>⟧.read_faults link ≡ 0) }
        ensures no_write_fault { IfOk result (λ link. ⟦<MemLink as Link>⟧.write_faults link ≡ 0) }
        ensures handed { OnOk result (HandsOut (⟦<MemDial as Dial>⟧.handed self.old) (⟦<MemDial as Dial>⟧.handed self.new)) }
        ensures out { OnOk result (IsOut (⟦<MemDial as Dial>⟧.handed self.new)) }
        ensures coming_at_fault { OnErr result (⟦<MemDial as Dial>⟧.coming self.new ≡ ⟦<MemDial as Dial>⟧.coming self.old) }
        ensures handed_at_fault { OnErr result (⟦<MemDial as Dial>⟧.handed self.new ≡ ⟦<MemDial as Dial>⟧.handed self.old) }
        ensures cause { HasDialCause (⟦<MemDial as Dial>⟧.faults self.old) (⟦<MemDial as Dial>⟧.faults self.new) result }
        ensures link_faults { ⟦<MemDial as Dial>⟧.link_faults self.new ≡ ⟦<MemDial as Dial>⟧.link_faults self.old }
        ensures planned { DialsBy (next_dial_fails self.old) result }
    {
        let Ok(named) = Octets::of(self.alloc, authority) else {
            return Err(DialFault::OutOfMemory);
        };
        let Ok(()) = self.dialled.reserve(1) else {
            return Err(DialFault::OutOfMemory);
        };
        match self.links.accept() {
            Ok(link) => {
                self.dialled.push_reserved((named, false));
                Ok(link)
            }
            Err(_) => {
                self.dialled.push_reserved((named, true));
                Err(DialFault::Failed)
            }
        }
    }

    fn done(&mut self, link: MemLink)
        requires { IsOut (⟦<MemDial as Dial>⟧.handed self.old) }
        ensures handed { TakesBack (⟦<MemDial as Dial>⟧.handed self.old) (⟦<MemDial as Dial>⟧.handed self.new)
            (⟦<MemLink as Link>⟧.written link) (has_fault (⟦<MemLink as Link>⟧.read_faults link) (⟦<MemLink as Link>⟧.write_faults link)) }
        ensures dialled { ⟦<MemDial as Dial>⟧.dialled self.new ≡ ⟦<MemDial as Dial>⟧.dialled self.old }
        ensures coming { ⟦<MemDial as Dial>⟧.coming self.new ≡ ⟦<MemDial as Dial>⟧.coming self.old }
        ensures faults { ⟦<MemDial as Dial>⟧.faults self.new ≡ ⟦<MemDial as Dial>⟧.faults self.old }
        ensures link_faults { RoseIfFailed (has_fault (⟦<MemLink as Link>⟧.read_faults link) (⟦<MemLink as Link>⟧.write_faults link))
            (⟦<MemDial as Dial>⟧.link_faults self.old) (⟦<MemDial as Dial>⟧.link_faults self.new) }
        ensures plan { dial_plan self.new ≡ dial_plan self.old }
    {
        self.links.done(link);
    }
}
