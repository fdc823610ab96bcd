//! What makes connections to others.
ghost use Rattle.std.specs.Prelude.{◌≡◌, ℕ, List, Option, IfOk, OnOk, OnErr};
ghost use Rattle.auth_io.specs.Dialling.{Dialled, HasDialCause, told_dials};
ghost use Rattle.auth_io.specs.Handing.{Handed, HandsFirst, HandsOut, IsOut, StartsEmpty, StartsUnread, TakesBack, RoseIfFailed, has_fault};
ghost use Rattle.auth_io.specs.Told.{Adds};

use crate::stream::Link;
use thiserror::Error;

/// Why a dial made no connection.
#[derive(Clone, Copy, Debug, PartialEq, Eq, Error)]
pub enum DialFault {
    /// Nobody was reached, and the count of dial faults has risen.
    #[error("nobody was reached")]
    Failed,
    /// There was no memory for it. Nothing has changed.
    #[error("out of memory")]
    OutOfMemory,
}

/// What makes connections to others, and takes each back: the authorities that were dialled, the bytes of the
/// connections that are still to come, how many were handed out, and what became of those that are back, where it
/// tells them.
pub trait Dial {
    type Out: Link;

    /// The authorities dialled so far, and of each whether the dial failed.
    ghost dialled: { Self → Option Dialled };

    /// The bytes of each connection that is still to come, the next one first.
    ghost coming: { Self → Option (List (List ℕ)) };

    ghost handed: { Self → Option Handed };

    /// How many dials failed.
    ghost faults: { Self → ℕ };

    /// How many of the connections that are back had a fault.
    ghost link_faults: { Self → ℕ };

    /// A connection to this authority, a host with or without a port (RFC 9110 section 4.2.1). It has no faults, and has
    /// neither given nor taken anything. A call that failed takes none.
    fn dial(&mut self, authority: &[u8]) -> Result<Self::Out, DialFault>
        ensures dialled { Adds (dialled self.old) (dialled self.new) (told_dials authority.now result) }
        ensures bytes { IfOk result (λ link. HandsFirst (coming self.old) (coming self.new) (Self.Out.left link)) }
        ensures empty { IfOk result (λ link. StartsEmpty (handed self.new) (Self.Out.written link)) }
        ensures unread { IfOk result (λ link. StartsUnread (Self.Out.reads link)) }
        ensures no_read_fault { IfOk result (λ link. Self.Out.read_faults link ≡ 0) }
        ensures no_write_fault { IfOk result (λ link. Self.Out.write_faults link ≡ 0) }
        ensures handed { OnOk result (HandsOut (handed self.old) (handed self.new)) }
        ensures out { OnOk result (IsOut (handed self.new)) }
        ensures coming_at_fault { OnErr result (coming self.new ≡ coming self.old) }
        ensures handed_at_fault { OnErr result (handed self.new ≡ handed self.old) }
        ensures cause { HasDialCause (faults self.old) (faults self.new) result }
        ensures link_faults { link_faults self.new ≡ link_faults self.old };

    /// Takes a connection back.
    fn done(&mut self, link: Self::Out)
        requires { IsOut (handed self.old) }
        ensures handed { TakesBack (handed self.old) (handed self.new) (Self.Out.written link)
            (has_fault (Self.Out.read_faults link) (Self.Out.write_faults link)) }
        ensures dialled { dialled self.new ≡ dialled self.old }
        ensures coming { coming self.new ≡ coming self.old }
        ensures faults { faults self.new ≡ faults self.old }
        ensures link_faults { RoseIfFailed (has_fault (Self.Out.read_faults link) (Self.Out.write_faults link))
            (link_faults self.old) (link_faults self.new) };
}
