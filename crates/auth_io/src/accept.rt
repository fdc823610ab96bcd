//! What hands out connections.
ghost use Rattle.std.specs.Prelude.{◌≡◌, ℕ, List, Option, IfOk, OnOk, OnErr};
ghost use Rattle.auth_io.specs.Causes.{HasCause};
ghost use Rattle.auth_io.specs.Handing.{Handed, HandsFirst, HandsOut, IsOut, StartsEmpty, StartsUnread, TakesBack, RoseIfFailed, has_fault};

use crate::stream::{Failed, Link};

/// What hands out connections, and takes each back: the bytes of those that are still to come, how many were handed
/// out, and what became of those that are back, where it tells them.
pub trait Accept {
    type In: Link;

    /// The bytes of each connection that is still to come, the next one first.
    ghost coming: { Self → Option (List (List ℕ)) };

    ghost handed: { Self → Option Handed };

    ghost faults: { Self → ℕ };

    /// How many of the connections that are back had a fault.
    ghost link_faults: { Self → ℕ };

    /// The next connection. It has no faults, and has neither given nor taken anything. A call that failed takes none.
    fn accept(&mut self) -> Result<Self::In, Failed>
        ensures bytes { IfOk result (λ link. HandsFirst (coming self.old) (coming self.new) (Self.In.left link)) }
        ensures empty { IfOk result (λ link. StartsEmpty (handed self.new) (Self.In.written link)) }
        ensures unread { IfOk result (λ link. StartsUnread (Self.In.reads link)) }
        ensures no_read_fault { IfOk result (λ link. Self.In.read_faults link ≡ 0) }
        ensures no_write_fault { IfOk result (λ link. Self.In.write_faults link ≡ 0) }
        ensures handed { OnOk result (HandsOut (handed self.old) (handed self.new)) }
        ensures out { OnOk result (IsOut (handed self.new)) }
        ensures coming_at_fault { OnErr result (coming self.new ≡ coming self.old) }
        ensures handed_at_fault { OnErr result (handed self.new ≡ handed self.old) }
        ensures cause { HasCause (faults self.old) (faults self.new) result }
        ensures link_faults { link_faults self.new ≡ link_faults self.old };

    /// Takes a connection back.
    fn done(&mut self, link: Self::In)
        requires { IsOut (handed self.old) }
        ensures handed { TakesBack (handed self.old) (handed self.new) (Self.In.written link)
            (has_fault (Self.In.read_faults link) (Self.In.write_faults link)) }
        ensures coming { coming self.new ≡ coming self.old }
        ensures faults { faults self.new ≡ faults self.old }
        ensures link_faults { RoseIfFailed (has_fault (Self.In.read_faults link) (Self.In.write_faults link))
            (link_faults self.old) (link_faults self.new) };
}
