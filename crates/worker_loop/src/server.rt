//! What serves one connection.
use auth_io::Link;
use connection_loop::{ServeError, Served};
use std::alloc::Global;

/// A server of connections, with all of the outside that it uses but the connections themselves.
pub trait Server {
    ghost use Rattle.std.specs.Prelude.{◌≡◌, ℕ, List, [], ◌++◌, Option, Result, Err};
    ghost use Rattle.auth_io.specs.Causes.{Rose};
    ghost use Rattle.connection_loop.specs.Account.{link_of};
    ghost use Rattle.connection_loop.specs.Machine.{Machine};
    ghost use Rattle.connection_loop.specs.Results.{ServesSession};
    ghost use Rattle.connection_loop.specs.declared.responder.Lack.{Lack};
    ghost use Rattle.connection_loop.specs.declared.served.Served.{Served};
    ghost use Rattle.connection_loop.specs.declared.served.ServeError.{ServeError};

    /// What is the same for all connections and all workers.
    type Site;

    /// What it keeps from one request to the next.
    type State;

    /// What it may ask of the outside.
    type Ask;

    /// A call to the outside, with its answer.
    type Event;

    /// How it goes from a request to its response.
    ghost machine: { Machine Self.State Self.Ask Self.Event };

    ghost state: { Self.Site → Self → Self.State };

    /// The moments that its clock has shown, where it tells them.
    ghost shown: { Self → Option (List ℕ) };

    /// Between two moments its outside has passed through exactly these events.
    ghost passed: { Self → Self → List Self.Event → Type 0 };

    /// Between two moments this lack has come, at this ask.
    ghost lacked: { Self → Self → Lack → Self.Ask → Type 0 };

    /// What an end of a connection says besides, of what serves it before and after.
    ghost ends: { Self → Self → Result Served ServeError → Type 0 };

    /// Serves a connection to its end, or to the message that ends it.
    fn serve<L: Link>(
        &mut self,
        alloc: Global,
        link: &mut L,
        site: &Self::Site,
    ) -> Result<Served, ServeError>
        ensures session { let at = link_of L.left L.given L.written L.reads in
            ServesSession machine (lacked self.old self.new) (passed self.old self.new) (at link.old) (at link.new)
            (shown self.old) (shown self.new) (state site.now self.old) (state site.now self.new) result }
        ensures ends { ends self.old self.new result }
        ensures read_fault { result ≡ Err ServeError.ReadFault → Rose (L.read_faults link.old) (L.read_faults link.new) }
        ensures write_fault { result ≡ Err ServeError.WriteFault → Rose (L.write_faults link.old) (L.write_faults link.new) };

    ghost passed_none: { (a : Self) → passed a a [] };

    ghost passed_join: { (a b c : Self) (xs ys : List Self.Event) → passed a b xs → passed b c ys → passed a c (xs ++ ys) };

    ghost lacked_later: { (a b c : Self) (xs : List Self.Event) → passed a b xs →
        (lack : Lack) (ask : Self.Ask) → lacked b c lack ask → lacked a c lack ask };
}
