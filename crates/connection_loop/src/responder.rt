//! What answers one request.
use auth_grammar::Octets;
use http_wire::Request;
use std::alloc::Global;
use thiserror::Error;

/// The response to one request.
#[derive(Drop)]
pub struct Response {
    /// All that is written for it.
    pub text: Octets,
    /// Whether the request was admitted, which is counted.
    pub admitted: bool,
}

/// Why something that was asked of the outside has no answer.
#[derive(Clone, Copy, Debug, PartialEq, Eq, Error)]
pub enum Lack {
    /// The source of random words failed.
    #[error("the source of random words failed")]
    Random,
    /// The table of nonces takes no more than `calls` calls.
    #[error("the table of nonces takes no more than {calls} calls")]
    Worn { calls: u64 },
}

/// Why there is no response.
#[derive(Clone, Copy, Debug, PartialEq, Eq, Error)]
pub enum RespondError {
    #[error(transparent)]
    Lacking(Lack),
    #[error("out of memory")]
    OutOfMemory,
}

/// A server of requests, with the part of the outside that it uses.
pub trait Responder {
    ghost use Rattle.std.specs.Prelude.{◌≡◌, ◌≢◌, Bool, ℕ, List, [], ◌∷◌, ◌++◌, Err};
    ghost use Rattle.connection_loop.specs.Machine.{Machine, Incoming, Responds};
    ghost use Rattle.connection_loop.specs.declared.responder.Lack.{Lack};

    /// What it keeps from one request to the next.
    type State;

    /// What it may ask of the outside.
    type Ask;

    /// A call to the outside, with its answer.
    type Event;

    /// How it goes from a request to its response.
    ghost machine: { Machine Self.State Self.Ask Self.Event };

    ghost state: { Self → Self.State };

    /// Between two moments its outside has passed through exactly these events.
    ghost passed: { Self → Self → List Self.Event → Type 0 };

    /// Between two moments this lack has come, at this ask.
    ghost lacked: { Self → Self → Lack → Self.Ask → Type 0 };

    /// How many draws of its random source have failed.
    ghost failed_draws: { Self → ℕ };

    /// Answers a request at a moment. `last` says that the connection closes after it.
    fn respond(
        &mut self,
        alloc: Global,
        request: &Request,
        last: bool,
        moment: u64,
    ) -> Result<Response, RespondError>
        ensures responds { (events : List Self.Event) × passed self.old self.new events
            × Responds machine (lacked self.old self.new) (state self.old) (state self.new)
            (record { request = request.now; last = last; moment = moment }) events result }
        ensures draws { result ≢ Err (RespondError.Lacking Lack.Random) → failed_draws self.new ≡ failed_draws self.old };

    ghost passed_none: { (a : Self) → passed a a [] };

    ghost passed_join: { (a b c : Self) (xs ys : List Self.Event) → passed a b xs → passed b c ys → passed a c (xs ++ ys) };

    ghost lacked_later: { (a b c : Self) (xs : List Self.Event) → passed a b xs → (lack : Lack) (ask : Self.Ask)
        → lacked b c lack ask → lacked a c lack ask };
}
