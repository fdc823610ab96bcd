//! What a client keeps.
ghost use Rattle.std.specs.Prelude.{◌≡◌};
ghost use Rattle.client_core.specs.Changes.{applied, finished, finishing, forgetting, with_nonce};

use crate::counts::Counts;
use auth_grammar::{Octets, Role};
use digest_fields::DigestChallenge;
use std::alloc::Global;
use std::mem;

/// Whose password it is.
#[derive(Drop)]
pub(crate) struct User {
    pub name: Octets,
    pub password: Octets,
}

/// A challenge of Digest that is answered from now on.
#[derive(Drop)]
pub(crate) struct DigestChoice {
    pub challenge: DigestChallenge,
    /// The nonce that is used: the challenge's, or one that came later.
    pub nonce: Option<Octets>,
    /// The cnonce of a session variant, once one was sent.
    pub prime: Option<[u8; 24]>,
}

/// A challenge of SCRAM-SHA-256 that is answered from now on.
#[derive(Drop)]
pub(crate) struct ScramChoice {
    pub realm: Option<Octets>,
}

/// The challenge that is answered from now on.
#[derive(Drop)]
pub(crate) enum Chosen {
    Nothing,
    Digest(DigestChoice),
    Scram(ScramChoice),
}

/// What a server gave to use an exchange again with (RFC 7804 section 5.1): its `sr`, when it came, and for how many
/// seconds it is good.
#[derive(Drop)]
pub(crate) struct Reuse {
    pub sr: Octets,
    pub since: u64,
    pub ttl: u32,
}

/// The first message of a client, which was sent.
#[derive(Drop)]
pub(crate) struct First {
    pub nonce: [u8; 24],
    /// The message behind its flag.
    pub bare: Octets,
}

/// An exchange that a server has answered.
#[derive(Drop)]
pub(crate) struct Exchange {
    pub sid: Octets,
    /// The client's first message behind its flag.
    pub bare: Octets,
    /// The server's first message.
    pub first: Octets,
    /// The nonce of both.
    pub nonce: Octets,
    /// SaltedPassword (RFC 5802 section 3).
    pub salted: [u8; 32],
}

/// How far an exchange of SCRAM-SHA-256 has come.
#[derive(Drop)]
pub(crate) enum Progress {
    /// None has begun.
    Nothing,
    /// The client's first message was sent.
    Begun(First),
    /// The server's first message came, and waits for the client's final one.
    Answered(Exchange),
    /// Both have proved themselves. The nonce is that with which the exchange was used last.
    Finished(Exchange, Octets),
}

/// What a client keeps.
#[derive(Drop)]
pub(crate) struct State {
    pub role: Role,
    pub user: User,
    pub choice: Chosen,
    pub progress: Progress,
    pub reuse: Option<Reuse>,
    /// How many stale answers came since the last response that was no challenge.
    pub stale: u32,
    pub drawn: Counts,
}

/// What a response changes of it.
#[derive(Drop)]
pub(crate) enum Change {
    /// Nothing.
    Keep,
    /// The challenge is answered from now on.
    Choose(Chosen),
    /// The challenge of SCRAM-SHA-256 is answered from now on, and an exchange may be used again with this.
    Begin(ScramChoice, Option<Reuse>),
    /// The nonce of a stale answer is used.
    Renew(Octets),
    /// The exchange is answered.
    Answer(Exchange),
    /// The exchange is forgotten, and another may be used again with this.
    Replace(Option<Reuse>),
    /// The nonce and the exchange are forgotten.
    Forget,
    /// The run of stale answers ends.
    Pass,
    /// It ends, and the server's next nonce is used.
    PassTo(Octets),
    /// It ends, and the exchange is finished.
    Finish,
    /// It ends, and the nonce and the exchange are forgotten.
    Fail,
}

impl Chosen {
    /// Uses another nonce, or none.
    fn set_nonce(&mut self, nonce: Option<Octets>)
        ensures { self.new ≡ with_nonce nonce self.old }
    {
        match self {
            Chosen::Digest(choice) => choice.nonce = nonce,
            Chosen::Nothing | Chosen::Scram(_) => {}
        }
    }
}

impl Progress {
    /// The exchange, which the server has answered, is finished.
    fn finish(self, alloc: Global) -> Progress
        ensures { result ≡ finished self }
    {
        match self {
            Progress::Answered(exchange) => Progress::Finished(exchange, Octets::new(alloc)),
            other => other,
        }
    }
}

impl State {
    /// Forgets what would be answered with.
    fn forget_nonce(&mut self)
        ensures { self.new ≡ forgetting self.old }
    {
        self.choice.set_nonce(None);
        self.progress = Progress::Nothing;
    }

    /// The exchange is finished.
    fn finish(&mut self, alloc: Global)
        ensures { self.new ≡ finishing self.old }
    {
        self.progress = mem::replace(&mut self.progress, Progress::Nothing).finish(alloc);
        self.stale = 0;
    }

    /// Makes a change.
    pub(crate) fn apply(&mut self, alloc: Global, change: Change)
        ensures { self.new ≡ applied change self.old }
    {
        match change {
            Change::Keep => {}
            Change::Choose(chosen) => self.choice = chosen,
            Change::Renew(nonce) => {
                self.choice.set_nonce(Some(nonce));
                self.stale = self.stale.saturating_add(1);
            }
            Change::Begin(choice, reuse) => {
                self.choice = Chosen::Scram(choice);
                self.reuse = reuse;
            }
            Change::Answer(exchange) => self.progress = Progress::Answered(exchange),
            Change::Replace(reuse) => {
                self.progress = Progress::Nothing;
                self.reuse = reuse;
            }
            Change::Finish => self.finish(alloc),
            Change::Forget => self.forget_nonce(),
            Change::Pass => self.stale = 0,
            Change::PassTo(nonce) => {
                self.choice.set_nonce(Some(nonce));
                self.stale = 0;
            }
            Change::Fail => {
                self.forget_nonce();
                self.stale = 0;
            }
        }
    }
}
