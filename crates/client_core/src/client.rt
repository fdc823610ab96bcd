//! The client.
ghost use Rattle.std.specs.Prelude.{◌≡◌, ◌≤◌, ◌<◌, ◌⊎◌, ◌^◌, true, false, length, IfErr, IfOk, OnErr};
ghost use Rattle.auth_grammar.specs.Valid.{is_quotable_text};
ghost use Rattle.client_core.specs.Choices.{choice_of};
ghost use Rattle.client_core.specs.Clients.{Concludes, fits, forgotten, new_state};
ghost use Rattle.client_core.specs.Digests.{DrewAtMost, has_nonce};
ghost use Rattle.client_core.specs.Givings.{given};
ghost use Rattle.client_core.specs.Writings.{is_valid_sent};

use crate::choice::{Choice, choose};
use crate::counts::Counts;
use crate::hearing::heard_in;
use crate::outcome::{ClientError, Outcome};
use crate::reading::said_by;
use crate::request::{OutRequest, Sent};
use crate::state::{Chosen, Progress, State, User};
use auth_grammar::{ItemList, Octets, OutOfMemory, Role, is_password, is_plain_name};
use http_wire::Response;
use std::alloc::Global;
use std::marker::Model;

/// A user at one server or proxy. Contracts see what it keeps.
#[derive(Drop)]
pub struct Client {
    alloc: Global,
    state: State,
}

impl Model for Client {
    ghost use Rattle.std.specs.Prelude.{◌≡◌, true};
    ghost use Rattle.auth_grammar.specs.Plain.{is_plain_name};
    ghost use Rattle.client_core.specs.Writings.{is_quotable_state};
    ghost use Rattle.client_core.specs.declared.state.State.{State};

    ghost Value = { State };

    ghost view = { λ c. c.state };

    ghost invariant = { λ c. record {
      name : is_plain_name c.state.user.name ≡ true;
      quotable : is_quotable_state c.state ≡ true;
    } };
}

impl Client {
    /// The client of a user, who answers a server's own challenges or a proxy's. `BadName` comes exactly where the name
    /// isn't 1 to 64 printable bytes without a colon, or the password not 1 to 128 printable bytes.
    pub fn new(
        alloc: Global,
        role: Role,
        name: &[u8],
        password: &[u8],
    ) -> Result<Client, ClientError>
        ensures ok { IfOk result (λ client. client ≡ new_state role name.now password.now) }
        ensures fit { IfOk result (λ _. fits name.now password.now ≡ true) }
        ensures unfit { IfErr result (λ error. (error ≡ ClientError.OutOfMemory)
            ⊎ ((error ≡ ClientError.BadName) × (fits name.now password.now ≡ false))) }
    {
        if !is_plain_name(name) || !is_password(password) {
            return Err(ClientError::BadName);
        }
        let user = User {
            name: Octets::of(alloc, name)?,
            password: Octets::of(alloc, password)?,
        };
        let state = State {
            role,
            user,
            choice: Chosen::Nothing,
            progress: Progress::Nothing,
            reuse: None,
            stale: 0,
            drawn: Counts::new(alloc),
        };
        Ok(Client { alloc, state })
    }

    /// The item that a client answers (RFC 7616 section 3.7): of those whose parameters are accepted SCRAM-SHA-256 goes
    /// before Digest, and Digest by SHA-512-256 before SHA-256 before MD5. Of equals the first counts.
    pub fn choose(items: &ItemList) -> Choice
        requires { length items.now < 2 ^ 32 }
        ensures { result ≡ choice_of items.now }
    {
        choose(items)
    }

    /// Whether the client has a nonce of Digest, whose next count goes with a request that its domain lets pass.
    pub fn has_nonce(&self) -> bool
        ensures { result ≡ has_nonce self.now }
    {
        match &self.state.choice {
            Chosen::Digest(choice) => choice.nonce.is_some(),
            Chosen::Nothing | Chosen::Scram(_) => false,
        }
    }

    /// The credentials for a request (RFC 7616 section 3.4), by 16 random bytes. No nonce is given with a count that was
    /// given before. Where there is no memory the client is as it was, but that a count that was drawn isn't drawn again.
    pub fn credentials_for(
        &mut self,
        request: &OutRequest,
        moment: u64,
        words: &[u8; 16],
    ) -> Result<Sent, OutOfMemory>
        requires { 1 ≤ length request.now.target }
        ensures ok { IfOk result (λ sent. given self.old request.now moment words.now ≡ (sent, self.new)) }
        // For a target of bytes that a quoted string can hold (RFC 9110 section 5.6.4), an item that is given can be written.
        ensures valid { IfOk result (λ sent. is_quotable_text request.now.target ≡ true → is_valid_sent sent ≡ true) }
        ensures err { OnErr result (DrewAtMost self.old self.new) }
    {
        self.state.give(self.alloc, request, moment, words)
    }

    /// What the response to a request means that was sent with these credentials. Where there is no memory, and after
    /// `Malformed`, the client is as it was.
    pub fn on_response(
        &mut self,
        request: &OutRequest,
        sent: &Sent,
        response: &Response,
        moment: u64,
    ) -> Result<Outcome, OutOfMemory>
        ensures ok { IfOk result (λ outcome. Concludes self.old request.now sent.now response.now moment outcome self.new) }
        ensures err { OnErr result (self.new ≡ self.old) }
    {
        let said = said_by(self.alloc, self.state.role, sent, response)?;
        let heard = heard_in(self.alloc, sent, &said)?;
        let conclusion = self
            .state
            .conclude(self.alloc, request, sent, response, moment, &said, &heard)?;
        self.state.apply(self.alloc, conclusion.change);
        Ok(conclusion.outcome)
    }

    /// Forgets what is answered with: challenge, nonce and exchange. The counts that were drawn stay drawn.
    pub fn forget(&mut self)
        ensures { self.new ≡ forgotten self.old }
    {
        self.state.choice = Chosen::Nothing;
        self.state.progress = Progress::Nothing;
        self.state.reuse = None;
    }
}
