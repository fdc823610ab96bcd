//! Which credentials go with a request.
ghost use Rattle.std.specs.Prelude.{◌≡◌, ◌≤◌, true, length, option_map, IfNone, IfOk, IfSome, OnErr};
ghost use Rattle.auth_grammar.specs.Plain.{is_plain_name};
ghost use Rattle.auth_grammar.specs.Valid.{is_quotable_text};
ghost use Rattle.client_core.specs.Digests.{DrewAtMost};
ghost use Rattle.client_core.specs.Givings.{again_given, by_choice, first_given, given};
ghost use Rattle.client_core.specs.Writings.{is_quotable_state, is_valid_sent};

use crate::request::{OutRequest, Sent};
use crate::scram::{again_nonce, can_reuse, final_item, first_item, first_of};
use crate::state::{Chosen, Progress, State};
use auth_grammar::OutOfMemory;
use std::alloc::Global;

impl State {
    /// The credentials for a request, of the first kind that can be given: an answer to a server's message of
    /// SCRAM-SHA-256, an exchange that is used again, and what the challenge takes that was chosen.
    pub(crate) fn give(
        &mut self,
        alloc: Global,
        request: &OutRequest,
        moment: u64,
        words: &[u8; 16],
    ) -> Result<Sent, OutOfMemory>
        requires name { is_plain_name self.old.user.name ≡ true }
        requires target { 1 ≤ length request.now.target }
        requires quotable { is_quotable_state self.old ≡ true }
        ensures ok { IfOk result (λ sent. given self.old request.now moment words.now ≡ (sent, self.new)) }
        ensures err { OnErr result (DrewAtMost self.old self.new) }
        ensures user { self.new.user ≡ self.old.user }
        ensures quotable { is_quotable_state self.new ≡ true }
        ensures valid { IfOk result (λ sent. is_quotable_text request.now.target ≡ true → is_valid_sent sent ≡ true) }
    {
        if let Progress::Answered(exchange) = &self.progress {
            let item = final_item(alloc, exchange, exchange.nonce.bytes())?;
            return Ok(Sent::ScramFinal(item));
        }
        if let Some(sent) = self.give_again(alloc, moment, words)? {
            return Ok(sent);
        }
        self.give_chosen(alloc, request, words)
    }

    /// What the challenge takes that was chosen.
    fn give_chosen(
        &mut self,
        alloc: Global,
        request: &OutRequest,
        words: &[u8; 16],
    ) -> Result<Sent, OutOfMemory>
        requires name { is_plain_name self.old.user.name ≡ true }
        requires target { 1 ≤ length request.now.target }
        requires quotable { is_quotable_state self.old ≡ true }
        ensures ok { IfOk result (λ sent. by_choice self.old request.now words.now self.old.choice ≡ (sent, self.new)) }
        ensures err { OnErr result (DrewAtMost self.old self.new) }
        ensures user { self.new.user ≡ self.old.user }
        ensures quotable { is_quotable_state self.new ≡ true }
        ensures valid { IfOk result (λ sent. is_quotable_text request.now.target ≡ true → is_valid_sent sent ≡ true) }
    {
        match &self.choice {
            Chosen::Scram(_) => self.give_first(alloc, words),
            _ => self.give_digest(alloc, request, words),
        }
    }

    /// Credentials of an exchange that is used again, where one can be.
    fn give_again(
        &mut self,
        alloc: Global,
        moment: u64,
        words: &[u8; 16],
    ) -> Result<Option<Sent>, OutOfMemory>
        requires { is_quotable_state self.old ≡ true }
        ensures ok { IfOk result (λ found. again_given self.old moment words.now self.old.progress self.old.reuse
            ≡ option_map (λ sent. (sent, self.new)) found) }
        ensures none { IfOk result (λ found. IfNone found (self.new ≡ self.old)) }
        ensures err { OnErr result (DrewAtMost self.old self.new) }
        ensures user { self.new.user ≡ self.old.user }
        ensures quotable { is_quotable_state self.new ≡ true }
        ensures valid { IfOk result (λ found. IfSome found (λ sent. is_valid_sent sent ≡ true)) }
    {
        let Progress::Finished(exchange, last) = &mut self.progress else {
            return Ok(None);
        };
        let Some(reuse) = &self.reuse else {
            return Ok(None);
        };
        if !can_reuse(&self.drawn, reuse, moment) {
            return Ok(None);
        }
        let count = self.drawn.draw(&reuse.sr)?;
        let nonce = again_nonce(alloc, &reuse.sr, count, words)?;
        let item = final_item(alloc, exchange, nonce.bytes())?;
        *last = nonce;
        Ok(Some(Sent::ScramAgain(item)))
    }

    /// The client's first message, where SCRAM-SHA-256 was chosen.
    fn give_first(&mut self, alloc: Global, words: &[u8; 16]) -> Result<Sent, OutOfMemory>
        requires name { is_plain_name self.old.user.name ≡ true }
        requires quotable { is_quotable_state self.old ≡ true }
        ensures ok { IfOk result (λ sent. first_given self.old words.now self.old.choice ≡ (sent, self.new)) }
        ensures err { OnErr result (self.new ≡ self.old) }
        ensures user { self.new.user ≡ self.old.user }
        ensures quotable { is_quotable_state self.new ≡ true }
        ensures valid { IfOk result (λ sent. is_valid_sent sent ≡ true) }
    {
        let Chosen::Scram(choice) = &self.choice else {
            return Ok(Sent::Nothing);
        };
        let first = first_of(alloc, self.user.name.bytes(), words)?;
        let item = first_item(alloc, choice, &first)?;
        self.progress = Progress::Begun(first);
        Ok(Sent::ScramFirst(item))
    }
}
