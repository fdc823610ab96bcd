//! The decision for one request.
ghost use Rattle.std.specs.Prelude.{◌≡◌, ◌<◌, ◌≤◌, IfOk, IfSome, OnErr, OnOk, true, option_copied};
ghost use Rattle.auth_grammar.specs.Plain.{is_plain_name};
ghost use Rattle.auth_decide.specs.Credentials.{Reads, credentials_lines};
ghost use Rattle.auth_decide.specs.Stages.{Replied, Words, first_stage, protection_space, stage_after};

use crate::asks::{ask_at, open};
use crate::credentials::{RequestCredentials, read_request};
use crate::paths::path_of;
use crate::site::Site;
use crate::stages::{Stage, first_stage, put, stage_after_reply, stage_after_words};
use crate::verdict::Ask;
use auth_grammar::{OutOfMemory, Role};
use http_wire::Request;
use nonce_shard::Reply;
use spaces_map::{Mode, Space};
use std::alloc::Global;
use std::marker::Model;
use std::{fmt, mem};

/// The decision for one request (RFC 9110 section 11, RFC 7616). It makes no call itself: `next` says what is
/// asked, and the caller hands in the answer. There are at most four asks: one draw and three calls of the table.
///
/// Contracts see the request as it is decided and the stage that it has come to. The credentials are read and the
/// response is computed once. `Debug` prints the stage's name.
///
/// ```text
/// let mut decision = Decision::start(alloc, Role::Origin, &request, moment, &site, seat.shards())?;
/// loop {
///     match decision.next(alloc)? {
///         Ask::Draw => decision.answer_words(&random.draw()?),
///         Ask::Table { shard, call } => decision.answer(alloc, &seat.call(shard, &call)?)?,
///         Ask::Verdict(verdict) => return Ok(verdict),
///     }
/// }
/// ```
#[derive(Drop)]
pub struct Decision<'a> {
    role: Role,
    request: &'a Request,
    moment: u64,
    site: &'a Site,
    shards: u16,
    credentials: RequestCredentials,
    space: Option<&'a Space>,
    stage: Stage,
}

impl<'a> fmt::Debug for Decision<'a> {
    fn fmt<W: fmt::Write>(&self, f: &mut fmt::Formatter<W>) -> fmt::Result {
        f.debug_struct("Decision")
            .field("stage", &self.stage)
            .finish()
    }
}

impl<'a> Model for Decision<'a> {
    ghost use Rattle.std.specs.Prelude.{◌≡◌, ◌<◌, true, option_copied};
    ghost use Rattle.std.specs.Option.{ForSome};
    ghost use Rattle.auth_grammar.specs.Plain.{is_plain_name};
    ghost use Rattle.auth_decide.specs.Decisions.{AsksWithin, Deciding};
    ghost use Rattle.auth_decide.specs.Stages.{protection_space};

    ghost Value = { Deciding };

    ghost view = { λ d. record {
      question = record {
        role = d.role;
        request = d.request.now;
        moment = d.moment;
        site = d.site.now;
        shards = d.shards;
        credentials = d.credentials;
      };
      stage = d.stage;
    } };

    ghost invariant = { λ d. record {
      space : option_copied d.space ≡ protection_space d.role d.request.now d.site.now;
      realm : ForSome d.space (λ space. is_plain_name space.now.realm ≡ true);
      some : 0 < d.shards;
      within : AsksWithin d.shards d.stage;
    } };
}

/// The space of a request, where it asks for credentials: that of its target's path, for a proxy that of all paths.
fn protection_space<'s>(role: Role, request: &Request, site: &'s Site) -> Option<&'s Space>
    ensures space { option_copied result ≡ protection_space role request.now site.now }
    ensures realm { IfSome result (λ space. is_plain_name space.now.realm ≡ true) }
{
    let space = match role {
        Role::Origin => site.spaces.space_of(path_of(request.target.bytes())),
        Role::Proxy => site.spaces.space_of(b"/"),
    }?;
    match space.mode {
        Mode::Open => None,
        Mode::Optional | Mode::Required => Some(space),
    }
}

ghost use Rattle.auth_decide.specs.Decisions.{AsksFew, FitsTable, IsCallFor, IsDraw, ask_of, asks_left};

impl<'a> Decision<'a> {
    /// Reads what the request says of itself. `moment` is in seconds since 1970, `shards` the number of the table's
    /// shards, at least 1.
    #[tactic(auto, unfolding(crate::specs::Stages::first_stage))]
    pub fn start(
        alloc: Global,
        role: Role,
        request: &'a Request,
        moment: u64,
        site: &'a Site,
        shards: u16,
    ) -> Result<Decision<'a>, OutOfMemory>
        requires { 1 ≤ shards }
        ensures role { IfOk result (λ d. d.question.role ≡ role) }
        ensures request { IfOk result (λ d. d.question.request ≡ request.now) }
        ensures moment { IfOk result (λ d. d.question.moment ≡ moment) }
        ensures site { IfOk result (λ d. d.question.site ≡ site.now) }
        ensures shards { IfOk result (λ d. d.question.shards ≡ shards) }
        ensures credentials { IfOk result (λ d. Reads (credentials_lines role request.now) d.question.credentials) }
        ensures stage { IfOk result (λ d. d.stage ≡ first_stage d.question) }
        ensures few { IfOk result (λ d. asks_left d.stage ≤ 4) }
    {
        let (credentials, presented) = read_request(alloc, role, request)?;
        let space = protection_space(role, request, site);
        let stage = first_stage(request, shards, &credentials, space, &site.store, presented)?;
        Ok(Decision {
            role,
            request,
            moment,
            site,
            shards,
            credentials,
            space,
            stage,
        })
    }

    /// What is asked next, which stays until it is answered.
    pub fn next(&self, alloc: Global) -> Result<Ask, OutOfMemory>
        ensures asked { IfOk result (λ ask. ask ≡ ask_of self.now) }
        ensures fits { IfOk result (λ ask. FitsTable self.now.question.shards ask) }
    {
        match self.space {
            None => Ok(open(alloc)),
            Some(space) => ask_at(
                alloc,
                self.role,
                self.moment,
                self.shards,
                space,
                &self.stage,
            ),
        }
    }

    /// Hands in the random words that were asked for.
    pub fn answer_words(&mut self, words: &[u8; 16])
        requires { IsDraw (ask_of self.old) }
        ensures stage { self.new ≡ record self.old { stage = stage_after self.old.question self.old.stage (Words words.now) } }
        ensures fewer { asks_left self.new.stage < asks_left self.old.stage }
    {
        let stage = mem::replace(&mut self.stage, Stage::Mismatched);
        put(&mut self.stage, stage_after_words(stage, *words));
    }

    /// Hands in the reply to the call that was asked for. Where there is no memory to check a proof, the decision admits
    /// nobody from then on.
    pub fn answer(&mut self, alloc: Global, reply: &Reply) -> Result<(), OutOfMemory>
        requires { IsCallFor reply.now (ask_of self.old) }
        ensures stage { OnOk result
            (self.new ≡ record self.old { stage = stage_after self.old.question self.old.stage (Replied reply.now) }) }
        ensures fewer { OnOk result (asks_left self.new.stage < asks_left self.old.stage) }
        ensures spent { OnErr result (self.new ≡ record self.old { stage = Stage.Mismatched }) }
    {
        let stage = mem::replace(&mut self.stage, Stage::Mismatched);
        let store = &self.site.store;
        let next = stage_after_reply(alloc, self.request, store, self.shards, stage, reply)?;
        put(&mut self.stage, next);
        Ok(())
    }
}

/// A request asks at most four times, whatever is answered.
pub fn asks_few()
    ensures { AsksFew }
{}
