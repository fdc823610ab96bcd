//! The world of one client and one server.
ghost use Rattle.std.specs.Prelude.{◌≡◌, ◌≤◌, ◌<◌, ◌+◌, ◌^◌, ◌++◌, ℕ, Err, IfOk, OnOk, OnErr, length};
ghost use Rattle.auth_io.specs.Causes.{Rose};
ghost use Rattle.nonce_shard.specs.Sizes.{single_sizes};
ghost use Rattle.drill.specs.Deciding.{Begins};
ghost use Rattle.drill.specs.Steps.{AreLow, IsLeft, IsStep, IsWornBy};
ghost use Rattle.drill.specs.World.{beginning, items_in, line_of};
ghost use Rattle.drill.specs.declared.event.DrillEvent.TheVariants as event;

use crate::deciding::{decide_plain, decide_with};
use crate::error::DrillError;
use crate::giving::give;
use crate::hearing::hear;
use crate::line::push_number;
use crate::requests::can_send;
use crate::site::site_of;
use crate::tally::Tally;
use auth_decide::Site;
use auth_grammar::{ItemList, Octets, OutOfMemory, Role};
use auth_io::Words;
use client_core::{Client, Sent};
use nonce_shard::JournalTable;
use std::alloc::Global;
use std::marker::Model;

/// A client, what it made, a clock, and how the deliveries ended at a server, whose table of nonces is lent at each step.
/// Contracts see all of it but the site, which is that of one user and one space.
#[derive(Drop)]
pub struct World {
    alloc: Global,
    site: Site,
    client: Client,
    made: ItemList,
    clock: u64,
    tally: Tally,
}

impl Model for World {
    ghost use Rattle.std.specs.Prelude.{◌≡◌, true};
    ghost use Rattle.std.specs.List.{list_all};
    ghost use Rattle.auth_grammar.specs.declared.items.Role.TheVariants.{Origin};
    ghost use Rattle.drill.specs.Requests.{can_send};
    ghost use Rattle.drill.specs.Site.{the_site};
    ghost use Rattle.drill.specs.World.{Scene};

    ghost Value = { Scene };

    ghost view = { λ w. record { client = w.client; made = w.made; clock = w.clock; tally = w.tally } };

    ghost invariant = { λ w. record {
      its_site : w.site ≡ the_site;
      role : w.client.role ≡ Origin;
      sendable : list_all can_send w.made ≡ true;
    } };
}

impl World {
    /// A client that has made nothing yet, at moment 0.
    pub fn new(alloc: Global) -> Result<World, OutOfMemory>
        ensures { IfOk result (λ w. w ≡ beginning) }
    {
        let site = site_of(alloc)?;
        let Ok(client) = Client::new(alloc, Role::Origin, b"u", b"p") else {
            return Err(OutOfMemory);
        };
        Ok(World {
            alloc,
            site,
            client,
            made: ItemList::new(alloc),
            clock: 0,
            tally: Tally {
                delivered: 0,
                admitted: 0,
                stale: 0,
                refused: 0,
            },
        })
    }

    /// How many requests were made.
    pub fn made(&self) -> usize
        ensures { result ≡ length self.now.made }
    {
        self.made.len()
    }

    /// The clock, in seconds.
    pub fn clock(&self) -> u64
        ensures { result ≡ self.now.clock }
    {
        self.clock
    }

    /// How the deliveries ended so far.
    pub fn tally(&self) -> Tally
        ensures { result ≡ self.now.tally }
    {
        self.tally
    }

    /// The line that tells how it went so far, after so many steps.
    pub fn line(&self, steps: u32) -> Result<Octets, OutOfMemory>
        ensures { IfOk result (λ line. line ≡ line_of self.now steps) }
    {
        let mut line = Octets::new(self.alloc);
        push_number(&mut line, b"steps ", steps as u64)?;
        push_number(&mut line, b" made ", self.made.len() as u64)?;
        push_number(&mut line, b" delivered ", self.tally.delivered as u64)?;
        push_number(&mut line, b" admitted ", self.tally.admitted as u64)?;
        push_number(&mut line, b" stale ", self.tally.stale as u64)?;
        push_number(&mut line, b" refused ", self.tally.refused as u64)?;
        line.push(b'\n')?;
        Ok(line)
    }

    /// Time passes.
    pub(crate) fn pass(&mut self, seconds: u64)
        requires { self.old.clock + seconds < 2 ^ 64 }
        ensures { self.new ≡ record self.old { clock = self.old.clock + seconds } }
    {
        self.clock += seconds;
    }

    /// The client forgets its nonce, asks without credentials, and hears the answer.
    pub(crate) fn challenge<W: Words>(
        &mut self,
        random: &mut W,
        table: &mut JournalTable,
    ) -> Result<(), DrillError>
        requires { table.old.sizes ≡ single_sizes }
        ensures ok { OnOk result (IsStep event.Challenge self.old self.new table.old table.new (W.drawn random.old) (W.drawn random.new)) }
        ensures err { OnErr result (IsLeft event.Challenge self.old self.new) }
        ensures begun { OnErr result (Begins table.old table.new) }
        ensures worn { (calls : ℕ) → result ≡ Err (DrillError.Worn calls) → IsWornBy event.Challenge self.old table.old table.new calls }
        ensures later { W.faults random.old ≤ W.faults random.new }
        ensures fault { result ≡ Err DrillError.RandomFault → Rose (W.faults random.old) (W.faults random.new) }
    {
        self.client.forget();
        let verdict = decide_plain(self.alloc, &self.site, self.clock, random, table)?;
        hear(self.alloc, &mut self.client, &verdict, self.clock)?;
        Ok(())
    }

    /// The client makes a request, where it has a nonce.
    pub(crate) fn make<W: Words>(
        &mut self,
        random: &mut W,
        table: &JournalTable,
    ) -> Result<(), DrillError>
        ensures ok { OnOk result (IsStep event.Make self.old self.new table.now table.now (W.drawn random.old) (W.drawn random.new)) }
        ensures err { OnErr result (IsLeft event.Make self.old self.new) }
        ensures worn { (calls : ℕ) → result ≡ Err (DrillError.Worn calls) → ⊥ }
        ensures later { W.faults random.old ≤ W.faults random.new }
        ensures fault { result ≡ Err DrillError.RandomFault → Rose (W.faults random.old) (W.faults random.new) }
    {
        if !self.client.has_nonce() {
            return Ok(());
        }
        let sent = give(self.alloc, &mut self.client, self.clock, random)?;
        self.keep(sent)?;
        Ok(())
    }

    /// Keeps credentials of Digest, where they can be sent.
    fn keep(&mut self, sent: Sent) -> Result<(), OutOfMemory>
        ensures ok { OnOk result (self.new ≡ record self.old { made = self.old.made ++ items_in sent }) }
        ensures err { OnErr result (self.new ≡ self.old) }
    {
        let Sent::Digest(item) = sent else {
            return Ok(());
        };
        if can_send(self.alloc, &item)? {
            self.made.push(item)?;
        }
        Ok(())
    }

    /// The request at this place comes to the server, which decides on it.
    pub(crate) fn deliver<W: Words>(
        &mut self,
        k: u32,
        random: &mut W,
        table: &mut JournalTable,
    ) -> Result<(), DrillError>
        requires sizes { table.old.sizes ≡ single_sizes }
        requires low { AreLow self.old.tally }
        requires made { k < length self.old.made }
        ensures ok { OnOk result
            (IsStep (event.Deliver k) self.old self.new table.old table.new (W.drawn random.old) (W.drawn random.new)) }
        ensures err { OnErr result (IsLeft (event.Deliver k) self.old self.new) }
        ensures begun { OnErr result (Begins table.old table.new) }
        ensures worn { (calls : ℕ) → result ≡ Err (DrillError.Worn calls) → IsWornBy (event.Deliver k) self.old table.old table.new calls }
        ensures later { W.faults random.old ≤ W.faults random.new }
        ensures fault { result ≡ Err DrillError.RandomFault → Rose (W.faults random.old) (W.faults random.new) }
    {
        let Some(item) = self.made.get(k as usize) else {
            unreachable!()
        };
        let verdict = decide_with(self.alloc, &self.site, item, self.clock, random, table)?;
        self.tally.count(&verdict);
        Ok(())
    }
}
