//! A shard of a table: it answers each call in the same time, whatever came before, and keeps no
//! list of them.
ghost use Rattle.std.specs.Prelude.{◌≡◌, ◌+◌, ◌<◌, if◌then◌else◌, ◌∷◌, [], ◌++◌, List, length, vec_len, IfOk};
ghost use Rattle.nonce_shard.specs.declared.calls.Call.{Call};
ghost use Rattle.nonce_shard.specs.Sizes.{AreValid};
ghost use Rattle.nonce_shard.specs.Replies.{Fits};
ghost use Rattle.nonce_shard.specs.Ring.{RepliesTo, HoldsNext};
ghost use Rattle.nonce_shard.specs.Nonces.{is_fresh};
ghost use Rattle.nonce_shard.specs.Totals.{is_repeated};
ghost use Rattle.nonce_shard.specs.NonceRing.{HoldsNonces};
ghost use Rattle.nonce_shard.specs.ExchangeRing.{HoldsExchanges};
ghost use Rattle.nonce_shard.specs.Shard.{HoldsPast, StandsFor, setting, reply_after, totals_after};

use crate::calls::{Call, Reply, What};
use crate::errors::OutOfMemory;
use crate::exchange_ring::{ExchangeRing, ExchangeSlot};
use crate::exchanges::Opening;
use crate::nonce_ring::{NonceRing, NonceSlot};
use crate::nonces::{Nonce, Wanted};
use crate::sizes::{EXCHANGES, NONCES, Setting, Sizes};
use crate::totals::Totals;
use std::alloc::Global;

/// The most calls that a shard answers. At a thousand million calls a second they last for 146 years.
pub const MOST_CALLS: u64 = 1 << 62;

// a shard of the standard sizes takes at most 1.6 MB
const _: () = prove!(
    NONCES as usize * size_of::<NonceSlot>() + EXCHANGES as usize * size_of::<ExchangeSlot>()
        <= 1_600_000
);

/// A shard. It stands for the calls that it has answered, the oldest first.
#[derive(Drop)]
pub struct Shard {
    setting: Setting,
    latest: u64,
    calls: u64,
    admitted: u64,
    repeated: u64,
    nonces: NonceRing,
    exchanges: ExchangeRing,
}

impl Shard {
    /// A shard with this number that has answered no call. It takes all its memory here: at the
    /// standard sizes 1.6 MB.
    pub fn open(alloc: Global, number: u16, sizes: &Sizes) -> Result<Shard, OutOfMemory>
        requires valid { AreValid sizes.now }
        requires number { number < sizes.now.shards }
        ensures stands { IfOk result (λ s. StandsFor s []) }
        ensures setting { IfOk result (λ s. setting s ≡ record { number = number; sizes = sizes.now }) }
    {
        Ok(Shard {
            setting: Setting {
                number,
                sizes: *sizes,
            },
            latest: 0,
            calls: 0,
            admitted: 0,
            repeated: 0,
            nonces: NonceRing::open(alloc, sizes.nonces)?,
            exchanges: ExchangeRing::open(alloc, sizes.exchanges)?,
        })
    }

    /// The totals of its calls.
    pub fn totals(&self) -> Totals
        ensures { (calls : List Call) → StandsFor self.now calls → result ≡ totals_after (setting self.now) calls }
    {
        Totals {
            calls: self.calls,
            issued: self.nonces.issued,
            admitted: self.admitted,
            repeated: self.repeated,
        }
    }

    /// Answers what is asked at this time.
    fn answer(&mut self, now: u64, what: &What) -> Reply
        requires nonces { 0 < vec_len self.old.nonces.slots }
        requires exchanges { 0 < vec_len self.old.exchanges.slots }
        requires issued { self.old.nonces.issued < u64.MAX }
        requires opened { self.old.exchanges.opened < u64.MAX }
        requires fits { Fits what.now }
        ensures reply { RepliesTo (HoldsPast self.old) self.old.setting now what.now result }
        ensures nonces { HoldsNext (HoldsNonces self.old.setting self.old.nonces) (HoldsNonces self.old.setting self.new.nonces)
            now what.now result }
        ensures exchanges { HoldsNext (HoldsExchanges self.old.setting self.old.exchanges)
            (HoldsExchanges self.old.setting self.new.exchanges)
            now what.now result }
        ensures rest { self.new ≡ record self.old { nonces = self.new.nonces; exchanges = self.new.exchanges } }
    {
        match what {
            What::Issue {
                kind,
                space,
                random,
            } => Reply::Issued {
                serial: self.nonces.issue(Nonce {
                    kind: *kind,
                    space: *space,
                    random: *random,
                    time: now,
                }),
            },
            What::Peek { nonce, space } => self.nonces.peek(&self.setting, nonce, *space, now),
            What::Use {
                nonce,
                kind,
                space,
                count,
                prime,
            } => {
                let wanted = Wanted::new(*kind, *space, now);
                let nonces = &mut self.nonces;
                nonces.use_nonce(&self.setting, nonce, &wanted, *count, prime)
            }
            What::Open {
                space,
                random,
                exchange,
            } => Reply::Opened {
                serial: self.exchanges.begin(Opening {
                    space: *space,
                    random: *random,
                    exchange: exchange.copy(),
                    time: now,
                }),
            },
            What::Take { sid, space } => self.exchanges.take(&self.setting, now, sid, *space),
            What::Keep { sid, space } => self.exchanges.keep(&self.setting, now, sid, *space),
            What::Recall { sid, space } => self.exchanges.recall(&self.setting, now, sid, *space),
        }
    }

    /// Answers a call. It takes no memory.
    pub fn apply(&mut self, call: &Call) -> Reply
        requires fits { Fits call.now.what }
        requires stands { (calls : List Call) × StandsFor self.old calls × (length calls < MOST_CALLS) }
        ensures reply { (calls : List Call) → StandsFor self.old calls → result ≡ reply_after (setting self.old) calls call.now }
        ensures stands { (calls : List Call) → StandsFor self.old calls → StandsFor self.new (calls ++ call.now ∷ []) }
        ensures setting { setting self.new ≡ setting self.old }
    {
        let now = self.latest.max(call.moment);
        let reply = self.answer(now, &call.what);
        self.latest = now;
        self.count(&reply);
        reply
    }

    /// Counts an answered call.
    fn count(&mut self, reply: &Reply)
        requires calls { self.old.calls < u64.MAX }
        requires admitted { self.old.admitted < u64.MAX }
        requires repeated { self.old.repeated < u64.MAX }
        ensures { self.new ≡ record self.old {
          calls = self.old.calls + 1;
          admitted = self.old.admitted + (if is_fresh reply.now then 1 else 0);
          repeated = self.old.repeated + (if is_repeated reply.now then 1 else 0);
        } }
    {
        self.calls += 1;
        match reply {
            Reply::Fresh { .. } => self.admitted += 1,
            Reply::Repeated => self.repeated += 1,
            _ => {}
        }
    }
}
