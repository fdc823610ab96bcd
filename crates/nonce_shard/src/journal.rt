//! A table of one shard and one seat, which keeps its calls beside the shard that answers them.
ghost use Rattle.std.specs.Prelude.{◌≡◌, ◌<◌, ◌↔◌, [], ◌∷◌, ◌++◌, length, IsErr, IfOk, IfErr, OnOk, OnErr};
ghost use Rattle.nonce_shard.specs.Replies.{Fits, reply, answered, ComesOnce};
ghost use Rattle.nonce_shard.specs.Sizes.{AreValid};

use crate::calls::{Call, Reply};
use crate::copies::copy_call;
use crate::errors::{OutOfMemory, Worn};
use crate::seat::TableSeat;
use crate::shard::Shard;
use crate::sizes::Sizes;
use std::alloc::Global;
use std::marker::Model;

/// A table with one shard, number 0, for one owner, number 0. It takes a limited number of calls and
/// keeps them.
#[derive(Drop)]
pub struct JournalTable {
    limit: u32,
    calls: Vec<Call>,
    shard: Shard,
}

// a table of 12,288 calls takes less than 8.5 MB
const _: () = prove!(size_of::<Call>() <= 560);

impl Model for JournalTable {
    ghost use Rattle.std.specs.Prelude.{◌≡◌, ◌≤◌, ◌<◌, vec_len, vec_capacity};
    ghost use Rattle.nonce_shard.specs.Journal.{Journal};
    ghost use Rattle.nonce_shard.specs.Shard.{StandsFor, setting};

    ghost Value = { Journal };

    ghost view = { λ j. record { sizes = (setting j.shard).sizes; limit = j.limit; calls = j.calls.items } };

    ghost invariant = { λ j. record {
      stands : StandsFor j.shard j.calls.items;
      number : (setting j.shard).number ≡ 0;
      fits : vec_len j.calls ≤ j.limit;
      room : j.limit ≤ vec_capacity j.calls;
    } };
}

impl JournalTable {
    /// An empty table that takes this number of calls. It takes the memory for all of them, at
    /// most 560 bytes each, and that of a shard of these sizes.
    pub fn open(alloc: Global, calls: u32, sizes: &Sizes) -> Result<JournalTable, OutOfMemory>
        requires { AreValid sizes.now }
        ensures { IfOk result (λ j. j ≡ record { sizes = sizes.now; limit = calls; calls = [] }) }
    {
        Ok(JournalTable {
            limit: calls,
            calls: Vec::with_capacity(alloc, calls as usize)?,
            shard: Shard::open(alloc, 0, sizes)?,
        })
    }

    /// Answers a call and keeps it.
    fn keep(&mut self, call: &Call) -> Result<Reply, Worn>
        requires { Fits call.now.what }
        ensures full { IsErr result ↔ (length self.old.calls ≡ self.old.limit) }
        ensures reply { IfOk result (λ r. r ≡ reply self.old.sizes 0 self.old.calls call.now) }
        ensures kept { OnOk result (self.new ≡ record self.old { calls = self.old.calls ++ call.now ∷ [] }) }
        ensures worn { IfErr result (λ w. w.calls ≡ self.old.limit) }
        ensures at_limit { OnErr result (length self.old.calls ≡ self.old.limit) }
        ensures unchanged { OnErr result (self.new ≡ self.old) }
    {
        if self.calls.len() >= self.limit as usize {
            return Err(Worn {
                calls: self.limit as u64,
            });
        }
        let reply = self.shard.apply(call);
        match self.calls.push(copy_call(call)) {
            Ok(()) => Ok(reply),
            Err(_) => unreachable!(),
        }
    }
}

impl TableSeat for JournalTable {
    ghost use Rattle.nonce_shard.specs.Journal.{seat_of};
    ghost use Rattle.nonce_shard.specs.Seat.{Grows, IsWorn};

    ghost seat = { seat_of };

    fn shards(&self) -> u16 {
        1
    }

    fn call(&mut self, shard: u16, call: &Call) -> Result<Reply, Worn>
        requires in_range { shard < 1 }
        requires fits { Fits call.now.what }
        ensures ok { IfOk result (λ reply. Grows (seat_of self.old) (seat_of self.new) (record {
          shard = shard;
          call = call.now;
          reply = reply;
        } ∷ [])) }
        ensures worn { IfErr result (λ w. IsWorn (seat_of self.old) (seat_of self.new) shard w.calls) }

        ensures full { IsErr result ↔ (length self.old.calls ≡ self.old.limit) }
        ensures reply { IfOk result (λ r. r ≡ reply self.old.sizes 0 self.old.calls call.now) }
        ensures once { IfOk result (ComesOnce (answered self.old.sizes 0 self.old.calls) call.now.what) }
        ensures kept { OnOk result (self.new ≡ record self.old { calls = self.old.calls ++ call.now ∷ [] }) }
        ensures unchanged { OnErr result (self.new ≡ self.old) }
    {
        let _ = shard;
        self.keep(call)
    }
}
